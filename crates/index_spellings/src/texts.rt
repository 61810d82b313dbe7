//! The texts of indices.
ghost use Rattle.std.specs.Prelude.{◌≡◌, ◌≤◌, ◌++◌, suc, length, map, take, drop, OnOk};
ghost use Rattle.std.specs.Fmt.{decimal};
ghost use Rattle.realisations.specs.Bases.{index_kind_of};
ghost use Rattle.realisations.specs.Tableaux.{places_of as places_in, rows_of};
ghost use Rattle.realisations.specs.Trees.{before_root as before_root_of, after_root as after_root_of, tree_within};
ghost use Rattle.index_spellings.specs.Texts.{comma_separated, list_text, rows_text, tree_text, index_spelling};

use basis_names::BasisId;
use hopf_io::Bytes;
use hopf_num::OutOfMemory;
use linear_combos::Code;
use permutation_words::greatest_letter;

// The decimal text of a letter.
fn letter_text(letter: u8) -> &'static [u8]
    requires { letter ≤ 15 }
    ensures { result.now ≡ decimal letter }
{
    match letter {
        0 => b"0",
        1 => b"1",
        2 => b"2",
        3 => b"3",
        4 => b"4",
        5 => b"5",
        6 => b"6",
        7 => b"7",
        8 => b"8",
        9 => b"9",
        10 => b"10",
        11 => b"11",
        12 => b"12",
        13 => b"13",
        14 => b"14",
        15 => b"15",
        _ => unreachable!(),
    }
}

// Appends the letters of a code, with commas between.
fn append_letters(code: &Code, out: &mut Bytes) -> Result<(), OutOfMemory>
    ensures { OnOk result (out.new ≡ out.old ++ comma_separated (map decimal code.now)) }
{
    if code.len() == 0 {
        return Ok(());
    }
    out.push_all(letter_text(code.letter(0)))?;
    for at in 1..code.len() {
        out.push_all(b",")?;
        out.push_all(letter_text(code.letter(at)))?;
    }
    Ok(())
}

/// Appends the spelling of a list of numbers, as a composition or a word: these in decimal, with commas
/// between, in brackets. After an error some of it may have been appended.
pub fn append_list(code: &Code, out: &mut Bytes) -> Result<(), OutOfMemory>
    ensures { OnOk result (out.new ≡ out.old ++ list_text code.now) }
{
    out.push_all(b"[")?;
    append_letters(code, out)?;
    out.push_all(b"]")
}

// The places of a letter in a code, counted from 1.
fn places_of(letter: u8, code: &Code) -> Code
    ensures { result ≡ places_in letter 1 code.now }
{
    let mut places = Code::empty();
    for at in 0..code.len() {
        if code.letter(at) == letter {
            places = places.with(at as u8 + 1);
        }
    }
    places
}

// Appends the lists of the rows of the tableau with a code, with commas between.
fn append_row_lists(code: &Code, out: &mut Bytes) -> Result<(), OutOfMemory>
    ensures { OnOk result (out.new ≡ out.old ++ comma_separated (map list_text (rows_of code.now))) }
{
    let rows = greatest_letter(code);
    if rows == 0 {
        return Ok(());
    }
    append_list(&places_of(1, code), out)?;
    for row in 2..rows + 1 {
        out.push_all(b",")?;
        append_list(&places_of(row, code), out)?;
    }
    Ok(())
}

// Appends the spelling of the tableau with a code.
fn append_rows(code: &Code, out: &mut Bytes) -> Result<(), OutOfMemory>
    ensures { OnOk result (out.new ≡ out.old ++ rows_text (rows_of code.now)) }
{
    out.push_all(b"[")?;
    append_row_lists(code, out)?;
    out.push_all(b"]")
}

// How many letters stand before the root in the code of a tree: before the first letter that is the
// number of letters from it on.
fn root_place(code: &Code) -> usize
    ensures within { result ≤ length code.now }
    ensures before { take result code.now ≡ before_root_of code.now }
    ensures after { drop (suc result) code.now ≡ after_root_of code.now }
{
    for at in 0..code.len() {
        if usize::from(code.letter(at)) == code.len() - at {
            return at;
        }
    }
    code.len()
}

// What stands before the root.
fn before_root(code: &Code) -> Code
    ensures { result ≡ before_root_of code.now }
{
    code.prefix(root_place(code))
}

// What stands after it.
fn after_root(code: &Code) -> Code
    ensures { result ≡ after_root_of code.now }
{
    let root = root_place(code);
    if root == code.len() {
        return Code::empty();
    }
    code.suffix(root + 1)
}

// Appends the spelling of the tree of at most so many levels with a code.
fn append_tree(levels: usize, code: &Code, out: &mut Bytes) -> Result<(), OutOfMemory>
    ensures { OnOk result (out.new ≡ out.old ++ tree_text (tree_within levels code.now)) }
{
    if levels == 0 {
        return out.push_all(b"[]");
    }
    if code.len() == 0 {
        return out.push_all(b"[]");
    }
    out.push_all(b"[")?;
    append_tree(levels - 1, &before_root(code), out)?;
    out.push_all(b",")?;
    append_tree(levels - 1, &after_root(code), out)?;
    out.push_all(b"]")
}

/// Appends the spelling of the index of a basis with a code: the list of a composition, a permutation or
/// a packed word, the list of the rows of a standard tableau, the first row first, or the nested pairs of
/// a binary tree. After an error some of it may have been appended.
///
/// The cost grows with the square of the length of the code.
pub fn append_index(basis: BasisId, code: &Code, out: &mut Bytes) -> Result<(), OutOfMemory>
    ensures { OnOk result (out.new ≡ out.old ++ index_spelling (index_kind_of basis) code.now) }
{
    match basis {
        BasisId::FsymS => append_rows(code, out),
        BasisId::PbtP => append_tree(code.len(), code, out),
        _ => append_list(code, out),
    }
}
