//! Rows by the numbers that letters have.
ghost use Rattle.std.specs.Prelude.{◌≡◌, ◌++◌, length};
ghost use Rattle.realisations.specs.Standardisation.{count_below};
ghost use Rattle.linear_combos.specs.Codes.{IsCode};
ghost use Rattle.tableau_laws.specs.NumberedRows.{bumped, letters_in};

use linear_combos::Code;

// How many of some letters are smaller than a letter.
pub(crate) fn smaller(letter: u8, letters: &[u8]) -> usize
    ensures { result ≡ count_below letter letters.now }
{
    let mut found = 0;
    for other in letters {
        if *other < letter {
            found += 1;
        }
    }
    found
}

// Puts behind a code the row numbers of the letters past one that entered row 1: each that leaves its row
// goes on to the next one.
pub(crate) fn bump(front: &Code, rows: &Code) -> Code
    requires { IsCode (front.now ++ bumped 1 rows.now) }
    ensures { result ≡ front.now ++ bumped 1 rows.now }
{
    let mut out = *front;
    let mut entered = 1;
    for at in 0..rows.len() {
        let row = rows.letter(at);
        if row == entered {
            entered += 1;
            out = out.with(entered);
        } else {
            out = out.with(row);
        }
    }
    out
}

// Puts the letters of a row behind a word.
pub(crate) fn with_row(word: &Code, letters: &[u8], rows: &Code, row: u8) -> Code
    requires same_size { length letters.now ≡ length rows.now }
    requires is_code { IsCode (word.now ++ letters_in row letters.now rows.now) }
    ensures { result ≡ word.now ++ letters_in row letters.now rows.now }
{
    let mut out = *word;
    for at in 0..letters.len() {
        if rows.letter(at) == row {
            out = out.with(letters[at]);
        }
    }
    out
}
