//! Standard tableaux: lists of rows.
ghost use Rattle.std.specs.Prelude.{◌≡◌, ◌≤◌, ◌<◌, ◌++◌, ℕ, List, [], ◌∷◌, Some, MatchBool, MatchOption, IsTrue, length, take};
ghost use Rattle.std.specs.List.{concat};
ghost use Rattle.linear_combos.specs.Codes.{IsCode};
ghost use Rattle.realisations.specs.Lists.{is_among as is_number_among};
ghost use Rattle.realisations.specs.IndexKinds.{by_tableau, is_standard_tableau};
ghost use Rattle.realisations.specs.Tableaux.{is_below as stands_below, is_increasing as is_increasing_tableau, rises as row_rises, row_of as row_number, tableau_code};
ghost use Rattle.index_spellings.specs.Items.{rows_in as rows_spelled};
ghost use Rattle.index_spellings.specs.Indices.{index_by};
ghost use Rattle.index_spellings.specs.KeptRows.{AreKept, is_rising, columns_rise as each_column_rises};

use linear_combos::Code;
use permutation_words::Permutation;
use session_tokens::Lexeme;

// The most rows.
const MOST: usize = 12;

// Whether a row with a number more is a code.
fn has_room_for(number: u128, row: &Code) -> bool
    ensures { MatchBool result (IsCode (row.now ++ number ∷ [])) (IsCode (row.now ++ number ∷ []) → ⊥) }
{
    row.len() < 15 && number >= 1 && number <= 15
}

// The rows of a list of lists of numbers, as codes, and how many there are.
fn rows_in(items: &[Lexeme]) -> Option<([Code; 12], usize)>
    ensures { MatchOption result ((rows : List (List ℕ)) → rows_spelled items.now ≡ Some rows → AreKept rows → ⊥) (λ found. (rows_spelled items.now ≡ Some (take found.1 found.0)) × (found.1 ≤ 12)) }
{
    let mut rows = [Code::empty(); 12];
    let mut len = 0;
    let mut is_open = false;
    let mut row = Code::empty();
    for item in items {
        match item {
            Lexeme::Comma => {}
            Lexeme::LeftBracket => {
                if is_open {
                    return None;
                }
                is_open = true;
                row = Code::empty();
            }
            Lexeme::Number(number) => {
                let number = *number;
                if !is_open {
                    return None;
                }
                if !has_room_for(number, &row) {
                    return None;
                }
                row = row.with(number as u8);
            }
            Lexeme::RightBracket => {
                if !is_open {
                    return None;
                }
                if len == MOST {
                    return None;
                }
                rows[len] = row;
                len += 1;
                is_open = false;
            }
            _ => return None,
        }
    }
    if is_open {
        return None;
    }
    Some((rows, len))
}

// Whether the numbers of a row rise.
fn rises(row: &Code) -> bool
    ensures { result ≡ row_rises row.now }
{
    for at in 1..row.len() {
        if row.letter(at - 1) >= row.letter(at) {
            return false;
        }
    }
    true
}

// Whether a row is nonempty and rises.
fn is_rising_row(row: &Code) -> bool
    ensures { result ≡ is_rising row.now }
{
    row.len() > 0 && rises(row)
}

// Whether each number of a row stands below a smaller one.
fn columns_rise(above: &Code, below: &Code) -> bool
    ensures { result ≡ each_column_rises above.now below.now }
{
    for at in 0..below.len() {
        if at >= above.len() {
            return false;
        }
        if above.letter(at) >= below.letter(at) {
            return false;
        }
    }
    true
}

// Whether a row is nonempty and stands below another.
fn is_below(above: &Code, below: &Code) -> bool
    ensures { result ≡ stands_below above.now below.now }
{
    below.len() > 0 && columns_rise(above, below)
}

// Whether rows rise to the right, and columns downwards.
fn is_increasing(rows: &[Code]) -> bool
    ensures { result ≡ is_increasing_tableau rows.now }
{
    for at in 0..rows.len() {
        let row = rows[at];
        if !is_rising_row(&row) {
            return false;
        }
        if at + 1 < rows.len() && !is_below(&row, &rows[at + 1]) {
            return false;
        }
    }
    true
}

// The numbers of rows, one row behind the other, where there are at most 15.
fn word_of(rows: &[Code]) -> Option<Code>
    ensures { MatchOption result (15 < length (concat rows.now)) (λ word. word ≡ concat rows.now) }
{
    let mut word = Code::empty();
    for at in 0..rows.len() {
        if word.len() + rows[at].len() > 15 {
            return None;
        }
        word = word.followed_by(&rows[at]);
    }
    Some(word)
}

// Whether a number is in a row.
fn is_among(number: u8, row: &Code) -> bool
    ensures { result ≡ is_number_among number row.now }
{
    for at in 0..row.len() {
        if row.letter(at) == number {
            return true;
        }
    }
    false
}

// The number of the row, counted from 1, in which a number stands.
fn row_of(number: u8, rows: &[Code]) -> u8
    requires { length rows.now ≤ 12 }
    ensures { result ≡ row_number number rows.now }
{
    for at in 0..rows.len() {
        if is_among(number, &rows[at]) {
            return at as u8 + 1;
        }
    }
    rows.len() as u8
}

// The code of a standard tableau: the rows of its numbers.
fn code_of(size: usize, rows: &[Code]) -> Code
    requires standard { IsTrue (is_standard_tableau rows.now) }
    requires size { size ≡ length (concat rows.now) }
    requires small { size ≤ 12 }
    ensures { result ≡ tableau_code rows.now }
{
    let mut code = Code::empty();
    for number in 1..size as u8 + 1 {
        code = code.with(row_of(number, rows));
    }
    code
}

// Whether rows with these numbers are a standard tableau.
fn is_standard(word: Code, rows: &[Code]) -> bool
    requires word { word ≡ concat rows.now }
    requires small { length word ≤ 12 }
    ensures { result ≡ is_standard_tableau rows.now }
{
    Permutation::of_code(word).is_some() && is_increasing(rows)
}

// The standard tableau of a size up to a limit whose rows the items of a list spell, as its code.
pub(crate) fn tableau_in(limit: u32, items: &[Lexeme]) -> Option<Code>
    requires { limit ≤ 12 }
    ensures { result ≡ index_by by_tableau limit items.now }
{
    let (kept, len) = rows_in(items)?;
    let rows = &kept[..len];
    let word = word_of(rows)?;
    if word.len() as u32 > limit || !is_standard(word, rows) {
        return None;
    }
    Some(code_of(word.len(), rows))
}
