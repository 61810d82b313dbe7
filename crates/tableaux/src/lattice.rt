//! Lattice words: the codes of standard tableaux.
ghost use Rattle.std.specs.Prelude.{◌≡◌, length, MatchBool};
ghost use Rattle.realisations.specs.Standardisation.{count_same};
ghost use Rattle.tableau_laws.specs.LatticeWords.{IsLatticeWord};
ghost use Rattle.tableaux.specs.NumberedTableaux.{follows_in};

use linear_combos::Code;

// How often a letter stands in a code.
fn times(letter: u8, code: &Code) -> usize
    ensures { result ≡ count_same letter code.now }
{
    let mut found = 0;
    for at in 0..code.len() {
        if code.letter(at) == letter {
            found += 1;
        }
    }
    found
}

// Whether a letter may come behind a lattice word: it is 1, or the letter before it stands there more
// often.
pub(crate) fn follows(code: &Code, letter: u8) -> bool
    ensures { result ≡ follows_in code.now letter }
{
    letter == 1 || letter > 1 && times(letter, code) < times(letter - 1, code)
}

// Whether a code is a lattice word.
pub(crate) fn is_lattice_word(code: &Code) -> bool
    ensures { MatchBool result (IsLatticeWord code.now) (IsLatticeWord code.now → ⊥) }
{
    for at in 0..code.len() {
        let front = code.prefix(at);
        if !follows(&front, code.letter(at)) {
            return false;
        }
    }
    true
}
