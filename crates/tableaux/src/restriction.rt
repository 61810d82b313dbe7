//! Tableaux restricted to intervals of values.
ghost use Rattle.std.specs.Prelude.{◌≡◌, List, ℕ, IsTrue};
ghost use Rattle.realisations.specs.IndexKinds.{is_permutation, is_standard_tableau};
ghost use Rattle.realisations.specs.Standardisation.{standardise};
ghost use Rattle.realisations.specs.Tableaux.{insertion_tableau};
ghost use Rattle.tableau_laws.specs.Intervals.{letters_between, restricted, tableau_between};

use crate::Tableau;
use crate::insertion::inserted;
use linear_combos::Code;

// The letters of a permutation from one number to another, each lowered so that the first number becomes
// 1: their standardisation.
fn between(word: &Code, from: u8, to: u8) -> Code
    requires { IsTrue (is_permutation word.now) }
    ensures { result ≡ standardise (letters_between from to word.now) }
{
    let by = from.saturating_sub(1);
    let mut out = Code::empty();
    for at in 0..word.len() {
        let letter = word.letter(at);
        if from <= letter && letter <= to {
            out = out.with(letter - by);
        }
    }
    out
}

impl Tableau {
    /// The restriction of a standard tableau to the numbers from `from` to `to`: the insertion tableau of
    /// its reading word's standardised letters between them.
    ///
    /// It is that of those letters of each permutation whose insertion tableau this is (Knuth 1970). The
    /// cost grows with the square of the size.
    pub fn restrict(&self, from: u8, to: u8) -> Tableau
        requires { IsTrue (is_standard_tableau self.now) }
        ensures own { result ≡ restricted from to self.now }
        ensures all { (s : List ℕ) → IsTrue (is_permutation s) → insertion_tableau s ≡ self.now → result ≡ tableau_between from to s }
        ensures standard { IsTrue (is_standard_tableau result) }
    {
        let word = self.reading_word();
        inserted(&between(&word, from, to))
    }
}
