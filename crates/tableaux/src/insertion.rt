//! Insertion tableaux.
ghost use Rattle.std.specs.Prelude.{◌≡◌, ◌≤◌, ℕ, IsTrue, length};
ghost use Rattle.realisations.specs.IndexKinds.{is_standard_tableau};
ghost use Rattle.realisations.specs.Standardisation.{count_same};
ghost use Rattle.realisations.specs.Tableaux.{insertion_tableau};

use crate::Tableau;
use linear_combos::Code;
use permutation_words::Permutation;

// The insertion tableau of a word of distinct letters, which enter from the left.
pub(crate) fn inserted(word: &Code) -> Tableau
    requires distinct { (k : ℕ) → count_same k word.now ≤ 1 }
    requires small { length word.now ≤ 12 }
    ensures { result ≡ insertion_tableau word.now }
{
    let mut tableau = Tableau::empty();
    for at in 0..word.len() {
        tableau.insert(word.letter(at));
    }
    tableau
}

/// The insertion tableau of a permutation (Schensted 1961): its letters enter the empty tableau from the
/// left. It takes no memory; the cost grows with the square of the size.
pub fn schensted(permutation: &Permutation) -> Tableau
    ensures value { result ≡ insertion_tableau permutation.now }
    ensures standard { IsTrue (is_standard_tableau result) }
{
    inserted(permutation.code())
}
