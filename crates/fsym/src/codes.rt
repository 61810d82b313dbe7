//! Codes as standard tableaux and as permutations, and the tableaux of permutations.
ghost use Rattle.std.specs.Prelude.{◌≡◌, ◌≤◌, ◌↔◌, length, IsTrue};
ghost use Rattle.permutation_words.specs.Sizes.{IsSmallPermutation};
ghost use Rattle.realisations.specs.IndexKinds.{IsTableauCode, is_standard_tableau};
ghost use Rattle.realisations.specs.Standardisation.{inverse as inverse_of};
ghost use Rattle.realisations.specs.Tableaux.{insertion_tableau, rows_of, tableau_code};
ghost use Rattle.tableaux.specs.Sizes.{IsSmallTableauCode};

use basis_names::{AlgebraId, limit};
use linear_combos::Code;
use permutation_words::Permutation;
use tableaux::{Tableau, schensted};

// Whether the code is that of a standard tableau within the degree limit.
pub(crate) fn is_small_tableau(code: &Code) -> bool
    ensures { IsTrue result ↔ IsTableauCode code.now × (length code.now ≤ 7) }
{
    if code.len() as u32 > limit(AlgebraId::Fsym) {
        return false;
    }
    Tableau::from_code(code).is_some()
}

// The standard tableau of a code.
pub(crate) fn tableau(code: &Code) -> Tableau
    requires { IsSmallTableauCode code.now }
    ensures value { result ≡ rows_of code.now }
    ensures standard { IsTrue (is_standard_tableau result) }
{
    Tableau::from_code(code).unwrap()
}

// The permutation that a code is.
fn permutation(code: &Code) -> Permutation
    requires { IsSmallPermutation code.now }
    ensures { result ≡ code.now }
{
    Permutation::of_code(*code).unwrap()
}

// The inverse of the permutation that a code is.
pub(crate) fn inverse(code: &Code) -> Code
    requires { IsSmallPermutation code.now }
    ensures { result ≡ inverse_of code.now }
{
    let inverse = permutation(code).inverse();
    *inverse.code()
}

// The insertion tableau of the permutation that a code is.
pub(crate) fn inserted(code: &Code) -> Tableau
    requires { IsSmallPermutation code.now }
    ensures value { result ≡ insertion_tableau code.now }
    ensures standard { IsTrue (is_standard_tableau result) }
{
    schensted(&permutation(code))
}

// Its code.
pub(crate) fn insertion_code(code: &Code) -> Code
    requires { IsSmallPermutation code.now }
    ensures { result ≡ tableau_code (insertion_tableau code.now) }
{
    let tableau = inserted(code);
    tableau.code()
}
