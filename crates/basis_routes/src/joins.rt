//! The basis of a sum or a product of elements over two bases.
ghost use Rattle.std.specs.Prelude.{◌≡◌, ◌≢◌, ◌↔◌, IsTrue, [], ◌∷◌, IfOk, IfErr, unwrap_or};
ghost use Rattle.basis_routes.specs.declared.refusal.Refusal.TheVariants.{Memory};
ghost use Rattle.basis_routes.specs.declared.checks.Check.TheVariants.{Joined};
ghost use Rattle.realisations.specs.Bases.{has_words, kind_of, lies_in};
ghost use Rattle.basis_routes.specs.Checks.{Tests};
ghost use Rattle.basis_routes.specs.JoinTable.{join_of};

use crate::Refusal;
use hopf_laws::{AlgebraId, BasisId, algebra};

/// The basis over which elements of two bases are added and multiplied, or `None` where their
/// algebras have no common one. Of two bases of one algebra it is the left one, and of an algebra
/// inside another one the basis of the larger.
pub fn join(left: BasisId, right: BasisId) -> Option<BasisId>
    ensures { result ≡ join_of left right }
{
    let lefts = algebra(left);
    let rights = algebra(right);
    if is_inside(rights, lefts) {
        Some(left)
    } else if is_inside(lefts, rights) {
        Some(right)
    } else if is_of_words(lefts) && is_of_words(rights) {
        Some(BasisId::FqsymF)
    } else {
        None
    }
}

// Whether there is a way from one basis to another: both are of QSym, or of algebras of words.
pub(crate) fn is_routed(from: BasisId, to: BasisId) -> bool
    ensures { IsTrue result ↔ kind_of from ≡ kind_of to }
{
    is_of_words(algebra(from)) == is_of_words(algebra(to))
}

// Whether it is an algebra of words.
fn is_of_words(algebra: AlgebraId) -> bool
    ensures { result ≡ has_words algebra }
{
    match algebra {
        AlgebraId::Qsym => false,
        AlgebraId::Ncsf | AlgebraId::Fqsym | AlgebraId::Wqsym | AlgebraId::Fsym | AlgebraId::Pbt =>
            true,
    }
}

// Whether the first algebra lies in the second, or is the same.
pub(crate) fn is_inside(inner: AlgebraId, outer: AlgebraId) -> bool
    ensures { result ≡ lies_in inner outer }
{
    match inner {
        AlgebraId::Qsym => matches!(outer, AlgebraId::Qsym),
        AlgebraId::Ncsf => !matches!(outer, AlgebraId::Qsym),
        AlgebraId::Fsym => matches!(outer, AlgebraId::Fsym | AlgebraId::Fqsym | AlgebraId::Wqsym),
        AlgebraId::Pbt => matches!(outer, AlgebraId::Pbt | AlgebraId::Fqsym | AlgebraId::Wqsym),
        AlgebraId::Fqsym => matches!(outer, AlgebraId::Fqsym | AlgebraId::Wqsym),
        AlgebraId::Wqsym => matches!(outer, AlgebraId::Wqsym),
    }
}

// The join, or `Mixed` with both algebras where there is none.
pub(crate) fn join_or_refuse(left: BasisId, right: BasisId) -> Result<BasisId, Refusal>
    ensures checks { Tests (Joined left right ∷ []) result }
    ensures outright { IfErr result (λ refusal. refusal ≢ Memory) }
    ensures value { IfOk result (λ basis. basis ≡ unwrap_or (join_of left right) left) }
{
    match join(left, right) {
        Some(basis) => Ok(basis),
        None => Err(Refusal::Mixed(algebra(left), algebra(right))),
    }
}
