//! Bases of graded spaces, and their operations on indices.
ghost use Rattle.std.specs.Prelude.{◌≡◌, ℕ, ◌+◌, ◌≤◌, ◌↔◌, [], ◌∷◌, IsTrue, IfOk};
ghost use Rattle.basis_names.specs.declared.bases.BasisId.{BasisId as BasisOf};
ghost use Rattle.linear_combos.specs.CodeLists.{ListsIndices};
ghost use Rattle.realisations.specs.Bases.{kind_of, index_kind_of, representative};
ghost use Rattle.realisations.specs.Indices.{IsIndex, degree_of};
ghost use Rattle.realisations.specs.Readings.{coproduct, product, applied, element};
ghost use Rattle.index_rules.specs.Rules.{IsAnswerWithin};
ghost use Rattle.index_rules.specs.Spaces.{limit_for, IsIndexWithin, degree_at, IsClass};

use basis_names::BasisId;
use hopf_num::OutOfMemory;
use linear_combos::{Code, Codes, Combo};
use std::alloc::Global;

/// A basis of a graded space, up to the degree limit of its algebra.
pub trait Space {
    ghost basis: { BasisOf };

    /// The basis.
    fn basis() -> BasisId
        ensures { result ≡ basis };

    /// The degree of an index.
    fn degree(code: &Code) -> u32
        requires { IsIndex basis code.now }
        ensures { result ≡ degree_of basis code.now };

    /// Whether the code is that of an index within the limit.
    fn is_index(code: &Code) -> bool
        ensures { IsTrue result ↔ IsIndexWithin basis code.now };

    /// The indices of a degree within the limit, each once, in canonical order.
    fn list(alloc: Global, degree: u32) -> Result<Codes, OutOfMemory>
        requires { degree ≤ limit_for basis }
        ensures { IfOk result (ListsIndices (index_kind_of basis) degree) };

    /// The representative of an index: a point at which its element occurs, and which tells it from the
    /// other indices of its degree.
    fn word_of(alloc: Global, code: &Code) -> Result<Code, OutOfMemory>
        requires { IsIndexWithin basis code.now }
        ensures { IfOk result (λ point. point ≡ representative basis code.now) };
}

/// A basis whose elements have no point in common: each point has a class, the index of the one element
/// that occurs there.
pub trait ClassSpace: Space {
    /// The class of a point of a degree within the limit.
    fn class_of(alloc: Global, point: &Code) -> Result<Code, OutOfMemory>
        requires { degree_at (kind_of Self.basis) point.now ≤ limit_for Self.basis }
        ensures { IfOk result (IsClass Self.basis point.now) };
}

/// A basis of an algebra.
pub trait Algebra: Space {
    // the norm of a product of degree n is at most 2 to the power of so many times n
    ghost product_growth: { ℕ };

    /// The product of two basis elements.
    fn product(alloc: Global, left: &Code, right: &Code) -> Result<Combo, OutOfMemory>
        requires left { IsIndex Self.basis left.now }
        requires right { IsIndex Self.basis right.now }
        requires degree { degree_of Self.basis left.now + degree_of Self.basis right.now ≤ limit_for Self.basis }
        ensures { IfOk result (IsAnswerWithin product_growth (Self.basis ∷ []) (degree_of Self.basis left.now + degree_of Self.basis right.now) (product (element Self.basis left.now) (element Self.basis right.now))) };
}

/// A basis of a coalgebra.
pub trait Coalgebra: Space {
    // the norm of a coproduct of degree n is at most 2 to the power of so many times n
    ghost coproduct_growth: { ℕ };

    /// The coproduct of a basis element.
    fn coproduct(alloc: Global, code: &Code) -> Result<Combo, OutOfMemory>
        requires { IsIndexWithin Self.basis code.now }
        ensures { IfOk result (IsAnswerWithin coproduct_growth (Self.basis ∷ Self.basis ∷ []) (degree_of Self.basis code.now) (applied coproduct 0 (element Self.basis code.now))) };
}

/// A basis whose elements have combinations over another basis.
pub trait Change<To: Space>: Space {
    // the norm of a combination of degree n is at most 2 to the power of so many times n
    ghost change_growth: { ℕ };

    /// The basis element over the other basis.
    fn change(alloc: Global, code: &Code) -> Result<Combo, OutOfMemory>
        requires index { IsIndexWithin Self.basis code.now }
        requires within { degree_of Self.basis code.now ≤ limit_for To.basis }
        ensures { IfOk result (IsAnswerWithin change_growth (To.basis ∷ []) (degree_of Self.basis code.now) (element Self.basis code.now)) };

    // both bases are read at points of one kind
    ghost same_kind: { kind_of Self.basis ≡ kind_of To.basis };
}
