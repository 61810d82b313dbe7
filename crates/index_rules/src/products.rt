//! Products over one basis by the products over another one.
ghost use Rattle.std.specs.Prelude.{◌≡◌, ◌+◌, ◌*◌, ◌^◌, ◌<◌, ◌≤◌, [], ◌∷◌, IfOk};
ghost use Rattle.linear_combos.specs.Combos.{IsTensor};
ghost use Rattle.realisations.specs.Combinations.{norm_of};
ghost use Rattle.realisations.specs.Indices.{degree_of};
ghost use Rattle.realisations.specs.Readings.{product, element};
ghost use Rattle.index_rules.specs.Rules.{IsAnswerWithin};
ghost use Rattle.index_rules.specs.Spaces.{IsIndexWithin, limit_for};

use crate::changing::change_component;
use crate::multiplying::multiply_components;
use crate::spaces::{Algebra, Change};
use hopf_num::OutOfMemory;
use linear_combos::{Code, Combo, ComboFault};
use std::alloc::Global;

// The tensor product of two combinations, where it has room.
fn tensor(alloc: Global, a: &Combo, b: &Combo) -> Result<Combo, OutOfMemory>
    requires rank { a.now.rank + b.now.rank ≤ 3 }
    requires den { a.now.den * b.now.den < 2 ^ 127 }
    requires norm { norm_of a.now.terms * norm_of b.now.terms < 2 ^ 127 }
    ensures { IfOk result (IsTensor a.now b.now) }
{
    match Combo::tensor(alloc, a, b) {
        Ok(tensor) => Ok(tensor),
        Err(ComboFault::TooLarge(_)) => unreachable!(),
        Err(ComboFault::Memory) => Err(OutOfMemory),
    }
}

/// The product of two elements of a basis, by the products over another one: both elements are changed to
/// that basis, multiplied there, and the product is changed back.
///
/// Want of memory is the only error, since no step passes the room of numbers. The norms of the changes and of
/// the product, in bits for each degree, add to at most 5.
pub fn product_by_change<A: Change<B>, B: Algebra + Change<A>>(
    alloc: Global,
    left: &Code,
    right: &Code,
) -> Result<Combo, OutOfMemory>
    requires left { IsIndexWithin A.basis left.now }
    requires right { IsIndexWithin A.basis right.now }
    requires degree { degree_of A.basis left.now + degree_of A.basis right.now ≤ limit_for A.basis }
    requires limits { limit_for A.basis ≤ limit_for B.basis }
    requires growth { A.change_growth + B.product_growth + B.change_growth ≤ 5 }
    ensures { IfOk result (IsAnswerWithin (A.change_growth + B.product_growth + B.change_growth) (A.basis ∷ []) (degree_of A.basis left.now + degree_of A.basis right.now)
        (product (element A.basis left.now) (element A.basis right.now))) }
{
    let left = A::change(alloc, left)?;
    let right = A::change(alloc, right)?;
    let pairs = tensor(alloc, &left, &right)?;
    let whole = multiply_components::<B>(alloc, &pairs, 1)?;
    change_component::<B, A>(alloc, &whole, 1)
}
