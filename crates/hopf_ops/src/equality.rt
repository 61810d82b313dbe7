//! Whether two values are equal.
ghost use Rattle.std.specs.Prelude.{◌≡◌, ◌⊎◌, ◌↔◌, IsTrue, max, Err};
ghost use Rattle.hopf_laws.specs.Values.{degree_of_value};
ghost use Rattle.hopf_ops.specs.Answers.{AreTargets};
ghost use Rattle.hopf_ops.specs.Operations.{BothBrought, EqualAfter, EqualRow};

use crate::common::{common_bases_of_sum, made_or_given};
use basis_routes::{Bases, Refusal, Value, converted_operand};
use linear_combos::Combo;
use std::alloc::Global;

/// Whether two values are equal: they agree at all tuples of points, whatever bases they are over.
///
/// Its checks, in order: the ranks are equal (`Rank`), each two components have a join (`Mixed`), and the
/// greater degree is within the least limit of the joins (`Degree`). Then each operand is brought to the
/// joins as for a sum, the first operand before the second, each conversion where it has room
/// (`TooLarge`). Over one list of bases equal values have equal terms. The cost is that of the
/// conversions, and one pass over the terms; an operand over the joins is not copied.
pub fn equal(alloc: Global, a: &Value, b: &Value) -> Result<bool, Refusal>
    ensures { (result ≡ Err Refusal.Memory) ⊎ EqualRow a.now b.now result }
{
    let targets = common_bases_of_sum(a, b)?;
    equal_over(alloc, a, b, &targets)
}

// The same over these bases, to which both operands are brought.
fn equal_over(alloc: Global, a: &Value, b: &Value, targets: &Bases) -> Result<bool, Refusal>
    requires { AreTargets targets.now (max (degree_of_value a.now) (degree_of_value b.now)) a.now b.now }
    ensures { (result ≡ Err Refusal.Memory) ⊎ EqualAfter (BothBrought targets.now a.now b.now) targets.now a.now b.now result }
{
    let x = converted_operand(alloc, a, targets)?;
    let y = converted_operand(alloc, b, targets)?;
    Ok(are_same(made_or_given(&x, a), made_or_given(&y, b)))
}

// Whether two values over the same bases are equal.
fn are_same(a: &Value, b: &Value) -> bool
    requires { a.now.bases ≡ b.now.bases }
    ensures { IsTrue result ↔ a.now ≡ b.now }
{
    Combo::same(a.combo(), b.combo())
}
