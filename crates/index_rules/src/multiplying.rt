//! The product of two neighbouring components of a combination.
ghost use Rattle.std.specs.Prelude.{◌≡◌, ◌+◌, ◌-◌, ◌<◌, ◌≤◌, length, IfOk, OnOk};
ghost use Rattle.realisations.specs.Combinations.{IsCanonical};
ghost use Rattle.index_rules.specs.Lifting.{AreLifted, IsLiftedWhole};
ghost use Rattle.index_rules.specs.Lifts.{AreMultiplied, CanMultiply, two_codes};

use crate::lifting::{add_replaced, den_of};
use crate::replacing::replaced;
use crate::spaces::Algebra;
use hopf_num::OutOfMemory;
use linear_combos::{Combo, ComboBuilder, Key};
use std::alloc::Global;

// Adds the product of the two codes of one term, put into its key.
fn add_product<A: Algebra>(
    alloc: Global,
    out: &mut ComboBuilder,
    value: &Combo,
    component: u32,
    at: usize,
) -> Result<(), OutOfMemory>
    requires first { 1 ≤ component }
    requires can { CanMultiply A.basis (component - 1) value.now }
    requires canonical { IsCanonical value.now.rank value.now.den value.now.terms }
    requires in_range { at < length value.now.terms }
    requires lifted { AreLifted (two_codes A.basis A.product_growth (component - 1)) (component - 1) (value.now.rank - 1) value.now.terms at out.old }
    ensures { OnOk result (AreLifted (two_codes A.basis A.product_growth (component - 1)) (component - 1) (value.now.rank - 1) value.now.terms (at + 1) out.new) }
{
    let key = value.key_at(at);
    let answer = A::product(alloc, key.code(component), key.code(component + 1))?;
    let shorter = replaced(key, component + 1, &Key::none());
    add_replaced(out, value.num_at(at), &shorter, component, &answer)
}

// Adds the products of all terms.
fn add_products<A: Algebra>(
    alloc: Global,
    out: &mut ComboBuilder,
    value: &Combo,
    component: u32,
) -> Result<(), OutOfMemory>
    requires first { 1 ≤ component }
    requires can { CanMultiply A.basis (component - 1) value.now }
    requires lifted { AreLifted (two_codes A.basis A.product_growth (component - 1)) (component - 1) (value.now.rank - 1) value.now.terms 0 out.old }
    ensures { OnOk result (AreLifted (two_codes A.basis A.product_growth (component - 1)) (component - 1) (value.now.rank - 1) value.now.terms (length value.now.terms) out.new) }
{
    for at in 0..value.len() {
        add_product::<A>(alloc, out, value, component, at)?;
    }
    Ok(())
}

// The products of the numerators of a combination, over 1.
fn multiply_whole<A: Algebra>(
    alloc: Global,
    value: &Combo,
    component: u32,
) -> Result<Combo, OutOfMemory>
    requires first { 1 ≤ component }
    requires can { CanMultiply A.basis (component - 1) value.now }
    ensures { IfOk result (IsLiftedWhole (two_codes A.basis A.product_growth (component - 1)) (component - 1) (value.now.rank - 1) value.now) }
{
    let mut out = ComboBuilder::new(alloc, value.rank() - 1);
    add_products::<A>(alloc, &mut out, value, component)?;
    Ok(out.finish())
}

/// The product of a component, counted from 1, and the next one, of every key, and the terms gathered.
///
/// Want of memory is the only error. The cost is that of the product of each term, and a sort of the terms
/// of all products.
pub fn multiply_components<A: Algebra>(
    alloc: Global,
    value: &Combo,
    component: u32,
) -> Result<Combo, OutOfMemory>
    requires first { 1 ≤ component }
    requires can { CanMultiply A.basis (component - 1) value.now }
    ensures { IfOk result (AreMultiplied A.basis A.product_growth (component - 1) value.now) }
{
    let whole = multiply_whole::<A>(alloc, value, component)?;
    Ok(whole.over(den_of(value)))
}
