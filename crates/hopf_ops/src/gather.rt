//! The product of two combinations over the same bases, gathered from the products of their keys.
ghost use Rattle.std.specs.Prelude.{◌≡◌, ◌+◌, ◌*◌, ◌*ℤ◌, ◌^◌, ◌<◌, ◌≤◌, length, drop, unsigned_abs, IfOk, OnOk};
ghost use Rattle.realisations.specs.Combinations.{IsCanonical, norm_of};
ghost use Rattle.linear_combos.specs.Combos.{IsTensor};
ghost use Rattle.hopf_laws.specs.Bases.{AreBuilt, least_limit};
ghost use Rattle.hopf_laws.specs.Values.{greatest_degree};
ghost use Rattle.hopf_ops.specs.Gathering.{IsOfIndices, IsGathered, AreFactors, AreFactorKeys, IsProductOfKeys, AreGathered, AddsMultiple};

use basis_routes::{Bases, product_of};
use hopf_num::{OutOfMemory, product};
use linear_combos::{Combo, ComboBuilder, ComboFault, Key};
use std::alloc::Global;

// The product of two combinations over the same bases, without their denominators: each two terms'
// keys are multiplied once, and the terms gathered. The cost is that of these products of keys, and of
// sorting their terms.
pub(crate) fn gathered_products(
    alloc: Global,
    bases: &Bases,
    a: &Combo,
    b: &Combo,
) -> Result<Combo, OutOfMemory>
    requires some { 1 ≤ length bases.now }
    requires built { AreBuilt bases.now }
    requires left { IsOfIndices bases.now a.now }
    requires right { IsOfIndices bases.now b.now }
    requires degree { greatest_degree bases.now a.now.terms + greatest_degree bases.now b.now.terms ≤ least_limit bases.now }
    requires room { norm_of a.now.terms * norm_of b.now.terms * 2 ^ (5 * (greatest_degree bases.now a.now.terms + greatest_degree bases.now b.now.terms)) < 2 ^ 127 }
    ensures { IfOk result (IsGathered bases.now (greatest_degree bases.now a.now.terms + greatest_degree bases.now b.now.terms) a.now b.now) }
{
    let mut out = ComboBuilder::new(alloc, bases.len());
    add_products(alloc, &mut out, bases, a, b)?;
    Ok(out.finish())
}

// Adds the products of each term of the first combination with each term of the second.
fn add_products(
    alloc: Global,
    out: &mut ComboBuilder,
    bases: &Bases,
    a: &Combo,
    b: &Combo,
) -> Result<(), OutOfMemory>
    requires factors { AreFactors bases.now a.now b.now }
    requires gathered { AreGathered bases.now a.now.terms b.now.terms 0 0 out.old }
    ensures { OnOk result (AreGathered bases.now a.now.terms b.now.terms (length a.now.terms) 0 out.new) }
{
    for left in 0..a.len() {
        add_row(alloc, out, bases, a, left, b)?;
    }
    Ok(())
}

// Adds the products of one term with each term of the second combination.
fn add_row(
    alloc: Global,
    out: &mut ComboBuilder,
    bases: &Bases,
    a: &Combo,
    left: usize,
    b: &Combo,
) -> Result<(), OutOfMemory>
    requires factors { AreFactors bases.now a.now b.now }
    requires in_left { left < length a.now.terms }
    requires gathered { AreGathered bases.now a.now.terms b.now.terms left 0 out.old }
    ensures { OnOk result (AreGathered bases.now a.now.terms b.now.terms (left + 1) 0 out.new) }
{
    for right in 0..b.len() {
        add_product(alloc, out, bases, a, left, b, right)?;
    }
    Ok(())
}

// Adds the product of a term of each combination.
fn add_product(
    alloc: Global,
    out: &mut ComboBuilder,
    bases: &Bases,
    a: &Combo,
    left: usize,
    b: &Combo,
    right: usize,
) -> Result<(), OutOfMemory>
    requires factors { AreFactors bases.now a.now b.now }
    requires in_left { left < length a.now.terms }
    requires in_right { right < length b.now.terms }
    requires gathered { AreGathered bases.now a.now.terms b.now.terms left right out.old }
    ensures { OnOk result (AreGathered bases.now a.now.terms b.now.terms left (right + 1) out.new) }
{
    let num = times(a.num_at(left), b.num_at(right));
    let product = product_of_keys(alloc, bases, a.key_at(left), b.key_at(right))?;
    push_multiple(out, num, &product)
}

// Adds a multiple of a combination, both over 1, where there is room.
fn push_multiple(out: &mut ComboBuilder, num: i128, by: &Combo) -> Result<(), OutOfMemory>
    requires rank { by.now.rank ≡ out.old.rank }
    requires room { norm_of out.old.terms + unsigned_abs num * norm_of by.now.terms < 2 ^ 127 }
    ensures { OnOk result (AddsMultiple out.old num by.now.terms (length by.now.terms) out.new) }
{
    for at in 0..by.len() {
        let multiple = times(num, by.num_at(at));
        out.push(multiple, *by.key_at(at))?;
    }
    Ok(())
}

// The product of two numerators that has room.
pub(crate) fn times(left: i128, right: i128) -> i128
    requires { unsigned_abs (left *ℤ right) < 2 ^ 127 }
    ensures { result ≡ left *ℤ right }
{
    product(left, right)
}

// The product of the basis elements of two keys, component by component.
fn product_of_keys(
    alloc: Global,
    bases: &Bases,
    left: &Key,
    right: &Key,
) -> Result<Combo, OutOfMemory>
    requires some { 1 ≤ length bases.now }
    requires keys { AreFactorKeys bases.now left.now right.now }
    ensures { IfOk result (IsProductOfKeys bases.now left.now right.now) }
{
    product_behind(alloc, bases, left, right, 0)
}

// The same for the components that are left once the first ones are skipped.
fn product_behind(
    alloc: Global,
    bases: &Bases,
    left: &Key,
    right: &Key,
    skipped: u32,
) -> Result<Combo, OutOfMemory>
    requires more { skipped < length bases.now }
    requires keys { AreFactorKeys (drop skipped bases.now) (drop skipped left.now) (drop skipped right.now) }
    ensures { IfOk result (IsProductOfKeys (drop skipped bases.now) (drop skipped left.now) (drop skipped right.now)) }
{
    let rank = bases.len();
    let component = skipped + 1;
    let first = product_of(
        alloc,
        bases.at(component),
        left.code(component),
        right.code(component),
    )?;
    if component == rank {
        return Ok(first);
    }
    let others = product_behind(alloc, bases, left, right, component)?;
    tensor_with_room(alloc, &first, &others)
}

// The tensor product of two combinations, where it has room: want of memory is then its only fault.
fn tensor_with_room(alloc: Global, a: &Combo, b: &Combo) -> Result<Combo, OutOfMemory>
    requires rank { a.now.rank + b.now.rank ≤ 3 }
    requires dens { a.now.den * b.now.den < 2 ^ 127 }
    requires norms { norm_of a.now.terms * norm_of b.now.terms < 2 ^ 127 }
    ensures { IfOk result (λ c. IsCanonical c.rank c.den c.terms × IsTensor a.now b.now c) }
{
    match Combo::tensor(alloc, a, b) {
        Ok(tensor) => Ok(tensor),
        Err(ComboFault::Memory) => Err(OutOfMemory),
        Err(ComboFault::TooLarge(_)) => unreachable!(),
    }
}
