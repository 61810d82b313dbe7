//! The antipode by recursion over the coproduct (Takeuchi 1971).
ghost use Rattle.std.specs.Prelude.{◌≡◌, ◌+◌, ◌<◌, ◌≤◌, [], length, IfOk, OnOk};
ghost use Rattle.antipode_laws.specs.Recursion.{IsAntipodeOf};
ghost use Rattle.antipodes.specs.Subtracting.{AreSubtracted, AreTurned, IsCoproduct};
ghost use Rattle.index_rules.specs.Spaces.{IsIndexWithin};
ghost use Rattle.realisations.specs.Indices.{degree_of};
ghost use Rattle.realisations.specs.Lists.{same_list};

use crate::bases::Antipode;
use crate::memo::Memo;
use crate::subtracting::subtract_followed;
use hopf_num::OutOfMemory;
use index_rules::multiply_components;
use linear_combos::{Code, Combo, ComboBuilder, Key};
use std::alloc::Global;

// Whether a code is that of the empty index.
fn is_empty(code: &Code) -> bool
    ensures { result ≡ same_list code.now [] }
{
    code.len() == 0
}

// Takes the antipode of the first code of one term, followed by the second code, away, unless that is empty.
#[cycle(antipode)]
fn subtract_term<A: Antipode>(
    alloc: Global,
    out: &mut ComboBuilder,
    code: &Code,
    pairs: &Combo,
    at: usize,
    memo: &mut Memo,
) -> Result<(), OutOfMemory>
    requires of { IsCoproduct A.basis A.coproduct_growth code.now pairs.now }
    requires in_range { at < length pairs.now.terms }
    requires so_far { AreSubtracted A.basis code.now pairs.now.terms at out.old }
    ensures { OnOk result (AreSubtracted A.basis code.now pairs.now.terms (at + 1) out.new) }
{
    let key = pairs.key_at(at);
    let second = key.code(2);
    if is_empty(second) {
        return Ok(());
    }
    let first = antipode::<A>(alloc, key.code(1), memo)?;
    subtract_followed(out, pairs.num_at(at), &first, second)
}

// Takes them away for all terms.
#[cycle(antipode)]
fn subtract_terms<A: Antipode>(
    alloc: Global,
    out: &mut ComboBuilder,
    code: &Code,
    pairs: &Combo,
    memo: &mut Memo,
) -> Result<(), OutOfMemory>
    requires of { IsCoproduct A.basis A.coproduct_growth code.now pairs.now }
    requires none { AreSubtracted A.basis code.now pairs.now.terms 0 out.old }
    ensures { OnOk result (AreSubtracted A.basis code.now pairs.now.terms (length pairs.now.terms) out.new) }
{
    for at in 0..pairs.len() {
        subtract_term::<A>(alloc, out, code, pairs, at, memo)?;
    }
    Ok(())
}

// Minus the coproduct of an index other than the empty one, with antipodes in its first component and without
// the term whose second code is empty.
#[cycle(antipode)]
fn turned<A: Antipode>(
    alloc: Global,
    code: &Code,
    pairs: &Combo,
    memo: &mut Memo,
) -> Result<Combo, OutOfMemory>
    requires { IsCoproduct A.basis A.coproduct_growth code.now pairs.now }
    ensures { IfOk result (AreTurned A.basis A.coproduct_growth code.now pairs.now.terms) }
{
    let mut out = ComboBuilder::new(alloc, 2);
    subtract_terms::<A>(alloc, &mut out, code, pairs, memo)?;
    Ok(out.finish())
}

// The antipode of an index other than the empty one.
#[cycle(antipode)]
fn by_recursion<A: Antipode>(
    alloc: Global,
    code: &Code,
    memo: &mut Memo,
) -> Result<Combo, OutOfMemory>
    requires index { IsIndexWithin A.basis code.now }
    requires positive { 1 ≤ degree_of A.basis code.now }
    ensures { IfOk result (IsAntipodeOf A.basis code.now) }
{
    let pairs = A::coproduct(alloc, code)?;
    let turned = turned::<A>(alloc, code, &pairs, memo)?;
    multiply_components::<A>(alloc, &turned, 1)
}

/// The antipode of an element of a basis, by recursion over the coproduct (Takeuchi 1971): that of the empty
/// index is its element, and every other one is minus the sum, over the terms of its coproduct whose second
/// code is not empty, of the antipode of the first code times the second.
///
/// Antipodes of first codes are looked up in the memo, and kept there once they are found. Want of memory is
/// the only error. The cost is that of the coproduct, and of the product of each pair of a term of an antipode
/// and a second code, once for each index that is met.
#[cycle(antipode)]
pub fn antipode<A: Antipode>(
    alloc: Global,
    code: &Code,
    memo: &mut Memo,
) -> Result<Combo, OutOfMemory>
    requires { IsIndexWithin A.basis code.now }
    ensures { IfOk result (IsAntipodeOf A.basis code.now) }
{
    if is_empty(code) {
        return Combo::term(alloc, 1, Key::one(*code));
    }
    if let Some(known) = memo.find(A::basis(), code) {
        return known.copy(alloc);
    }
    let found = by_recursion::<A>(alloc, code, memo)?;
    memo.keep(A::basis(), code, found.copy(alloc)?)?;
    Ok(found)
}
