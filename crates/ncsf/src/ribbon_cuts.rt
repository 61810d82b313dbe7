//! The pairs of ribbons in the coproduct of a ribbon.
//!
//! They are those of J and K for each word of low and of high letters whose descent composition is that of
//! the ribbon, J of its low letters and K of its high ones (Malvenuto, Reutenauer 1995), as far as such words
//! differ in their descents and in the places of their low letters. The words are built letter by letter from
//! the last one.
ghost use Rattle.std.specs.Prelude.{◌≡◌, ◌+◌, ◌≤◌, [], ◌++◌, map, sum, OnOk, IfOk};
ghost use Rattle.std.specs.List.{All};
ghost use Rattle.compositions.specs.Sizes.{IsSmallComposition};
ghost use Rattle.coproduct_laws.specs.Coproducts.{terms_of_pairs};
ghost use Rattle.linear_combos.specs.Combos.{IsSumOfTerms};
ghost use Rattle.ncsf.specs.PairLists.{CanGrowBy, SidesGrowBy, with_letter as composition_with_letter, before_own, before_other, with_side_letter as side_with_letter, with_first_letter as sides_with_letter, with_letters as sides_with_letters, sides_of as sides_of_parts, ribbon_pairs as pairs_of_ribbon};
ghost use Rattle.realisations.specs.IndexKinds.{IsComposition};
ghost use Rattle.realisations.specs.Pairings.{longer_compositions};

use crate::pairs::{part_before, sum_of_tensors};
use crate::part_cuts::empty_pair;
use hopf_num::OutOfMemory;
use linear_combos::{Code, Combo};
use std::alloc::Global;
use std::marker::Model;

// Pairs for the words that begin with a low letter, and for those that begin with a high one. In a pair the composition
// of the letters of that kind comes first.
#[derive(Drop)]
struct Sides {
    low: Vec<(Code, Code)>,
    high: Vec<(Code, Code)>,
}

impl Model for Sides {
    ghost use Rattle.ncsf.specs.PairLists.{Sides as SidesOf};

    ghost Value = { SidesOf };

    ghost view = { λ s. record { low = s.low.items; high = s.high.items } };
}

// A composition with one letter more in front, which falls to the next one or not.
fn with_letter(falls: bool, parts: &Code) -> Code
    requires composition { IsComposition parts.now }
    requires small { sum parts.now + 1 ≤ 12 }
    ensures { result ≡ composition_with_letter falls parts.now }
{
    if falls || parts.len() == 0 {
        return part_before(1, parts);
    }
    let behind = parts.suffix(1);
    part_before(parts.letter(0) + 1, &behind)
}

// Adds the pairs with a letter before one of its own kind.
fn push_before_own(
    longer: &mut Vec<(Code, Code)>,
    falls: bool,
    own: &Vec<(Code, Code)>,
) -> Result<(), OutOfMemory>
    requires { All (CanGrowBy 1) own.now.items }
    ensures { OnOk result (longer.new.items ≡ longer.old.items ++ before_own falls own.now.items) }
{
    for at in 0..own.len() {
        let pair = own[at];
        longer.push((with_letter(falls, &pair.0), pair.1))?;
    }
    Ok(())
}

// Adds the pairs of a composition with one letter more in front, in both ways, and another composition.
fn push_both_ways(
    longer: &mut Vec<(Code, Code)>,
    parts: &Code,
    other: Code,
) -> Result<(), OutOfMemory>
    requires composition { IsComposition parts.now }
    requires small { sum parts.now + 1 ≤ 12 }
    ensures { OnOk result (longer.new.items ≡ longer.old.items ++ map (λ ps. (ps, other)) (longer_compositions parts.now)) }
{
    longer.push((part_before(1, parts), other))?;
    if parts.len() > 0 {
        longer.push((with_letter(false, parts), other))?;
    }
    Ok(())
}

// Adds the pairs with a letter before one of the other kind.
fn push_before_other(
    longer: &mut Vec<(Code, Code)>,
    other: &Vec<(Code, Code)>,
) -> Result<(), OutOfMemory>
    requires { All (CanGrowBy 1) other.now.items }
    ensures { OnOk result (longer.new.items ≡ longer.old.items ++ before_other other.now.items) }
{
    for at in 0..other.len() {
        let pair = other[at];
        push_both_ways(longer, &pair.1, pair.0)?;
    }
    Ok(())
}

// The pairs with a letter of one kind in front, which may stand before the other kind or not.
fn with_side_letter(
    alloc: Global,
    falls: bool,
    crosses: bool,
    own: &Vec<(Code, Code)>,
    other: &Vec<(Code, Code)>,
) -> Result<Vec<(Code, Code)>, OutOfMemory>
    requires own { All (CanGrowBy 1) own.now.items }
    requires other { All (CanGrowBy 1) other.now.items }
    ensures { IfOk result (λ longer. longer.items ≡ side_with_letter falls crosses own.now.items other.now.items) }
{
    let mut longer = Vec::new(alloc);
    push_before_own(&mut longer, falls, own)?;
    if crosses {
        push_before_other(&mut longer, other)?;
    }
    Ok(longer)
}

// One letter more in front, which falls to the next one or not.
fn with_first_letter(alloc: Global, falls: bool, sides: &Sides) -> Result<Sides, OutOfMemory>
    requires { SidesGrowBy 1 sides.now }
    ensures { IfOk result (λ longer. longer ≡ sides_with_letter falls sides.now) }
{
    let low = with_side_letter(alloc, falls, !falls, &sides.low, &sides.high)?;
    let high = with_side_letter(alloc, falls, falls, &sides.high, &sides.low)?;
    Ok(Sides { low, high })
}

// Some letters more in front, none of which falls.
fn with_letters(alloc: Global, count: usize, sides: Sides) -> Result<Sides, OutOfMemory>
    requires { SidesGrowBy count sides }
    ensures { IfOk result (λ longer. longer ≡ sides_with_letters count sides) }
{
    let mut longer = sides;
    for _ in 0..count {
        longer = with_first_letter(alloc, false, &longer)?;
    }
    Ok(longer)
}

// The pairs for the empty word, as if a letter that no other one falls to stood behind it.
fn empty_sides(alloc: Global) -> Result<Sides, OutOfMemory>
    ensures { IfOk result (λ sides. sides ≡ sides_of_parts []) }
{
    let high = empty_pair(alloc)?;
    let low = Vec::new(alloc);
    Ok(Sides { low, high })
}

// The pairs for the words with a descent composition.
fn sides_of(alloc: Global, parts: &Code) -> Result<Sides, OutOfMemory>
    requires { IsSmallComposition parts.now }
    ensures { IfOk result (λ sides. sides ≡ sides_of_parts parts.now) }
{
    if parts.len() == 0 {
        return empty_sides(alloc);
    }
    let behind = parts.suffix(1);
    let rest = sides_of(alloc, &behind)?;
    let last = with_first_letter(alloc, behind.len() > 0, &rest)?;
    with_letters(alloc, usize::from(parts.letter(0)) - 1, last)
}

// Adds the pairs, the second composition first.
fn push_turned(longer: &mut Vec<(Code, Code)>, pairs: &Vec<(Code, Code)>) -> Result<(), OutOfMemory>
    ensures { OnOk result (longer.new.items ≡ longer.old.items ++ map (λ e. (e.1, e.0)) pairs.now.items) }
{
    for at in 0..pairs.len() {
        let pair = pairs[at];
        longer.push((pair.1, pair.0))?;
    }
    Ok(())
}

// The pairs of ribbons in the coproduct of a ribbon, each as often as it is in it.
fn ribbon_pairs(alloc: Global, parts: &Code) -> Result<Vec<(Code, Code)>, OutOfMemory>
    requires { IsSmallComposition parts.now }
    ensures { IfOk result (λ pairs. pairs.items ≡ pairs_of_ribbon parts.now) }
{
    let Sides { low, high } = sides_of(alloc, parts)?;
    let mut pairs = low;
    push_turned(&mut pairs, &high)?;
    Ok(pairs)
}

// The tensors of the pairs of ribbons in the coproduct of a ribbon.
pub(crate) fn ribbon_cuts(alloc: Global, parts: &Code) -> Result<Combo, OutOfMemory>
    requires { IsSmallComposition parts.now }
    ensures { IfOk result (IsSumOfTerms 2 (terms_of_pairs (pairs_of_ribbon parts.now))) }
{
    let pairs = ribbon_pairs(alloc, parts)?;
    sum_of_tensors(alloc, &pairs)
}
