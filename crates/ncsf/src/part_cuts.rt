//! Compositions cut part by part: the coproduct of a complete or an elementary function.
ghost use Rattle.std.specs.Prelude.{◌≡◌, ◌+◌, ◌≤◌, [], ◌∷◌, ◌++◌, map, OnOk, IfOk};
ghost use Rattle.std.specs.List.{All};
ghost use Rattle.compositions.specs.Sizes.{IsSmallComposition};
ghost use Rattle.coproduct_laws.specs.Coproducts.{terms_of_pairs};
ghost use Rattle.coproduct_rules.specs.PartCuts.{part_cuts as cuts_of_parts};
ghost use Rattle.linear_combos.specs.Combos.{IsSumOfTerms};
ghost use Rattle.ncsf.specs.PairLists.{CanGrowBy, with_parts, with_part_cut as pairs_with_part};

use crate::pairs::{part_before, sum_of_tensors};
use hopf_num::OutOfMemory;
use linear_combos::{Code, Combo};
use std::alloc::Global;

// Adds the pairs, each with one part more in front of either.
fn push_with_parts(
    longer: &mut Vec<(Code, Code)>,
    left: u8,
    right: u8,
    pairs: &Vec<(Code, Code)>,
) -> Result<(), OutOfMemory>
    requires { All (CanGrowBy (left + right)) pairs.now.items }
    ensures { OnOk result (longer.new.items ≡ longer.old.items ++ map (λ e. with_parts left right e) pairs.now.items) }
{
    for at in 0..pairs.len() {
        let pair = pairs[at];
        longer.push((part_before(left, &pair.0), part_before(right, &pair.1)))?;
    }
    Ok(())
}

// The pairs with one part more in front, cut in all ways.
fn with_part_cut(
    alloc: Global,
    part: u8,
    pairs: &Vec<(Code, Code)>,
) -> Result<Vec<(Code, Code)>, OutOfMemory>
    requires small { part ≤ 12 }
    requires room { All (CanGrowBy part) pairs.now.items }
    ensures { IfOk result (λ longer. longer.items ≡ pairs_with_part part pairs.now.items) }
{
    let mut longer = Vec::new(alloc);
    for left in 0..part + 1 {
        push_with_parts(&mut longer, left, part - left, pairs)?;
    }
    Ok(longer)
}

// The pair of empty compositions alone.
pub(crate) fn empty_pair(alloc: Global) -> Result<Vec<(Code, Code)>, OutOfMemory>
    ensures { IfOk result (λ pairs. pairs.items ≡ ([], []) ∷ []) }
{
    let mut pairs = Vec::new(alloc);
    pairs.push((Code::empty(), Code::empty()))?;
    Ok(pairs)
}

// The cuts of a composition part by part, each part in all ways.
fn part_cuts(alloc: Global, parts: &Code) -> Result<Vec<(Code, Code)>, OutOfMemory>
    requires { IsSmallComposition parts.now }
    ensures { IfOk result (λ pairs. pairs.items ≡ cuts_of_parts parts.now) }
{
    if parts.len() == 0 {
        return empty_pair(alloc);
    }
    let behind = parts.suffix(1);
    let pairs = part_cuts(alloc, &behind)?;
    with_part_cut(alloc, parts.letter(0), &pairs)
}

// The tensors of the cuts of a composition part by part.
pub(crate) fn cuts_by_parts(alloc: Global, parts: &Code) -> Result<Combo, OutOfMemory>
    requires { IsSmallComposition parts.now }
    ensures { IfOk result (IsSumOfTerms 2 (terms_of_pairs (cuts_of_parts parts.now))) }
{
    let pairs = part_cuts(alloc, parts)?;
    sum_of_tensors(alloc, &pairs)
}
