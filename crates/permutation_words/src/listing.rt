//! The permutations of a size.
ghost use Rattle.std.specs.Prelude.{◌≡◌, ◌≤◌, [], ◌+◌, IfOk};
ghost use Rattle.linear_combos.specs.CodeLists.{ListsIndices};
ghost use Rattle.realisations.specs.IndexKinds.{by_permutation};
ghost use Rattle.word_laws.specs.AddedCodes.{AddsEach};
ghost use Rattle.permutation_words.specs.Sizes.{IsPermutationOf};

use crate::convolving::push_convolutions;
use hopf_num::OutOfMemory;
use linear_combos::{Code, Codes};
use std::alloc::Global;

// The permutations of n + 1, from those of n: those whose letters behind the first one have one of
// them as their standardisation.
fn grown(alloc: Global, n: u8, codes: &Codes) -> Result<Codes, OutOfMemory>
    requires few { n ≤ 7 }
    requires all { AddsEach (IsPermutationOf n) [] codes.now }
    ensures { IfOk result (AddsEach (IsPermutationOf (n + 1)) []) }
{
    let mut longer = Codes::new(alloc);
    let first = Code::empty().with(1);
    for at in 0..codes.len() {
        push_convolutions(&mut longer, 0, &first, codes.at(at))?;
    }
    Ok(longer)
}

/// The permutations of n, each once, in canonical order. The cost grows with their number and its
/// logarithm, for the order.
pub fn list(alloc: Global, n: u32) -> Result<Codes, OutOfMemory>
    requires { n ≤ 8 }
    ensures { IfOk result (ListsIndices by_permutation n) }
{
    let mut codes = Codes::new(alloc);
    codes.push(Code::empty())?;
    for size in 0..n as u8 {
        codes = grown(alloc, size, &codes)?;
    }
    codes.sort();
    Ok(codes)
}
