//! The packed words of a length.
ghost use Rattle.std.specs.Prelude.{◌≡◌, ◌≤◌, [], ◌+◌, IfOk};
ghost use Rattle.linear_combos.specs.CodeLists.{ListsIndices};
ghost use Rattle.realisations.specs.IndexKinds.{by_packed_word};
ghost use Rattle.word_laws.specs.AddedCodes.{AddsEach};
ghost use Rattle.packed_words.specs.Sizes.{IsPackedWordOf};

use crate::merging::push_merges;
use hopf_num::OutOfMemory;
use linear_combos::{Code, Codes};
use std::alloc::Global;

// The packed words of n + 1 letters, from those of n: those whose letters behind the first one have one
// of them as their packing.
fn grown(alloc: Global, n: u8, codes: &Codes) -> Result<Codes, OutOfMemory>
    requires few { n ≤ 7 }
    requires all { AddsEach (IsPackedWordOf n) [] codes.now }
    ensures { IfOk result (AddsEach (IsPackedWordOf (n + 1)) []) }
{
    let mut longer = Codes::new(alloc);
    let first = Code::empty().with(1);
    for at in 0..codes.len() {
        push_merges(&mut longer, 0, &first, codes.at(at))?;
    }
    Ok(longer)
}

/// The packed words of n letters, each once, in canonical order. The cost grows with their number and its
/// logarithm, for the order.
pub fn list(alloc: Global, n: u32) -> Result<Codes, OutOfMemory>
    requires { n ≤ 8 }
    ensures { IfOk result (ListsIndices by_packed_word n) }
{
    let mut codes = Codes::new(alloc);
    codes.push(Code::empty())?;
    for size in 0..n as u8 {
        codes = grown(alloc, size, &codes)?;
    }
    codes.sort();
    Ok(codes)
}
