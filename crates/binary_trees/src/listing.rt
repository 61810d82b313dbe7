//! The codes of the trees of a size.
ghost use Rattle.std.specs.Prelude.{◌≡◌, ◌+◌, ◌≤◌, [], OnOk, IfOk};
ghost use Rattle.realisations.specs.IndexKinds.{by_tree};
ghost use Rattle.linear_combos.specs.CodeLists.{ListsIndices};
ghost use Rattle.word_laws.specs.AddedCodes.{AddsEach};
ghost use Rattle.binary_trees.specs.Places.{IsLonger, IsShorter};
ghost use Rattle.binary_trees.specs.Sizes.{IsTreeCodeOf};

use crate::codes::is_code_of_tree;
use hopf_num::OutOfMemory;
use linear_combos::{Code, Codes};
use std::alloc::Global;

// Adds the codes of trees that have a letter more before a code of a tree: the letter n + 1 where the
// first n letters are the code of a tree, that of the right subtree of the new first node.
fn push_longer(out: &mut Codes, code: &Code) -> Result<(), OutOfMemory>
    requires { IsShorter code.now }
    ensures { OnOk result (AddsEach (IsLonger code.now) out.old out.new) }
{
    for cut in 0..code.len() + 1 {
        if is_code_of_tree(&code.prefix(cut)) {
            let first = Code::empty().with(cut as u8 + 1);
            out.push(first.followed_by(code))?;
        }
    }
    Ok(())
}

// The codes of the trees of n + 1 nodes, from those of n.
fn grown(alloc: Global, n: u8, codes: &Codes) -> Result<Codes, OutOfMemory>
    requires few { n ≤ 11 }
    requires all { AddsEach (IsTreeCodeOf n) [] codes.now }
    ensures { IfOk result (AddsEach (IsTreeCodeOf (n + 1)) []) }
{
    let mut longer = Codes::new(alloc);
    for at in 0..codes.len() {
        push_longer(&mut longer, codes.at(at))?;
    }
    Ok(longer)
}

/// The codes of the trees of n nodes, each once, in canonical order.
///
/// There are as many as the Catalan number of n, 208,012 for n = 12. The cost grows with their number and
/// its logarithm, for the order.
pub fn list(alloc: Global, n: u32) -> Result<Codes, OutOfMemory>
    requires { n ≤ 12 }
    ensures { IfOk result (ListsIndices by_tree n) }
{
    let mut codes = Codes::new(alloc);
    codes.push(Code::empty())?;
    for size in 0..n as u8 {
        codes = grown(alloc, size, &codes)?;
    }
    codes.sort();
    Ok(codes)
}
