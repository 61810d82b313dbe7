//! The packed words whose front and back have given packings.
ghost use Rattle.std.specs.Prelude.{◌≡◌, ◌+◌, ◌≤◌, length, OnOk, IfOk};
ghost use Rattle.linear_combos.specs.CodeLists.{ListsEach};
ghost use Rattle.word_laws.specs.AddedCodes.{AddsEach};
ghost use Rattle.word_laws.specs.Merges.{IsMerge, IsMergeFront, IsMergePast};

use crate::PackedWord;
use hopf_num::OutOfMemory;
use linear_combos::{Code, Codes};
use permutation_words::{greatest_letter, raise_letters_past};
use std::alloc::Global;

// Adds the packed words that are the words u and v, both spread past n: the letter n + 1 is in the
// front, in the back or in both. It recurs once for each front of a choice.
pub(crate) fn push_merges(out: &mut Codes, n: u8, u: &Code, v: &Code) -> Result<(), OutOfMemory>
    requires { IsMergeFront n u.now v.now }
    ensures { OnOk result (AddsEach (IsMergePast n u.now v.now) out.old out.new) }
{
    if greatest_letter(u) <= n || greatest_letter(v) <= n {
        return out.push(u.followed_by(v));
    }
    let later = raise_letters_past(n, v);
    push_merges(out, n + 1, u, &later)?;
    let more = raise_letters_past(n, u);
    push_merges(out, n + 1, &more, v)?;
    push_merges(out, n + 1, u, v)
}

/// The packed words u'v' with pack(u') = a and pack(v') = b, each once, in canonical order (Hivert 1999).
///
/// The cost grows with their number, that of the quasi-shuffles of two words of as many letters as a and
/// b have distinct ones, and its logarithm, for the order.
pub fn merge_all(alloc: Global, a: &PackedWord, b: &PackedWord) -> Result<Codes, OutOfMemory>
    requires { length a.now + length b.now ≤ 12 }
    ensures { IfOk result (ListsEach (IsMerge a.now b.now)) }
{
    let mut codes = Codes::new(alloc);
    push_merges(&mut codes, 0, a.code(), b.code())?;
    codes.sort();
    Ok(codes)
}
