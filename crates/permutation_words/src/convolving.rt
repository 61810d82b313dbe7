//! The convolution of permutations.
ghost use Rattle.std.specs.Prelude.{◌≡◌, ◌+◌, ◌≤◌, length, OnOk, IfOk};
ghost use Rattle.linear_combos.specs.CodeLists.{ListsEach};
ghost use Rattle.word_laws.specs.AddedCodes.{AddsEach};
ghost use Rattle.word_laws.specs.Merges.{IsConvolution, IsConvolutionFront, IsConvolutionPast};
ghost use Rattle.permutation_words.specs.Sizes.{IsSmallPermutation};

use crate::Permutation;
use crate::letters::{greatest_letter, raise_letters_past};
use hopf_num::OutOfMemory;
use linear_combos::{Code, Codes};
use std::alloc::Global;

// Adds the permutations that are the words u and v, both spread past n: the letter n + 1 is in the
// front or in the back. It recurs once for each front of a choice.
pub(crate) fn push_convolutions(
    out: &mut Codes,
    n: u8,
    u: &Code,
    v: &Code,
) -> Result<(), OutOfMemory>
    requires { IsConvolutionFront n u.now v.now }
    ensures { OnOk result (AddsEach (IsConvolutionPast n u.now v.now) out.old out.new) }
{
    if greatest_letter(u) <= n || greatest_letter(v) <= n {
        return out.push(u.followed_by(v));
    }
    let later = raise_letters_past(n, v);
    push_convolutions(out, n + 1, u, &later)?;
    let more = raise_letters_past(n, u);
    push_convolutions(out, n + 1, &more, v)
}

/// The permutations uv with Std(u) = a and Std(v) = b, each once, in canonical order (Malvenuto,
/// Reutenauer 1995).
///
/// The cost grows with their number, the binomial coefficient of both sizes together over the first,
/// and its logarithm, for the order.
pub fn convolution(alloc: Global, a: &Permutation, b: &Permutation) -> Result<Codes, OutOfMemory>
    requires { length a.now + length b.now ≤ 12 }
    ensures { IfOk result (ListsEach (IsConvolution a.now b.now)) }
{
    let mut codes = Codes::new(alloc);
    push_convolutions(&mut codes, 0, a.code(), b.code())?;
    codes.sort();
    Ok(codes)
}
