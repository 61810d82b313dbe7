//! Sums of basis elements, each once, with signs: the answer of a change between two bases that are
//! triangular in one another.
ghost use Rattle.std.specs.Prelude.{◌≡◌, ◌-◌, ◌+◌, ◌<◌, pos, length, OnOk, IfOk};
ghost use Rattle.realisations.specs.Lists.{with_sign};
ghost use Rattle.change_laws.specs.Changes.{signed_terms};
ghost use Rattle.linear_combos.specs.Combos.{IsSumOfTerms};
ghost use Rattle.index_rules.specs.PushedTerms.{HoldsFirst};
ghost use Rattle.index_rules.specs.SignedSums.{distance as apart, signs_of};

use hopf_num::OutOfMemory;
use linear_combos::{Code, Codes, Combo, ComboBuilder, Key};
use std::alloc::Global;

/// The signs of a sum over codes.
#[derive(Clone, Copy)]
pub enum Signs {
    /// None.
    Plus,
    /// (-1)^k for a code that is k letters longer or shorter than this length.
    ByLength(usize),
}

// How far two numbers are apart.
fn distance(a: usize, b: usize) -> usize
    ensures { result ≡ apart a b }
{
    if a < b { b - a } else { a - b }
}

// (-1)^k.
fn sign(k: usize) -> i128
    ensures { result ≡ with_sign k (pos 1) }
{
    if k % 2 == 0 { 1 } else { -1 }
}

// How many signs a code has.
fn signs_at(signs: Signs, code: &Code) -> usize
    ensures { result ≡ signs_of signs code.now }
{
    match signs {
        Signs::Plus => 0,
        Signs::ByLength(len) => distance(code.len(), len),
    }
}

// Pushes the codes, each with its sign.
fn push_signed(out: &mut ComboBuilder, codes: &Codes, signs: Signs) -> Result<(), OutOfMemory>
    requires rank { out.old.rank ≡ 1 }
    requires none { HoldsFirst (signed_terms (signs_of signs) codes.now) 0 out.old }
    ensures pushes { OnOk result (HoldsFirst (signed_terms (signs_of signs) codes.now) (length codes.now) out.new) }
    ensures same_rank { out.new.rank ≡ 1 }
{
    for at in 0..codes.len() {
        let code = codes.at(at);
        out.push(sign(signs_at(signs, code)), Key::one(*code))?;
    }
    Ok(())
}

/// The sum of the elements of these codes, each with its sign.
///
/// Want of memory is the only error. The cost is that of a sort; codes in order are not sorted.
pub fn signed_sum(alloc: Global, codes: &Codes, signs: Signs) -> Result<Combo, OutOfMemory>
    ensures { IfOk result (IsSumOfTerms 1 (signed_terms (signs_of signs) codes.now)) }
{
    let mut out = ComboBuilder::new(alloc, 1);
    push_signed(&mut out, codes, signs)?;
    Ok(out.finish())
}
