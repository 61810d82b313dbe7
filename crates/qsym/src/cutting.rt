//! Compositions cut at each degree: the coproduct of a fundamental quasi-symmetric function.
ghost use Rattle.std.specs.Prelude.{◌≡◌, ◌+◌, ◌-◌, ◌<◌, ◌≤◌, ◌∷◌, ◌++◌, length, take, drop, slice_index_or, sum, OnOk, IfOk};
ghost use Rattle.compositions.specs.Sizes.{IsSmallComposition};
ghost use Rattle.coproduct_laws.specs.Coproducts.{terms_of_pairs};
ghost use Rattle.coproduct_rules.specs.DegreeCuts.{front_of_degree, rest_past_degree, degree_cuts};
ghost use Rattle.index_rules.specs.PushedTerms.{HoldsFirst};
ghost use Rattle.linear_combos.specs.Combos.{IsSumOfTerms};

use hopf_num::OutOfMemory;
use linear_combos::{Code, Combo, ComboBuilder, Key};
use std::alloc::Global;

// The first parts, and one more, where it is not 0.
fn parts_and(parts: &Code, count: usize, last: u8) -> Code
    requires small { IsSmallComposition parts.now }
    requires in_range { count < length parts.now }
    requires below { last < slice_index_or parts.now count 0 }
    ensures { result ≡ take count parts.now ++ front_of_degree last (drop count parts.now) }
{
    let front = parts.prefix(count);
    if last == 0 {
        return front;
    }
    front.with(last)
}

// The composition of a degree that a composition begins with.
fn front(parts: &Code, degree: u32) -> Code
    requires { IsSmallComposition parts.now }
    ensures { result ≡ front_of_degree degree parts.now }
{
    let mut left = degree;
    for at in 0..parts.len() {
        let part = u32::from(parts.letter(at));
        if left < part {
            return parts_and(parts, at, left as u8);
        }
        left -= part;
    }
    *parts
}

// The parts from a place on, the first of them less a number.
fn parts_from(parts: &Code, at: usize, less: u8) -> Code
    requires small { IsSmallComposition parts.now }
    requires in_range { at < length parts.now }
    requires below { less < slice_index_or parts.now at 0 }
    ensures { result ≡ rest_past_degree less (drop at parts.now) }
{
    let none = Code::empty();
    let first = none.with(parts.letter(at) - less);
    first.followed_by(&parts.suffix(at + 1))
}

// The composition of what is left past a degree.
fn rest(parts: &Code, degree: u32) -> Code
    requires { IsSmallComposition parts.now }
    ensures { result ≡ rest_past_degree degree parts.now }
{
    let mut left = degree;
    for at in 0..parts.len() {
        let part = u32::from(parts.letter(at));
        if left < part {
            return parts_from(parts, at, left as u8);
        }
        left -= part;
    }
    Code::empty()
}

// Pushes the cuts at each degree.
fn push_cuts(out: &mut ComboBuilder, parts: &Code) -> Result<(), OutOfMemory>
    requires small { IsSmallComposition parts.now }
    requires rank { out.old.rank ≡ 2 }
    requires none { HoldsFirst (terms_of_pairs (degree_cuts parts.now)) 0 out.old }
    ensures pushes { OnOk result (HoldsFirst (terms_of_pairs (degree_cuts parts.now)) (length (terms_of_pairs (degree_cuts parts.now))) out.new) }
    ensures same_rank { out.new.rank ≡ 2 }
{
    for degree in 0..parts.sum() + 1 {
        out.push(1, Key::two(front(parts, degree), rest(parts, degree)))?;
    }
    Ok(())
}

// The tensors of the cuts of a composition at each degree.
pub(crate) fn cuts_by_degree(alloc: Global, parts: &Code) -> Result<Combo, OutOfMemory>
    requires { IsSmallComposition parts.now }
    ensures { IfOk result (IsSumOfTerms 2 (terms_of_pairs (degree_cuts parts.now))) }
{
    let mut out = ComboBuilder::new(alloc, 2);
    push_cuts(&mut out, parts)?;
    Ok(out.finish())
}
