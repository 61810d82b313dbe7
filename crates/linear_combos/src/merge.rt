//! The sum of two lists of terms, each times a factor.
ghost use Rattle.std.specs.Prelude.{◌≡◌, ◌+◌, ◌*◌, ◌^◌, ◌<◌, ◌≤◌, ◌+ℤ◌, ◌*ℤ◌, [], length, unsigned_abs, OnOk, IfOk};
ghost use Rattle.realisations.specs.Combinations.{AreTerms, HasRisingKeys, norm_of, term_at};
ghost use Rattle.linear_combos.specs.Merges.{IsNext, IsMerged};

use crate::Key;
use crate::unreduced::Unreduced;
use hopf_num::{OutOfMemory, product};
use std::cmp::Ordering;

// Adds all terms of both lists, each times its factor, and gathers like terms: as many steps as there
// are terms.
pub(crate) fn merge(
    sum: &mut Unreduced,
    left: &[(i128, Key)],
    left_factor: i128,
    right: &[(i128, Key)],
    right_factor: i128,
) -> Result<(), OutOfMemory>
    requires empty { sum.old.terms ≡ [] }
    requires left { AreTerms sum.old.rank left.now }
    requires right { AreTerms sum.old.rank right.now }
    requires room { norm_of left.now * unsigned_abs left_factor + norm_of right.now * unsigned_abs right_factor < 2 ^ 127 }
    ensures merged { OnOk result (IsMerged left.now left_factor right.now right_factor (length left.now) (length right.now) sum.new.terms) }
    ensures same_rank { sum.new.rank ≡ sum.old.rank }
    ensures same_den { sum.new.den ≡ sum.old.den }
{
    let mut at = (0, 0);
    while at.0 < left.len() || at.1 < right.len() {
        at = merge_step(sum, left, left_factor, right, right_factor, at)?;
    }
    Ok(())
}

// Adds what has the least key from these places on, and answers the places behind it.
fn merge_step(
    sum: &mut Unreduced,
    left: &[(i128, Key)],
    left_factor: i128,
    right: &[(i128, Key)],
    right_factor: i128,
    at: (usize, usize),
) -> Result<(usize, usize), OutOfMemory>
    requires left { AreTerms sum.old.rank left.now }
    requires right { AreTerms sum.old.rank right.now }
    requires room { norm_of left.now * unsigned_abs left_factor + norm_of right.now * unsigned_abs right_factor < 2 ^ 127 }
    requires merged { IsMerged left.now left_factor right.now right_factor at.0 at.1 sum.old.terms }
    requires more { at.0 + at.1 < length left.now + length right.now }
    ensures merged { IfOk result (λ next. IsMerged left.now left_factor right.now right_factor next.0 next.1 sum.new.terms) }
    ensures further { IfOk result (λ next. at.0 + at.1 < next.0 + next.1) }
    ensures same_rank { sum.new.rank ≡ sum.old.rank }
    ensures same_den { sum.new.den ≡ sum.old.den }
{
    let (i, j) = at;
    match next(left, right, at) {
        Ordering::Less => {
            let num = scaled(left, i, left_factor);
            sum.push(num, left[i].1)?;
            Ok((i + 1, j))
        }
        Ordering::Equal => {
            let num = total(scaled(left, i, left_factor), scaled(right, j, right_factor));
            sum.push(num, left[i].1)?;
            Ok((i + 1, j + 1))
        }
        Ordering::Greater => {
            let num = scaled(right, j, right_factor);
            sum.push(num, right[j].1)?;
            Ok((i, j + 1))
        }
    }
}

// Which list has the least key from these places on: `Less` for the left one.
fn next(left: &[(i128, Key)], right: &[(i128, Key)], at: (usize, usize)) -> Ordering
    requires left { HasRisingKeys left.now }
    requires right { HasRisingKeys right.now }
    requires in_left { at.0 ≤ length left.now }
    requires in_right { at.1 ≤ length right.now }
    requires more { at.0 + at.1 < length left.now + length right.now }
    ensures { IsNext left.now right.now at.0 at.1 result }
{
    let (i, j) = at;
    if i == left.len() {
        return Ordering::Greater;
    }
    if j == right.len() {
        return Ordering::Less;
    }
    left[i].1.cmp(&right[j].1)
}

// The numerator at a place, times a factor.
fn scaled(terms: &[(i128, Key)], at: usize, factor: i128) -> i128
    requires in_range { at < length terms.now }
    requires small { norm_of terms.now < 2 ^ 127 }
    requires room { unsigned_abs ((term_at terms.now at).0 *ℤ factor) < 2 ^ 127 }
    ensures { result ≡ (term_at terms.now at).0 *ℤ factor }
{
    product(terms[at].0, factor)
}

// The sum of two numerators.
pub(crate) fn total(left: i128, right: i128) -> i128
    requires { unsigned_abs left + unsigned_abs right < 2 ^ 127 }
    ensures { result ≡ left +ℤ right }
{
    left + right
}
