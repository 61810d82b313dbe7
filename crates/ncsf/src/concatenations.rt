//! Compositions put one after another: the products of the three bases.
ghost use Rattle.std.specs.Prelude.{◌≡◌, ◌+◌, ◌≤◌, [], ◌∷◌, ◌++◌, length, sum, IfOk};
ghost use Rattle.linear_combos.specs.Combos.{IsSumOfTerms};
ghost use Rattle.product_laws.specs.Products.{terms_of_codes};
ghost use Rattle.product_laws.specs.Ribbons.{near_concatenation, ribbon_products};
ghost use Rattle.realisations.specs.IndexKinds.{IsComposition};

use hopf_num::OutOfMemory;
use index_rules::{Signs, signed_sum};
use linear_combos::{Code, Codes, Combo};
use std::alloc::Global;

// The concatenation alone.
fn concatenation(alloc: Global, left: &Code, right: &Code) -> Result<Codes, OutOfMemory>
    requires left { IsComposition left.now }
    requires right { IsComposition right.now }
    requires small { sum left.now + sum right.now ≤ 12 }
    ensures { IfOk result (λ codes. codes ≡ (left.now ++ right.now) ∷ []) }
{
    let mut codes = Codes::new(alloc);
    codes.push(left.followed_by(right))?;
    Ok(codes)
}

// The near concatenation of two compositions with parts: the last part of the first and the first one of the second
// are joined.
fn joined(left: &Code, right: &Code) -> Code
    requires left { IsComposition left.now }
    requires right { IsComposition right.now }
    requires small { sum left.now + sum right.now ≤ 12 }
    requires some_left { 1 ≤ length left.now }
    requires some_right { 1 ≤ length right.now }
    ensures { result ≡ near_concatenation left.now right.now }
{
    let last = left.len() - 1;
    let part = left.letter(last) + right.letter(0);
    let front = left.prefix(last);
    let back = right.suffix(1);
    let middle = front.with(part);
    middle.followed_by(&back)
}

// The concatenation, and the near concatenation where both have parts.
fn both_ways(alloc: Global, left: &Code, right: &Code) -> Result<Codes, OutOfMemory>
    requires left { IsComposition left.now }
    requires right { IsComposition right.now }
    requires small { sum left.now + sum right.now ≤ 12 }
    ensures { IfOk result (λ codes. codes ≡ ribbon_products left.now right.now) }
{
    let mut codes = concatenation(alloc, left, right)?;
    if left.len() > 0 && right.len() > 0 {
        codes.push(joined(left, right))?;
    }
    Ok(codes)
}

// The sum of the elements of the concatenation alone.
pub(crate) fn concatenated(alloc: Global, left: &Code, right: &Code) -> Result<Combo, OutOfMemory>
    requires left { IsComposition left.now }
    requires right { IsComposition right.now }
    requires small { sum left.now + sum right.now ≤ 12 }
    ensures { IfOk result (IsSumOfTerms 1 (terms_of_codes ((left.now ++ right.now) ∷ []))) }
{
    let codes = concatenation(alloc, left, right)?;
    signed_sum(alloc, &codes, Signs::Plus)
}

// The sum of the elements of the concatenation and the near concatenation.
pub(crate) fn concatenated_both_ways(
    alloc: Global,
    left: &Code,
    right: &Code,
) -> Result<Combo, OutOfMemory>
    requires left { IsComposition left.now }
    requires right { IsComposition right.now }
    requires small { sum left.now + sum right.now ≤ 12 }
    ensures { IfOk result (IsSumOfTerms 1 (terms_of_codes (ribbon_products left.now right.now))) }
{
    let codes = both_ways(alloc, left, right)?;
    signed_sum(alloc, &codes, Signs::Plus)
}
