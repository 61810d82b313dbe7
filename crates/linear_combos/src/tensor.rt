//! The products of each term of one combination with each of another.
ghost use Rattle.std.specs.Prelude.{◌≡◌, ◌+◌, ◌*ℤ◌, ◌^◌, ◌<◌, [], length, unsigned_abs, OnOk};
ghost use Rattle.realisations.specs.Combinations.{term_at};
ghost use Rattle.linear_combos.specs.Merges.{AreFactors, AreProducts};

use crate::Combo;
use crate::unreduced::Unreduced;
use hopf_num::{OutOfMemory, product};

// Adds the product of each term of the first combination with each of the second, in the order of
// their keys: as many steps as there are pairs.
pub(crate) fn add_products(tensor: &mut Unreduced, a: &Combo, b: &Combo) -> Result<(), OutOfMemory>
    requires empty { tensor.old.terms ≡ [] }
    requires factors { AreFactors a.now b.now }
    requires rank { a.now.rank + b.now.rank ≡ tensor.old.rank }
    ensures products { OnOk result (AreProducts a.now.terms b.now.terms (length a.now.terms) 0 tensor.new.terms) }
    ensures same_rank { tensor.new.rank ≡ tensor.old.rank }
    ensures same_den { tensor.new.den ≡ tensor.old.den }
{
    for left in 0..a.len() {
        add_row(tensor, a, left, b)?;
    }
    Ok(())
}

// Adds the products of one term with each term of the second combination.
fn add_row(tensor: &mut Unreduced, a: &Combo, left: usize, b: &Combo) -> Result<(), OutOfMemory>
    requires in_left { left < length a.now.terms }
    requires factors { AreFactors a.now b.now }
    requires rank { a.now.rank + b.now.rank ≡ tensor.old.rank }
    requires products { AreProducts a.now.terms b.now.terms left 0 tensor.old.terms }
    ensures products { OnOk result (AreProducts a.now.terms b.now.terms (left + 1) 0 tensor.new.terms) }
    ensures same_rank { tensor.new.rank ≡ tensor.old.rank }
    ensures same_den { tensor.new.den ≡ tensor.old.den }
{
    for right in 0..b.len() {
        add_product(tensor, a, left, b, right)?;
    }
    Ok(())
}

// Adds the product of a term of each combination, whose key comes after all keys so far.
fn add_product(
    tensor: &mut Unreduced,
    a: &Combo,
    left: usize,
    b: &Combo,
    right: usize,
) -> Result<(), OutOfMemory>
    requires in_left { left < length a.now.terms }
    requires in_right { right < length b.now.terms }
    requires factors { AreFactors a.now b.now }
    requires rank { a.now.rank + b.now.rank ≡ tensor.old.rank }
    requires products { AreProducts a.now.terms b.now.terms left right tensor.old.terms }
    ensures products { OnOk result (AreProducts a.now.terms b.now.terms left (right + 1) tensor.new.terms) }
    ensures same_rank { tensor.new.rank ≡ tensor.old.rank }
    ensures same_den { tensor.new.den ≡ tensor.old.den }
{
    let num = product_at(a, left, b, right);
    let key = a.key_at(left).followed_by(b.key_at(right));
    tensor.push(num, key)
}

// The product of the numerators at two places.
fn product_at(a: &Combo, left: usize, b: &Combo, right: usize) -> i128
    requires in_left { left < length a.now.terms }
    requires in_right { right < length b.now.terms }
    requires room { unsigned_abs ((term_at a.now.terms left).0 *ℤ (term_at b.now.terms right).0) < 2 ^ 127 }
    ensures { result ≡ (term_at a.now.terms left).0 *ℤ (term_at b.now.terms right).0 }
{
    product(a.num_at(left), b.num_at(right))
}
