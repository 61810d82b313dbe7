//! Terms over a denominator that may have a factor in common with them.
ghost use Rattle.std.specs.Prelude.{◌≡◌, ◌≢◌, ◌+◌, ◌^◌, ◌<◌, ◌≤◌, ◌*◌, ◌*ℤ◌, pos, int_div, [], ◌∷◌, ◌++◌, length, slice_set, unsigned_abs, OnOk, OnErr};
ghost use Rattle.realisations.specs.Combinations.{AddsTerm, norm_of, term_at};
ghost use Rattle.linear_combos.specs.Combos.{IsGapFor};
ghost use Rattle.linear_combos.specs.Merges.{IsCommon, AreMultiples, multiples, quotients};

use crate::Key;
use hopf_num::{OutOfMemory, gcd, product, quotient};
use std::alloc::Global;
use std::marker::Model;

// Terms in rising order over a denominator, with the greatest common divisor of the denominator and
// the numerators.
#[derive(Drop)]
pub(crate) struct Unreduced {
    pub(crate) rank: u32,
    pub(crate) den: u128,
    pub(crate) common: u128,
    pub(crate) norm: u128,
    pub(crate) terms: Vec<(i128, Key)>,
}

impl Model for Unreduced {
    ghost use Rattle.realisations.specs.Combinations.{Combination};
    ghost use Rattle.linear_combos.specs.Merges.{IsUnreduced};

    ghost Value = { Combination };

    ghost view = { λ u. record { rank = u.rank; den = u.den; terms = u.terms.items } };

    ghost invariant = { λ u. IsUnreduced u.rank u.den u.terms.items u.norm u.common };
}

impl Unreduced {
    // No terms yet. It takes no memory.
    pub(crate) fn new(alloc: Global, rank: u32, den: u128) -> Unreduced
        requires positive { 1 ≤ den }
        requires small { den < 2 ^ 127 }
        ensures { result ≡ record { rank = rank; den = den; terms = [] } }
    {
        Unreduced {
            rank,
            den,
            common: den,
            norm: 0,
            terms: Vec::new(alloc),
        }
    }

    // Adds a numerator times a key that is greater than all keys before.
    pub(crate) fn push(&mut self, num: i128, key: Key) -> Result<(), OutOfMemory>
        requires last { IsGapFor self.old.terms key (length self.old.terms) }
        requires rank { length key ≡ self.old.rank }
        requires room { norm_of self.old.terms + unsigned_abs num < 2 ^ 127 }
        ensures adds { OnOk result (AddsTerm self.old.terms self.new.terms num key) }
        ensures norm { norm_of self.new.terms ≤ norm_of self.old.terms + unsigned_abs num }
        ensures same_rank { self.new.rank ≡ self.old.rank }
        ensures same_den { self.new.den ≡ self.old.den }
    {
        if num != 0 {
            self.put_last(num, key)?;
        }
        Ok(())
    }

    // Puts a term that is not 0 at the end.
    fn put_last(&mut self, num: i128, key: Key) -> Result<(), OutOfMemory>
        requires last { IsGapFor self.old.terms key (length self.old.terms) }
        requires nonzero { num ≢ pos 0 }
        requires rank { length key ≡ self.old.rank }
        requires room { norm_of self.old.terms + unsigned_abs num < 2 ^ 127 }
        ensures terms { OnOk result (self.new.terms ≡ self.old.terms ++ (num, key) ∷ []) }
        ensures same_rank { self.new.rank ≡ self.old.rank }
        ensures same_den { self.new.den ≡ self.old.den }
        ensures err { OnErr result (self.new ≡ self.old) }
    {
        self.terms.push((num, key))?;
        self.norm += num.unsigned_abs();
        self.common = gcd(num.unsigned_abs(), self.common);
        Ok(())
    }
}

// The greatest common divisor of a denominator and all numerators. It is 1 as soon as that of the first
// ones is.
pub(crate) fn common_divisor(den: u128, terms: &[(i128, Key)]) -> u128
    requires { norm_of terms.now < 2 ^ 127 }
    ensures { IsCommon den terms.now result }
{
    let mut common = den;
    for term in terms {
        if common == 1 {
            return 1;
        }
        common = gcd(term.0.unsigned_abs(), common);
    }
    common
}

// Multiplies each numerator; by 0 no term is left.
pub(crate) fn multiply(terms: &mut Vec<(i128, Key)>, by: i128)
    requires { norm_of terms.old.items * unsigned_abs by < 2 ^ 127 }
    ensures { AreMultiples by terms.old.items terms.new.items }
{
    if by == 0 {
        terms.clear();
        return;
    }
    multiply_each(terms, by);
}

// The same by a number that is not 0.
fn multiply_each(terms: &mut Vec<(i128, Key)>, by: i128)
    requires nonzero { by ≢ pos 0 }
    requires room { norm_of terms.old.items * unsigned_abs by < 2 ^ 127 }
    ensures { terms.new.items ≡ multiples by terms.old.items }
{
    for at in 0..terms.len() {
        multiply_term(terms, at, by);
    }
}

// Multiplies the numerator at a place.
fn multiply_term(terms: &mut Vec<(i128, Key)>, at: usize, by: i128)
    requires in_range { at < length terms.old.items }
    requires room { unsigned_abs ((term_at terms.old.items at).0 *ℤ by) < 2 ^ 127 }
    ensures { terms.new.items ≡ slice_set terms.old.items at ((term_at terms.old.items at).0 *ℤ by, (term_at terms.old.items at).1) }
{
    let term = &mut terms[at];
    term.0 = product(term.0, by);
}

// Divides each numerator by a common divisor.
pub(crate) fn divide(terms: &mut Vec<(i128, Key)>, by: u128)
    requires positive { 1 ≤ by }
    requires by_small { by < 2 ^ 127 }
    requires small { norm_of terms.old.items < 2 ^ 127 }
    ensures { terms.new.items ≡ quotients by terms.old.items }
{
    if by == 1 {
        return;
    }
    for at in 0..terms.len() {
        divide_term(terms, at, by);
    }
}

// Divides the numerator at a place.
fn divide_term(terms: &mut Vec<(i128, Key)>, at: usize, by: u128)
    requires in_range { at < length terms.old.items }
    requires positive { 1 ≤ by }
    requires by_small { by < 2 ^ 127 }
    requires small { unsigned_abs (term_at terms.old.items at).0 < 2 ^ 127 }
    ensures { terms.new.items ≡ slice_set terms.old.items at (int_div (term_at terms.old.items at).0 (pos by), (term_at terms.old.items at).1) }
{
    let term = &mut terms[at];
    term.0 = quotient(term.0, by as i128);
}
