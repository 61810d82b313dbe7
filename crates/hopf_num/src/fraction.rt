//! Exact fractions.
ghost use Rattle.std.specs.Prelude.{◌≡◌, ◌≢◌, ◌↔◌, ◌^◌, ◌<◌, ◌≤◌, ◌/◌, ℕ, pos, [], ◌∷◌, ◌+ℤ◌, ◌*ℤ◌, neg_ℤ, unsigned_abs, length, take, Err, IfOk};
ghost use Rattle.hopf_num.specs.Divisors.{IsLcm};
ghost use Rattle.hopf_num.specs.Fractions.{Ratio, IsFraction, reciprocal, fraction_text};
ghost use Rattle.hopf_num.specs.Room.{TestsRoom, product_rule, sum_rule};
ghost use Rattle.hopf_num.specs.declared.room.Need.TheVariants.{CommonDenominator, Denominator, Linear, Sum};
ghost use Rattle.hopf_num.specs.declared.room.NumFault.TheVariants.{ZeroDivisor};

use crate::decimal::{put_decimal, put_signed};
use crate::exact_arithmetic::{negation, product, quotient, sum_of_products};
use crate::{Need, NumFault, gcd, lcm};
use std::marker::Model;

/// A rational number in lowest terms: the denominator is at least 1 and has no factor in common with
/// the numerator, and both are below 2^127 in absolute value.
#[derive(Clone, Copy, Debug, PartialEq, Eq)]
pub struct Fraction {
    num: i128,
    den: u128,
}

impl Model for Fraction {
    ghost use Rattle.hopf_num.specs.Fractions.{Ratio, IsFraction};

    ghost Value = { Ratio };

    ghost view = { λ f. record { num = f.num; den = f.den } };

    ghost inverse = { λ r. record { num = r.num; den = r.den } };

    ghost invariant = { λ f. IsFraction (record { num = f.num; den = f.den }) };
}

impl Fraction {
    /// The fraction `num / den`.
    ///
    /// `ZeroDivisor` comes exactly where `den` is 0. `TooLarge` comes exactly where one of the two is
    /// the least `i128`, whose absolute value is 2^127: for the denominator first.
    pub fn new(num: i128, den: i128) -> Result<Fraction, NumFault>
        ensures zero { result ≡ Err ZeroDivisor ↔ den ≡ pos 0 }
        ensures room { den ≢ pos 0 → TestsRoom (Denominator (unsigned_abs den) 1 ∷ Linear (unsigned_abs num) 0 ∷ []) result }
        ensures value { IfOk result (λ f. f.num *ℤ den ≡ num *ℤ pos f.den) }
        ensures lowest { IfOk result (λ f. IsFraction f) }
    {
        if den == 0 {
            return Err(NumFault::ZeroDivisor);
        }
        Need::Denominator {
            left: den.unsigned_abs(),
            right: 1,
        }
        .test()?;
        Need::Linear {
            norm: num.unsigned_abs(),
            shift: 0,
        }
        .test()?;
        let signed = if den < 0 { negation(num) } else { num };
        Ok(Fraction::lowest(signed, den.unsigned_abs()))
    }

    /// The numerator, with the sign of the fraction.
    pub fn num(&self) -> i128
        ensures value { result ≡ self.now.num }
        ensures lowest { IsFraction self.now }
    {
        self.num
    }

    /// The denominator, from 1 to 2^127 - 1.
    pub fn den(&self) -> i128
        ensures value { result ≡ pos self.now.den }
        ensures lowest { IsFraction self.now }
    {
        self.den as i128
    }

    /// The sum.
    ///
    /// `TooLarge` comes exactly where the least common multiple of the denominators is 2^127 or more,
    /// or else the sum of the absolute numerators over it is.
    pub fn add(&self, other: &Fraction) -> Result<Fraction, NumFault>
        ensures room { (m : ℕ) → IsLcm self.now.den other.now.den m
            → TestsRoom (sum_rule m self.now.den other.now.den (unsigned_abs self.now.num) (unsigned_abs other.now.num)) result }
        ensures value { IfOk result (λ f. f.num *ℤ (pos self.now.den *ℤ pos other.now.den)
            ≡ (self.now.num *ℤ pos other.now.den +ℤ other.now.num *ℤ pos self.now.den) *ℤ pos f.den) }
    {
        let den = common_denominator(self.den, other.den)?;
        self.add_over(other, den)
    }

    /// The product.
    ///
    /// `TooLarge` comes exactly where the product of the denominators is 2^127 or more, or else that
    /// of the absolute numerators is, both before they are reduced.
    pub fn mul(&self, other: &Fraction) -> Result<Fraction, NumFault>
        ensures room { TestsRoom (product_rule self.now.den other.now.den (unsigned_abs self.now.num) (unsigned_abs other.now.num) 0) result }
        ensures value { IfOk result (λ f. f.num *ℤ (pos self.now.den *ℤ pos other.now.den)
            ≡ (self.now.num *ℤ other.now.num) *ℤ pos f.den) }
    {
        Need::Denominator {
            left: self.den,
            right: other.den,
        }
        .test()?;
        Need::Product {
            left: self.num.unsigned_abs(),
            right: other.num.unsigned_abs(),
            shift: 0,
        }
        .test()?;
        Ok(Fraction::lowest(product(self.num, other.num), self.den * other.den))
    }

    /// The fraction with the other sign.
    pub fn neg(&self) -> Fraction
        ensures { result ≡ record { num = neg_ℤ self.now.num; den = self.now.den } }
    {
        Fraction {
            num: negation(self.num),
            den: self.den,
        }
    }

    /// One over the fraction, which is not 0.
    pub fn recip(&self) -> Fraction
        requires { self.now.num ≢ pos 0 }
        ensures { result ≡ reciprocal self.now }
    {
        let den = self.den as i128;
        Fraction {
            num: if self.num < 0 { negation(den) } else { den },
            den: self.num.unsigned_abs(),
        }
    }

    /// Puts the decimal text at the front, and answers its length: `p`, or `p/q` where the
    /// denominator `q` is not 1.
    pub fn write(&self, out: &mut [u8; 80]) -> usize
        ensures text { take result out.new ≡ fraction_text self.now }
        ensures len { result ≡ length (fraction_text self.now) }
    {
        let end = put_signed(self.num, out);
        if self.den == 1 {
            return end;
        }
        out[end] = b'/';
        put_decimal(self.den, out, end + 1)
    }

    // The sum, over the least common multiple of the denominators.
    fn add_over(&self, other: &Fraction, den: u128) -> Result<Fraction, NumFault>
        requires least { IsLcm self.now.den other.now.den den }
        requires small { den < 2 ^ 127 }
        ensures room { TestsRoom (Sum (unsigned_abs self.now.num) (den / self.now.den) (unsigned_abs other.now.num) (den / other.now.den) ∷ []) result }
        ensures value { IfOk result (λ f. f.num *ℤ (pos self.now.den *ℤ pos other.now.den)
            ≡ (self.now.num *ℤ pos other.now.den +ℤ other.now.num *ℤ pos self.now.den) *ℤ pos f.den) }
    {
        let num = common_numerator(self.num, den / self.den, other.num, den / other.den)?;
        Ok(Fraction::lowest(num, den))
    }

    // The fraction `num / den`, both without their common factors.
    fn lowest(num: i128, den: u128) -> Fraction
        requires num { unsigned_abs num < 2 ^ 127 }
        requires positive { 1 ≤ den }
        requires small { den < 2 ^ 127 }
        ensures value { result.num *ℤ pos den ≡ num *ℤ pos result.den }
        ensures lowest { IsFraction result }
    {
        let common = gcd(num.unsigned_abs(), den);
        Fraction {
            num: quotient(num, common as i128),
            den: den / common,
        }
    }
}

// The least common multiple of two denominators.
fn common_denominator(left: u128, right: u128) -> Result<u128, NumFault>
    requires left { 1 ≤ left }
    requires right { 1 ≤ right }
    ensures room { TestsRoom (CommonDenominator left right ∷ []) result }
    ensures least { IfOk result (λ m. IsLcm left right m) }
    ensures small { IfOk result (λ m. m < 2 ^ 127) }
{
    match lcm(left, right) {
        Some(den) => Ok(den),
        None => Err(NumFault::TooLarge(Need::CommonDenominator { left, right })),
    }
}

// The sum of two numerators over a common denominator, which these factors bring them to.
fn common_numerator(
    left: i128,
    left_factor: u128,
    right: i128,
    right_factor: u128,
) -> Result<i128, NumFault>
    requires left_factor { left_factor < 2 ^ 127 }
    requires right_factor { right_factor < 2 ^ 127 }
    ensures room { TestsRoom (Sum (unsigned_abs left) left_factor (unsigned_abs right) right_factor ∷ []) result }
    ensures value { IfOk result (λ num. num ≡ left *ℤ pos left_factor +ℤ right *ℤ pos right_factor) }
    ensures small { IfOk result (λ num. unsigned_abs num < 2 ^ 127) }
{
    Need::Sum {
        left: left.unsigned_abs(),
        left_factor,
        right: right.unsigned_abs(),
        right_factor,
    }
    .test()?;
    let sum = sum_of_products(
        &left,
        &(left_factor as i128),
        &right,
        &(right_factor as i128),
    );
    Ok(sum.unwrap())
}
