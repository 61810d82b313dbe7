//! Combinations: a rank, a denominator, and terms in canonical form.
ghost use Rattle.std.specs.Prelude.{◌≡◌, ◌≢◌, ◌↔◌, ◌+◌, ◌*◌, ◌*ℤ◌, ◌/◌, ◌^◌, ◌<◌, ◌≤◌, ℕ, ℤ, pos, [], ◌∷◌, length, OnOk, OnErr, unsigned_abs, IfOk, IsErrOf, IsTrue};
ghost use Rattle.std.specs.List.{insert};
ghost use Rattle.hopf_num.specs.Divisors.{IsLcm};
ghost use Rattle.hopf_num.specs.Room.{IsNeed, product_rule, sum_rule};
ghost use Rattle.hopf_num.specs.declared.room.Need.TheVariants.{Sum, CommonDenominator};
ghost use Rattle.realisations.specs.Combinations.{IsCanonical, AddsTerm, AreTerms, norm_of, term_at, terms_of};
ghost use Rattle.linear_combos.specs.Combos.{IsGapFor, IsSum, IsDifference, IsMultiple, IsTensor};
ghost use Rattle.linear_combos.specs.Merges.{IsCombined, IsOver, IsSignedSum};
ghost use Rattle.linear_combos.specs.Faults.{TestsRoom, IsTested};

use crate::Key;
use crate::merge::merge;
use crate::tensor::add_products;
use crate::terms::{copy_terms, place, remove_term};
use crate::unreduced::{Unreduced, common_divisor, divide, multiply};
use hopf_num::{Fraction, Need, OutOfMemory, lcm, product};
use std::alloc::{AllocError, Global};
use std::marker::Model;

/// Why a combination was not made or changed.
#[derive(Clone, Copy, Debug, PartialEq, Eq)]
pub enum ComboFault {
    /// The norm would pass its room. The need tells the numbers.
    TooLarge(Need),
    /// Memory ran out.
    Memory,
}

/// A rational combination of keys of one rank: a denominator and integer numerators.
///
/// It is canonical: keys rise strictly, no numerator is 0, the denominator is positive and has no
/// factor in common with all numerators (so it is 1 where there are no terms), and the norm, the sum
/// of the absolute numerators, is below 2^127, and so is the denominator.
#[derive(Drop)]
pub struct Combo {
    rank: u32,
    den: u128,
    norm: u128,
    terms: Vec<(i128, Key)>,
}

impl Model for Combo {
    ghost use Rattle.std.specs.Prelude.{◌≡◌};
    ghost use Rattle.realisations.specs.Combinations.{Combination, IsCanonical, norm_of};

    ghost Value = { Combination };

    ghost view = { λ c. record { rank = c.rank; den = c.den; terms = c.terms.items } };

    ghost invariant = { λ c. IsCanonical c.rank c.den c.terms.items × (c.norm ≡ norm_of c.terms.items) };
}

impl Combo {
    /// The zero combination of a rank. It takes no memory.
    pub fn zero(alloc: Global, rank: u32) -> Combo
        ensures { result ≡ record { rank = rank; den = 1; terms = [] } }
    {
        Combo {
            rank,
            den: 1,
            norm: 0,
            terms: Vec::new(alloc),
        }
    }

    /// The numerator times the key, over 1. With numerator 0 it is zero.
    pub fn term(alloc: Global, num: i128, key: Key) -> Result<Combo, OutOfMemory>
        requires { unsigned_abs num < 2 ^ 127 }
        ensures { IfOk result (λ c. c ≡ record { rank = length key; den = 1; terms = terms_of num key }) }
    {
        let mut combo = Combo::zero(alloc, key.rank());
        if num != 0 {
            combo.put_in(0, num, key)?;
        }
        Ok(combo)
    }

    /// How many codes each key has.
    pub fn rank(&self) -> u32
        ensures value { result ≡ self.now.rank }
        ensures canonical { IsCanonical self.now.rank self.now.den self.now.terms }
    {
        self.rank
    }

    /// The denominator, from 1 to 2^127 - 1.
    pub fn den(&self) -> i128
        ensures { result ≡ pos self.now.den }
    {
        self.den as i128
    }

    /// The sum of the absolute numerators, below 2^127.
    pub fn norm(&self) -> u128
        ensures value { result ≡ norm_of self.now.terms }
        ensures small { result < 2 ^ 127 }
    {
        self.norm
    }

    /// How many terms there are.
    pub fn len(&self) -> usize
        ensures value { result ≡ length self.now.terms }
        ensures canonical { IsCanonical self.now.rank self.now.den self.now.terms }
    {
        self.terms.len()
    }

    /// The numerator of the term at a place, counted from 0 in the order of keys. It is not 0.
    pub fn num_at(&self, index: usize) -> i128
        requires { index < length self.now.terms }
        ensures value { result ≡ (term_at self.now.terms index).0 }
        ensures nonzero { result ≢ pos 0 }
    {
        self.terms[index].0
    }

    /// The key of the term at a place, counted from 0 in the order of keys.
    pub fn key_at(&self, index: usize) -> &Key
        requires { index < length self.now.terms }
        ensures { result.now ≡ (term_at self.now.terms index).1 }
    {
        &self.terms[index].1
    }

    // Adds to the numerator at a place.
    fn gather(&mut self, at: usize, num: i128)
        requires in_range { at < length self.old.terms }
        requires whole { self.old.den ≡ 1 }
        requires room { norm_of self.old.terms + unsigned_abs num < 2 ^ 127 }
        ensures adds { AddsTerm self.old.terms self.new.terms num ((term_at self.old.terms at).1) }
        ensures same_rank { self.new.rank ≡ self.old.rank }
        ensures same_den { self.new.den ≡ self.old.den }
        ensures norm { norm_of self.new.terms ≤ norm_of self.old.terms + unsigned_abs num }
    {
        let old = self.terms[at].0;
        let sum = old + num;
        self.norm -= old.unsigned_abs();
        if sum == 0 {
            remove_term(&mut self.terms, at);
        } else {
            self.norm += sum.unsigned_abs();
            let term = &mut self.terms[at];
            term.0 = sum;
        }
    }

    // Puts a new term into its gap.
    fn put_in(&mut self, at: usize, num: i128, key: Key) -> Result<(), AllocError>
        requires gap { IsGapFor self.old.terms key at }
        requires nonzero { num ≢ pos 0 }
        requires rank { length key ≡ self.old.rank }
        requires whole { self.old.den ≡ 1 }
        requires room { norm_of self.old.terms + unsigned_abs num < 2 ^ 127 }
        ensures terms { OnOk result (self.new.terms ≡ insert self.old.terms at (num, key)) }
        ensures same_rank { self.new.rank ≡ self.old.rank }
        ensures same_den { self.new.den ≡ self.old.den }
        ensures err { OnErr result (self.new ≡ self.old) }
    {
        self.terms.insert(at, (num, key))?;
        self.norm += num.unsigned_abs();
        Ok(())
    }

    /// Adds the numerator times the key to a combination over 1 that has room for it, and gathers
    /// like terms.
    ///
    /// An error leaves the combination as it was. The cost is a search among the terms, and where the
    /// key is new, a move of the terms behind it.
    pub fn add_with_room(&mut self, num: i128, key: Key) -> Result<(), OutOfMemory>
        requires rank { length key ≡ self.old.rank }
        requires whole { self.old.den ≡ 1 }
        requires room { norm_of self.old.terms + unsigned_abs num < 2 ^ 127 }
        ensures adds { OnOk result (AddsTerm self.old.terms self.new.terms num key) }
        ensures same_rank { self.new.rank ≡ self.old.rank }
        ensures same_den { self.new.den ≡ self.old.den }
        ensures norm { norm_of self.new.terms ≤ norm_of self.old.terms + unsigned_abs num }
        ensures err { OnErr result (self.new ≡ self.old) }
    {
        if num == 0 {
            return Ok(());
        }
        match place(&self.terms, &key) {
            Ok(at) => self.gather(at, num),
            Err(at) => self.put_in(at, num, key)?,
        }
        Ok(())
    }

    /// Adds the numerator times the key to a combination over 1, and gathers like terms.
    ///
    /// It answers `TooLarge` exactly where the norm and the absolute numerator add to 2^127 or more.
    /// An error leaves the combination as it was. The cost is that of `add_with_room`.
    pub fn add_term(&mut self, num: i128, key: Key) -> Result<(), ComboFault>
        requires rank { length key ≡ self.old.rank }
        requires whole { self.old.den ≡ 1 }
        ensures adds { OnOk result (AddsTerm self.old.terms self.new.terms num key) }
        ensures same_rank { self.new.rank ≡ self.old.rank }
        ensures same_den { self.new.den ≡ self.old.den }
        ensures norm { norm_of self.new.terms ≤ norm_of self.old.terms + unsigned_abs num }
        ensures room { TestsRoom (Sum (norm_of self.old.terms) 1 (unsigned_abs num) 1 ∷ []) result }
        ensures err { OnErr result (self.new ≡ self.old) }
    {
        test(Need::Sum {
            left: self.norm,
            left_factor: 1,
            right: num.unsigned_abs(),
            right_factor: 1,
        })?;
        match self.add_with_room(num, key) {
            Ok(()) => Ok(()),
            Err(_) => Err(ComboFault::Memory),
        }
    }

    /// The sum of two combinations of one rank.
    ///
    /// It answers `TooLarge` exactly where the least common multiple of the denominators is 2^127 or
    /// more, or else the sum of the norms over it is. `Memory` comes only where there is room. The
    /// cost is one merge of the terms, and one more pass where a common factor is taken out.
    pub fn plus(alloc: Global, a: &Combo, b: &Combo) -> Result<Combo, ComboFault>
        requires rank { a.now.rank ≡ b.now.rank }
        ensures sum { IfOk result (λ c. IsSum a.now b.now c) }
        ensures room { (m : ℕ) → IsLcm a.now.den b.now.den m
            → TestsRoom (sum_rule m a.now.den b.now.den (norm_of a.now.terms) (norm_of b.now.terms)) result }
    {
        Combo::signed_sum(alloc, a, b, 1)
    }

    /// The difference of two combinations of one rank.
    ///
    /// It answers `TooLarge` exactly where the least common multiple of the denominators is 2^127 or
    /// more, or else the sum of the norms over it is. `Memory` comes only where there is room. The
    /// cost is that of `plus`.
    pub fn minus(alloc: Global, a: &Combo, b: &Combo) -> Result<Combo, ComboFault>
        requires rank { a.now.rank ≡ b.now.rank }
        ensures difference { IfOk result (λ c. IsDifference a.now b.now c) }
        ensures room { (m : ℕ) → IsLcm a.now.den b.now.den m
            → TestsRoom (sum_rule m a.now.den b.now.den (norm_of a.now.terms) (norm_of b.now.terms)) result }
    {
        Combo::signed_sum(alloc, a, b, -1)
    }

    /// The product with a fraction. By 0 it is zero.
    ///
    /// It answers `TooLarge` exactly where the product of the denominators is 2^127 or more, or else
    /// that of the norm and the absolute numerator is, both before they are reduced. `Memory` comes
    /// only where there is room. The cost is one pass over the terms, and one more where a common
    /// factor is taken out.
    pub fn scale(alloc: Global, a: &Combo, by: &Fraction) -> Result<Combo, ComboFault>
        ensures multiple { IfOk result (λ c. IsMultiple a.now by.now c) }
        ensures room { TestsRoom (product_rule a.now.den by.now.den (norm_of a.now.terms) (unsigned_abs by.now.num) 0) result }
    {
        let num = by.num();
        let den = by.den() as u128;
        test_product(a.den, den, a.norm, num.unsigned_abs())?;
        match a.copy(alloc) {
            Ok(copy) => Ok(copy.multiplied(num, den)),
            Err(_) => Err(ComboFault::Memory),
        }
    }

    /// The product with a fraction, made of the combination itself. By 0 it is zero.
    ///
    /// It answers `TooLarge` as `scale` does. It takes no memory. The cost is that of `scale`.
    pub fn scaled(self, by: &Fraction) -> Result<Combo, ComboFault>
        ensures multiple { IfOk result (IsMultiple self by.now) }
        ensures room { TestsRoom (product_rule self.den by.now.den (norm_of self.terms) (unsigned_abs by.now.num) 0) result }
        ensures no_memory { IsErrOf result ComboFault.Memory → ⊥ }
    {
        let num = by.num();
        let den = by.den() as u128;
        match test_product(self.den, den, self.norm, num.unsigned_abs()) {
            Ok(()) => Ok(self.multiplied(num, den)),
            Err(fault) => Err(fault),
        }
    }

    // The product with a numerator over a denominator, where it has room.
    fn multiplied(self, num: i128, den: u128) -> Combo
        requires positive { 1 ≤ den }
        requires den { self.den * den < 2 ^ 127 }
        requires norm { norm_of self.terms * unsigned_abs num < 2 ^ 127 }
        ensures { IsMultiple self (record { num = num; den = den }) result }
    {
        let den = self.den * den;
        let Combo {
            rank,
            norm,
            mut terms,
            ..
        } = self;
        multiply(&mut terms, num);
        let common = common_divisor(den, &terms);
        Combo::lowest(Unreduced {
            rank,
            den,
            common,
            norm: norm * num.unsigned_abs(),
            terms,
        })
    }

    /// The combination divided by a positive number. It takes no memory.
    ///
    /// The cost is one pass over the numerators, up to the first ones that have no factor in common with
    /// the denominator, and a whole one where a common factor is taken out.
    pub fn over(self, den: u128) -> Combo
        requires positive { 1 ≤ den }
        requires room { self.den * den < 2 ^ 127 }
        ensures { IsMultiple self (record { num = pos 1; den = den }) result }
    {
        let den = self.den * den;
        let common = common_divisor(den, &self.terms);
        let Combo {
            rank,
            norm,
            terms,
            ..
        } = self;
        Combo::lowest(Unreduced {
            rank,
            den,
            common,
            norm,
            terms,
        })
    }

    /// The numerators, over 1. It takes no memory.
    pub fn numerators(self) -> Combo
        ensures { result ≡ record { rank = self.rank; den = 1; terms = self.terms } }
    {
        let mut whole = self;
        whole.den = 1;
        whole
    }

    /// The tensor product: each key of the first followed by each key of the second.
    ///
    /// It answers `TooLarge` exactly where the product of the denominators is 2^127 or more, or else
    /// that of the norms is, both before they are reduced. `Memory` comes only where there is room.
    /// The cost is one step for each pair of terms, with no search, since the keys come in order, and
    /// one more pass where a common factor is taken out.
    pub fn tensor(alloc: Global, a: &Combo, b: &Combo) -> Result<Combo, ComboFault>
        requires rank { a.now.rank + b.now.rank ≤ 3 }
        ensures tensor { IfOk result (λ c. IsTensor a.now b.now c) }
        ensures room { TestsRoom (product_rule a.now.den b.now.den (norm_of a.now.terms) (norm_of b.now.terms) 0) result }
    {
        test_product(a.den, b.den, a.norm, b.norm)?;
        match Combo::tensor_with_room(alloc, a, b) {
            Ok(tensor) => Ok(tensor),
            Err(_) => Err(ComboFault::Memory),
        }
    }

    /// The same combination.
    pub fn copy(&self, alloc: Global) -> Result<Combo, OutOfMemory>
        ensures { IfOk result (λ c. c ≡ self.now) }
    {
        Ok(Combo {
            rank: self.rank,
            den: self.den,
            norm: self.norm,
            terms: copy_terms(alloc, &self.terms)?,
        })
    }

    /// Whether two combinations of one rank are equal in all parts. It takes no memory.
    pub fn same(a: &Combo, b: &Combo) -> bool
        requires rank { a.now.rank ≡ b.now.rank }
        ensures { IsTrue result ↔ a.now ≡ b.now }
    {
        a.den == b.den && a.terms == b.terms
    }

    // The sum of the first combination and of the second one times 1 or -1.
    fn signed_sum(alloc: Global, a: &Combo, b: &Combo, sign: i128) -> Result<Combo, ComboFault>
        requires rank { a.now.rank ≡ b.now.rank }
        requires sign { unsigned_abs sign ≡ 1 }
        ensures sum { IfOk result (λ c. IsSignedSum a.now b.now sign c) }
        ensures room { (m : ℕ) → IsLcm a.now.den b.now.den m
            → TestsRoom (sum_rule m a.now.den b.now.den (norm_of a.now.terms) (norm_of b.now.terms)) result }
    {
        let den = common_denominator(a.den, b.den)?;
        Combo::sum_over(alloc, a, b, sign, den)
    }

    // The same sum, over the least common multiple of the denominators.
    fn sum_over(
        alloc: Global,
        a: &Combo,
        b: &Combo,
        sign: i128,
        den: u128,
    ) -> Result<Combo, ComboFault>
        requires rank { a.now.rank ≡ b.now.rank }
        requires sign { unsigned_abs sign ≡ 1 }
        requires least { IsLcm a.now.den b.now.den den }
        requires small { den < 2 ^ 127 }
        ensures sum { IfOk result (λ c. IsSignedSum a.now b.now sign c) }
        ensures room { TestsRoom (Sum (norm_of a.now.terms) (den / a.now.den) (norm_of b.now.terms) (den / b.now.den) ∷ []) result }
    {
        let left_factor = den / a.den;
        let right_factor = den / b.den;
        test(Need::Sum {
            left: a.norm,
            left_factor,
            right: b.norm,
            right_factor,
        })?;
        let sum = combine(
            alloc,
            a.rank,
            den,
            &a.terms,
            left_factor as i128,
            &b.terms,
            with_sign(right_factor, sign),
        );
        match sum {
            Ok(sum) => Ok(sum),
            Err(_) => Err(ComboFault::Memory),
        }
    }

    // The tensor product, where it has room.
    fn tensor_with_room(alloc: Global, a: &Combo, b: &Combo) -> Result<Combo, OutOfMemory>
        requires rank { a.now.rank + b.now.rank ≤ 3 }
        requires den { a.now.den * b.now.den < 2 ^ 127 }
        requires norm { norm_of a.now.terms * norm_of b.now.terms < 2 ^ 127 }
        ensures { IfOk result (λ c. IsTensor a.now b.now c) }
    {
        let mut tensor = Unreduced::new(alloc, a.rank + b.rank, a.den * b.den);
        add_products(&mut tensor, a, b)?;
        Ok(Combo::lowest(tensor))
    }

    // The combination of canonical terms over 1, with their norm.
    pub(crate) fn whole(rank: u32, norm: u128, terms: Vec<(i128, Key)>) -> Combo
        requires terms { AreTerms rank terms.items }
        requires norm { norm ≡ norm_of terms.items }
        ensures { result ≡ record { rank = rank; den = 1; terms = terms.items } }
    {
        Combo {
            rank,
            den: 1,
            norm,
            terms,
        }
    }

    // The combination of these terms, in lowest terms.
    fn lowest(sum: Unreduced) -> Combo
        ensures { IsOver sum.rank sum.den sum.terms result }
    {
        let Unreduced {
            rank,
            den,
            common,
            norm,
            mut terms,
        } = sum;
        divide(&mut terms, common);
        Combo {
            rank,
            den: den / common,
            norm: norm / common,
            terms,
        }
    }
}

// Whether what is needed has room.
fn test(need: Need) -> Result<(), ComboFault>
    requires { IsNeed need }
    ensures { IsTested need result }
{
    if need.test().is_err() {
        return Err(ComboFault::TooLarge(need));
    }
    Ok(())
}

// Whether the product of values with these denominators and norms has room.
fn test_product(left_den: u128, right_den: u128, left: u128, right: u128) -> Result<(), ComboFault>
    ensures room { TestsRoom (product_rule left_den right_den left right 0) result }
    ensures no_memory { IsErrOf result ComboFault.Memory → ⊥ }
{
    test(Need::Denominator {
        left: left_den,
        right: right_den,
    })?;
    test(Need::Product {
        left,
        right,
        shift: 0,
    })
}

// A factor with a sign, 1 or -1.
fn with_sign(factor: u128, sign: i128) -> i128
    requires small { factor < 2 ^ 127 }
    requires sign { unsigned_abs sign ≡ 1 }
    ensures { result ≡ pos factor *ℤ sign }
{
    product(factor as i128, sign)
}

// The least common multiple of two denominators.
fn common_denominator(left: u128, right: u128) -> Result<u128, ComboFault>
    requires left { 1 ≤ left }
    requires right { 1 ≤ right }
    ensures room { IsTested (CommonDenominator left right) result }
    ensures least { IfOk result (λ m. IsLcm left right m) }
    ensures small { IfOk result (λ m. m < 2 ^ 127) }
{
    match lcm(left, right) {
        Some(den) => Ok(den),
        None => Err(ComboFault::TooLarge(Need::CommonDenominator { left, right })),
    }
}

// The sum of two lists of terms, each times a factor, over a denominator, in lowest terms.
fn combine(
    alloc: Global,
    rank: u32,
    den: u128,
    left: &[(i128, Key)],
    left_factor: i128,
    right: &[(i128, Key)],
    right_factor: i128,
) -> Result<Combo, OutOfMemory>
    requires positive { 1 ≤ den }
    requires small { den < 2 ^ 127 }
    requires left { AreTerms rank left.now }
    requires right { AreTerms rank right.now }
    requires room { norm_of left.now * unsigned_abs left_factor + norm_of right.now * unsigned_abs right_factor < 2 ^ 127 }
    ensures { IfOk result (λ c. IsCombined rank den left.now left_factor right.now right_factor c) }
{
    let mut sum = Unreduced::new(alloc, rank, den);
    merge(&mut sum, left, left_factor, right, right_factor)?;
    Ok(Combo::lowest(sum))
}
