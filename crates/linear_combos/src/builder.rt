//! A builder of combinations: terms are pushed in any order, and gathered by sorting.
ghost use Rattle.std.specs.Prelude.{◌≡◌, ◌+◌, ◌^◌, ◌<◌, ◌≤◌, [], length, OnOk, OnErr, unsigned_abs};
ghost use Rattle.realisations.specs.Combinations.{AddsTerm, norm_of};
ghost use Rattle.linear_combos.specs.Combos.{IsSumOfTerms};
ghost use Rattle.linear_combos.specs.Gathering.{WeighsTheSame};

use crate::gather::{gather, norm};
use crate::{Combo, Key};
use hopf_num::OutOfMemory;
use std::alloc::Global;
use std::marker::Model;

// So many terms are pushed before they are gathered for the first time.
const FEW_TERMS: usize = 1024;

/// A combination over 1 in the making: terms of one rank, pushed in any order.
///
/// It holds no more than about twice the terms of their sum, since they are gathered whenever there are
/// twice as many as after the last time.
#[derive(Drop)]
pub struct ComboBuilder {
    rank: u32,
    norm: u128,
    limit: usize,
    terms: Vec<(i128, Key)>,
}

impl Model for ComboBuilder {
    ghost use Rattle.realisations.specs.Combinations.{Combination};
    ghost use Rattle.linear_combos.specs.Gathering.{IsPushed};

    ghost Value = { Combination };

    ghost view = { λ b. record { rank = b.rank; den = 1; terms = b.terms.items } };

    ghost invariant = { λ b. IsPushed b.rank b.terms.items b.norm };
}

impl ComboBuilder {
    /// No terms yet. It takes no memory.
    pub fn new(alloc: Global, rank: u32) -> ComboBuilder
        ensures { result ≡ record { rank = rank; den = 1; terms = [] } }
    {
        ComboBuilder {
            rank,
            norm: 0,
            limit: FEW_TERMS,
            terms: Vec::new(alloc),
        }
    }

    /// Adds the numerator times the key, where there is room.
    ///
    /// An error leaves the builder as it was. The cost is that of a push, and from time to time that of a
    /// sort.
    pub fn push(&mut self, num: i128, key: Key) -> Result<(), OutOfMemory>
        requires rank { length key ≡ self.old.rank }
        requires room { norm_of self.old.terms + unsigned_abs num < 2 ^ 127 }
        ensures adds { OnOk result (AddsTerm self.old.terms self.new.terms num key) }
        ensures norm { norm_of self.new.terms ≤ norm_of self.old.terms + unsigned_abs num }
        ensures same_rank { self.new.rank ≡ self.old.rank }
        ensures same_den { self.new.den ≡ self.old.den }
        ensures err { OnErr result (self.new ≡ self.old) }
    {
        self.terms.push((num, key))?;
        self.norm += num.unsigned_abs();
        self.gather_where_full();
        Ok(())
    }

    // Gathers the terms where there are as many as the limit.
    fn gather_where_full(&mut self)
        ensures { WeighsTheSame self.old self.new }
    {
        if self.terms.len() < self.limit {
            return;
        }
        gather(&mut self.terms);
        self.norm = norm(&self.terms);
        self.limit = FEW_TERMS.max(self.terms.len().saturating_mul(2));
    }

    /// The sum of the terms.
    ///
    /// It takes no memory. The cost is a sort and one pass; terms that were pushed in order are not
    /// sorted.
    pub fn finish(self) -> Combo
        ensures { IsSumOfTerms self.rank self.terms result }
    {
        let ComboBuilder {
            rank,
            mut terms,
            ..
        } = self;
        gather(&mut terms);
        let norm = norm(&terms);
        Combo::whole(rank, norm, terms)
    }
}
