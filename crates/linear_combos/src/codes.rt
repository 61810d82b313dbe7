//! Lists of codes.
ghost use Rattle.std.specs.Prelude.{◌≡◌, ◌<◌, ◌++◌, ◌∷◌, [], ℕ, List, length, slice_index_or, OnOk, OnErr};
ghost use Rattle.std.specs.List.Sorted.{IsPermutation, IsSorted};
ghost use Rattle.std.specs.Ordering.{nat_cmp};
ghost use Rattle.std.specs.Cmp.Lexicographic.{slice_cmp};

use crate::Code;
use hopf_num::OutOfMemory;
use std::alloc::Global;
use std::marker::Model;

/// A list of codes.
#[derive(Drop)]
pub struct Codes {
    items: Vec<Code>,
}

impl Model for Codes {
    ghost Value = { List (List ℕ) };

    ghost view = { λ c. c.items.items };
}

impl Codes {
    /// No codes. It takes no memory.
    pub fn new(alloc: Global) -> Codes
        ensures { result ≡ [] }
    {
        Codes {
            items: Vec::new(alloc),
        }
    }

    /// Adds a code at the end. An error leaves the list as it was.
    pub fn push(&mut self, code: Code) -> Result<(), OutOfMemory>
        ensures ok { OnOk result (self.new ≡ self.old ++ code ∷ []) }
        ensures err { OnErr result (self.new ≡ self.old) }
    {
        self.items.push(code)?;
        Ok(())
    }

    /// Brings the codes into canonical order, each as often as before. It takes no memory. The cost is that
    /// of a sort; codes in order already are only looked at.
    pub fn sort(&mut self)
        ensures permutation { IsPermutation self.old self.new }
        ensures sorted { IsSorted (slice_cmp nat_cmp) self.new }
    {
        self.items.sort_unstable();
    }

    /// How many codes there are.
    pub fn len(&self) -> usize
        ensures { result ≡ length self.now }
    {
        self.items.len()
    }

    /// The code at a place, counted from 0.
    pub fn at(&self, index: usize) -> &Code
        requires { index < length self.now }
        ensures { result.now ≡ slice_index_or self.now index result.now }
    {
        &self.items[index]
    }
}
