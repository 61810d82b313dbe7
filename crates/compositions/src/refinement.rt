//! Descent sets, and the refinement order of compositions.
ghost use Rattle.std.specs.Prelude.{◌≡◌, IfOk, IsTrue};
ghost use Rattle.linear_combos.specs.CodeLists.{ListsEach};
ghost use Rattle.realisations.specs.Descents.{descent_set, is_finer};
ghost use Rattle.realisations.specs.IndexKinds.{IsComposition};
ghost use Rattle.realisations.specs.Lists.{is_among as is_one_of, is_subset as are_among};

use crate::Composition;
use crate::growth::{Place, compositions_over};
use hopf_num::OutOfMemory;
use linear_combos::{Code, Codes};
use std::alloc::Global;

// Whether a number is in a list.
fn is_among(number: u8, numbers: &Code) -> bool
    ensures { result ≡ is_one_of number numbers.now }
{
    for at in 0..numbers.len() {
        if numbers.letter(at) == number {
            return true;
        }
    }
    false
}

// Whether each number of a list is in another one.
fn is_subset(numbers: &Code, others: &Code) -> bool
    ensures { result ≡ are_among numbers.now others.now }
{
    for at in 0..numbers.len() {
        if !is_among(numbers.letter(at), others) {
            return false;
        }
    }
    true
}

impl Composition {
    /// The descent set in rising order: the sums of the first parts, of one, of two and so on, without
    /// the whole sum. It takes no memory.
    pub fn descents(&self) -> Code
        ensures { result ≡ descent_set self.now }
    {
        let parts = self.code();
        let mut places = Code::empty();
        let mut total = 0;
        for at in 0..parts.len().saturating_sub(1) {
            total += parts.letter(at);
            places = places.with(total);
        }
        places
    }

    /// Whether this composition is finer than the other one or equal to it: the sizes are the same, and
    /// each descent of the other one is one of this. It takes no memory.
    pub fn finer(&self, than: &Composition) -> bool
        ensures { result ≡ is_finer self.now than.now }
    {
        if self.size() != than.size() {
            return false;
        }
        let fine = self.descents();
        let coarse = than.descents();
        is_subset(&coarse, &fine)
    }

    /// The compositions finer than this one or equal to it, each once, in canonical order.
    ///
    /// Of size n and r parts it has 2^(n - r). The cost grows with the answer.
    pub fn refinements(&self, alloc: Global) -> Result<Codes, OutOfMemory>
        ensures { IfOk result (ListsEach (λ code. IsComposition code × IsTrue (is_finer code self.now))) }
    {
        compositions_over(alloc, Place::Cut, Place::Free, self.code())
    }

    /// The compositions coarser than this one or equal to it, each once, in canonical order.
    ///
    /// Of r parts, at least one, it has 2^(r - 1). The cost grows with the answer.
    pub fn coarsenings(&self, alloc: Global) -> Result<Codes, OutOfMemory>
        ensures { IfOk result (ListsEach (λ code. IsComposition code × IsTrue (is_finer self.now code))) }
    {
        compositions_over(alloc, Place::Free, Place::Joined, self.code())
    }
}
