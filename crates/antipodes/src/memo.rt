//! Antipodes that were found before.
ghost use Rattle.std.specs.Prelude.{◌≡◌, ◌≤◌, [], length, MatchOption};
ghost use Rattle.antipode_laws.specs.Recursion.{IsAntipodeOf};

use basis_names::BasisId;
use hopf_num::OutOfMemory;
use linear_combos::{Code, Combo};
use std::alloc::Global;
use std::cmp::Ordering;

// The antipode of an index.
#[derive(Drop)]
struct Entry {
    basis: BasisId,
    code: Code,
    antipode: Combo,
    ghost found: { ∥ IsAntipodeOf basis code antipode ∥₁ },
}

impl Entry {
    // Whether it comes before the antipode of an index.
    fn is_before(&self, basis: BasisId, code: &Code) -> bool {
        match self.code.cmp(code) {
            Ordering::Less => true,
            Ordering::Equal => (self.basis as u8) < basis as u8,
            Ordering::Greater => false,
        }
    }
}

/// Antipodes of indices, of one basis or of several, kept for later calls.
///
/// Each of them is looked up by a binary search among their codes, and keeping one moves those that come after
/// it. Whatever it holds, what it answers of an index is its antipode; so it stays of use after want of memory,
/// when it holds what was found before.
#[derive(Drop)]
pub struct Memo {
    entries: Vec<Entry>,
}

impl Memo {
    /// No antipodes. It takes no memory.
    pub fn new(alloc: Global) -> Memo
        ensures { result.entries.items ≡ [] }
    {
        Memo {
            entries: Vec::new(alloc),
        }
    }

    // The place of the first antipode that does not come before that of an index.
    fn place(&self, basis: BasisId, code: &Code) -> usize
        ensures { result ≤ length self.now.entries.items }
    {
        let mut low = 0;
        let mut high = self.entries.len();
        while low < high {
            let mid = low + (high - low) / 2;
            if self.entries[mid].is_before(basis, code) {
                low = mid + 1;
            } else {
                high = mid;
            }
        }
        low
    }

    // The antipode of an index, where it is kept.
    pub(crate) fn find(&self, basis: BasisId, code: &Code) -> Option<&Combo>
        ensures { MatchOption result (Unit {0}) (λ c. ∥ IsAntipodeOf basis code.now c.now ∥₁) }
    {
        let at = self.place(basis, code);
        if at == self.entries.len() {
            return None;
        }
        let entry = &self.entries[at];
        if entry.basis != basis || entry.code != *code {
            return None;
        }
        Some(&entry.antipode)
    }

    // Keeps the antipode of an index.
    pub(crate) fn keep(
        &mut self,
        basis: BasisId,
        code: &Code,
        antipode: Combo,
    ) -> Result<(), OutOfMemory>
        requires { IsAntipodeOf basis code.now antipode }
    {
        let at = self.place(basis, code);
        self.entries.insert(
            at,
            Entry {
                basis,
                code: *code,
                antipode,
            },
        )?;
        Ok(())
    }
}
