//! Lists of calls.
ghost use Rattle.std.specs.Prelude.{◌≡◌, ◌++◌, ◌∷◌, [], ℕ, List, OnOk, OnErr};

use hopf_num::OutOfMemory;
use std::alloc::Global;
use std::marker::Model;

/// Numbers of calls, counted from 1: those at which a source or a sink in memory is to fail.
#[derive(Drop)]
pub struct Calls {
    numbers: Vec<u64>,
}

impl Model for Calls {
    ghost Value = { List ℕ };

    ghost view = { λ c. c.numbers.items };
}

impl Calls {
    ghost use Rattle.std.specs.Prelude.{◌↔◌, IsTrue, Contains};

    /// No call. It takes no memory.
    pub fn none(alloc: Global) -> Calls
        ensures { result ≡ [] }
    {
        Calls {
            numbers: Vec::new(alloc),
        }
    }

    /// Adds the number of a call. An error leaves the calls as they were.
    pub fn push(&mut self, call: u64) -> Result<(), OutOfMemory>
        ensures ok { OnOk result (self.new ≡ self.old ++ call ∷ []) }
        ensures err { OnErr result (self.new ≡ self.old) }
    {
        self.numbers.push(call)?;
        Ok(())
    }

    /// Whether the call is one of these.
    pub fn contains(&self, call: u64) -> bool
        ensures { IsTrue result ↔ Contains self.now call }
    {
        self.numbers.contains(&call)
    }
}
