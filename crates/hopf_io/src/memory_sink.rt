//! A sink in memory.
ghost use Rattle.std.specs.Prelude.{◌≡◌, ◌-◌, ◌≤◌, [], length, vec_len, vec_capacity, IfOk};
ghost use Rattle.hopf_io.specs.Memory.{SinkState};

use crate::{Calls, Failed, Sink};
use hopf_num::OutOfMemory;
use std::alloc::Global;
use std::marker::Model;

/// Takes bytes as far as its reserved capacity goes, and fails at the calls that it was told to
/// fail at.
///
/// It is steady exactly where there is no such call, and its room is what the capacity still holds.
/// It counts its `write` and `flush` calls together from 1 up to 2^64 - 1. A `write` takes as much
/// as the room holds, and fails where that is nothing.
#[derive(Drop)]
pub struct MemorySink {
    taken: Vec<u8>,
    capacity: usize,
    flushed: usize,
    failing: Calls,
    calls: u64,
    faults: u64,
}

impl Model for MemorySink {
    ghost use Rattle.std.specs.Prelude.{◌-◌, ◌≤◌, vec_len, vec_capacity};
    ghost use Rattle.hopf_io.specs.Memory.{SinkState, IsReserved};

    ghost Value = { SinkState };

    ghost view = { λ s. record { taken = s.taken.items; room = s.capacity - vec_len s.taken; flushed = s.flushed; failing = s.failing; calls = s.calls; faults = s.faults } };

    ghost invariant = { λ s. IsReserved (vec_len s.taken) s.capacity (vec_capacity s.taken) };
}

impl MemorySink {
    /// A sink with a reserved capacity of so many bytes, which fails at these calls.
    pub fn new(alloc: Global, capacity: usize, failing: Calls) -> Result<MemorySink, OutOfMemory>
        ensures { IfOk result (λ sink. sink ≡ record { taken = []; room = capacity; flushed = 0; failing = failing; calls = 0; faults = 0 }) }
    {
        Ok(MemorySink {
            taken: Vec::with_capacity(alloc, capacity)?,
            capacity,
            flushed: 0,
            failing,
            calls: 0,
            faults: 0,
        })
    }

    /// The bytes that were taken.
    pub fn taken(&self) -> &[u8]
        ensures { result.now ≡ self.now.taken }
    {
        self.taken.as_slice()
    }
}

impl Sink for MemorySink {
    ghost use Rattle.std.specs.Prelude.{◌↔◌, ◌<◌, ◌⊎◌, Some, min, Contains, IsErr, OnOk};
    ghost use Rattle.std.specs.Io.KnownBytes.{WriteAppends, Keeps};
    ghost use Rattle.hopf_io.specs.Faults.{HasCause, next_call};
    ghost use Rattle.hopf_io.specs.Steady.{SendsSteadily, WritesSteadily};
    ghost use Rattle.hopf_io.specs.Memory.{steady_room};

    ghost taken = { λ s. Some s.taken };

    ghost faults = { λ s. s.faults };

    ghost room = { λ s. steady_room s };

    ghost flushed = { λ s. s.flushed ≡ length s.taken };

    fn faults(&self) -> u64 {
        self.faults
    }

    fn write(&mut self, bytes: &[u8]) -> Result<usize, Failed>
        requires { 0 < length bytes.now }
        ensures some { IfOk result (λ n. 0 < n) }
        ensures bound { IfOk result (λ n. n ≤ length bytes.now) }
        ensures bytes { WriteAppends (Some self.old.taken) (Some self.new.taken) result bytes.now }
        ensures cause { HasCause self.old.faults self.new.faults result }
        ensures steady { WritesSteadily (steady_room self.old) (steady_room self.new) result }

        // Beside what each sink promises: which calls fail, and how much the others take.
        ensures counted { self.new.calls ≡ next_call self.old.calls }
        ensures failing { self.new.failing ≡ self.old.failing }
        ensures fails { IsErr result ↔ (Contains self.old.failing (next_call self.old.calls) ⊎ (self.old.room ≡ 0)) }
        ensures full { IfOk result (λ n. n ≡ min (length bytes.now) self.old.room) }
    {
        self.calls = self.calls.saturating_add(1);
        let room = self.capacity - self.taken.len();
        if room == 0 || self.failing.contains(self.calls) {
            self.faults = self.faults.saturating_add(1);
            return Err(Failed);
        }
        let count = room.min(bytes.len());
        match self.taken.extend_from_slice(&bytes[..count]) {
            Ok(()) => Ok(count),
            Err(_) => unreachable!(),
        }
    }

    fn flush(&mut self) -> Result<(), Failed>
        ensures bytes { Keeps (Some self.old.taken) (Some self.new.taken) }
        ensures cause { HasCause self.old.faults self.new.faults result }
        ensures steady { SendsSteadily (steady_room self.old) (steady_room self.new) 0 result }
        ensures flushed { OnOk result (self.new.flushed ≡ length self.new.taken) }

        // Beside what each sink promises: which calls fail.
        ensures counted { self.new.calls ≡ next_call self.old.calls }
        ensures failing { self.new.failing ≡ self.old.failing }
        ensures fails { IsErr result ↔ Contains self.old.failing (next_call self.old.calls) }
    {
        self.calls = self.calls.saturating_add(1);
        if self.failing.contains(self.calls) {
            self.faults = self.faults.saturating_add(1);
            return Err(Failed);
        }
        self.flushed = self.taken.len();
        Ok(())
    }
}
