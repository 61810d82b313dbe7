//! A source in memory.
ghost use Rattle.std.specs.Prelude.{◌≡◌, ◌≤◌, [], length, min, take, drop};
ghost use Rattle.hopf_io.specs.Memory.{SourceState};

use crate::{Bytes, Calls, Failed, Source};
use std::alloc::Global;
use std::marker::Model;

/// Gives its input, and fails at the calls that it was told to fail at.
///
/// It is steady exactly where there is no such call. It counts its `read` calls from 1 up to
/// 2^64 - 1. A `read` that does not fail gives as many bytes as the buffer holds, or all that is
/// left where that is less.
#[derive(Drop)]
pub struct MemorySource {
    input: Bytes,
    at: usize,
    failing: Calls,
    calls: u64,
    faults: u64,
    given: u64,
}

impl Model for MemorySource {
    ghost Value = { SourceState };

    ghost view = { λ s. record { left = drop s.at s.input; failing = s.failing; calls = s.calls; faults = s.faults; given = s.given } };

    ghost invariant = { λ s. s.at ≤ length s.input };
}

impl MemorySource {
    /// A source that gives this input and fails at these calls. It takes no memory.
    pub fn new(_alloc: Global, input: Bytes, failing: Calls) -> MemorySource
        ensures { result ≡ record { left = input; failing = failing; calls = 0; faults = 0; given = 0 } }
    {
        MemorySource {
            input,
            at: 0,
            failing,
            calls: 0,
            faults: 0,
            given: 0,
        }
    }
}

// Copies as many bytes as both have.
fn copy_front(to: &mut [u8], from: &[u8]) -> usize
    ensures count { result ≡ min (length to.old) (length from.now) }
    ensures front { take result to.new ≡ take result from.now }
    ensures len { length to.new ≡ length to.old }
{
    let count = from.len().min(to.len());
    to[..count].copy_from_slice(&from[..count]);
    count
}

impl Source for MemorySource {
    ghost use Rattle.std.specs.Prelude.{◌↔◌, ◌<◌, Some, Contains, IsOk, IsErr, IfOk};
    ghost use Rattle.std.specs.Io.{ReadsAtMost};
    ghost use Rattle.std.specs.Io.KnownBytes.{ReadConsumes};
    ghost use Rattle.hopf_io.specs.Faults.{HasCause, Counts, next_call};

    ghost left = { λ s. Some s.left };

    ghost faults = { λ s. s.faults };

    ghost given = { λ s. s.given };

    ghost steady = { λ s. s.failing ≡ [] };

    fn faults(&self) -> u64 {
        self.faults
    }

    fn given(&self) -> u64 {
        self.given
    }

    fn read(&mut self, buf: &mut [u8]) -> Result<usize, Failed>
        requires { 0 < length buf.old }
        ensures bound { ReadsAtMost result buf.new }
        ensures bytes { ReadConsumes (Some self.old.left) (Some self.new.left) result buf.new }
        ensures given { Counts self.old.given self.new.given result }
        ensures cause { HasCause self.old.faults self.new.faults result }
        ensures steady_ok { self.old.failing ≡ [] → IsOk result }
        ensures steady_kept { self.old.failing ≡ [] → self.new.failing ≡ [] }

        // Beside what each source promises: which calls fail, and how much the others give.
        ensures counted { self.new.calls ≡ next_call self.old.calls }
        ensures failing { self.new.failing ≡ self.old.failing }
        ensures fails { IsErr result ↔ Contains self.old.failing (next_call self.old.calls) }
        ensures full { IfOk result (λ n. n ≡ min (length buf.old) (length self.old.left)) }
    {
        self.calls = self.calls.saturating_add(1);
        if self.failing.contains(self.calls) {
            self.faults = self.faults.saturating_add(1);
            return Err(Failed);
        }
        let count = copy_front(buf, &self.input.as_slice()[self.at..]);
        self.at += count;
        self.given = self.given.saturating_add(count as u64);
        Ok(count)
    }
}
