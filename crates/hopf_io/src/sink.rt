//! Sinks of bytes.
ghost use Rattle.std.specs.Prelude.{◌≡◌, ℕ, ◌<◌, ◌≤◌, List, Option, length, IfOk, OnOk, OnErr};
ghost use Rattle.std.specs.Io.KnownBytes.{WriteAppends, Appends, Keeps};
ghost use Rattle.hopf_io.specs.Faults.{HasCause};
ghost use Rattle.hopf_io.specs.Prefixes.{AppendsPrefix};
ghost use Rattle.hopf_io.specs.Steady.{WritesSteadily, SendsSteadily};

use crate::Failed;

/// What bytes are written to.
pub trait Sink {
    /// The bytes that the sink has taken, where it tells them.
    ghost taken: { Self → Option (List ℕ) };

    /// How many calls have failed, up to 2^64 - 1.
    ghost faults: { Self → ℕ };

    /// The room in bytes of a sink that tells that it is steady.
    ghost room: { Self → Option ℕ };

    /// Since the sink took its last byte, a flush has answered `Ok`.
    ghost flushed: { Self → Type 0 };

    /// How many calls have failed. The count never falls, and stops at 2^64 - 1.
    fn faults(&self) -> u64
        ensures { result ≡ faults self.now };

    /// Takes a prefix of the bytes, at least one of them, and answers how many it took.
    ///
    /// After `Failed` what was taken is as it was.
    fn write(&mut self, bytes: &[u8]) -> Result<usize, Failed>
        requires { 0 < length bytes.now }
        ensures some { IfOk result (λ n. 0 < n) }
        ensures bound { IfOk result (λ n. n ≤ length bytes.now) }
        ensures bytes { WriteAppends (taken self.old) (taken self.new) result bytes.now }
        ensures cause { HasCause (faults self.old) (faults self.new) result }
        ensures steady { WritesSteadily (room self.old) (room self.new) result };

    /// Passes on what was taken, and takes nothing.
    fn flush(&mut self) -> Result<(), Failed>
        ensures bytes { Keeps (taken self.old) (taken self.new) }
        ensures cause { HasCause (faults self.old) (faults self.new) result }
        ensures steady { SendsSteadily (room self.old) (room self.new) 0 result }
        ensures flushed { OnOk result (flushed self.new) };
}

/// Writes all the bytes, or a prefix of them where the sink fails.
///
/// On a steady sink with room for them it answers `Ok`. It calls `write` at most once for each byte.
pub fn send_all<S: Sink>(sink: &mut S, bytes: &[u8]) -> Result<(), Failed>
    ensures all { OnOk result (Appends (S.taken sink.old) (S.taken sink.new) bytes.now) }
    ensures part { OnErr result (AppendsPrefix (S.taken sink.old) (S.taken sink.new) bytes.now) }
    ensures cause { HasCause (S.faults sink.old) (S.faults sink.new) result }
    ensures steady { SendsSteadily (S.room sink.old) (S.room sink.new) (length bytes.now) result }
{
    let mut sent = 0;
    while sent < bytes.len() {
        sent += sink.write(&bytes[sent..])?;
    }
    Ok(())
}
