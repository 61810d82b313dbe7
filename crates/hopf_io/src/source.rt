//! Sources of bytes.
ghost use Rattle.std.specs.Prelude.{◌≡◌, ℕ, ◌<◌, List, Option, length, IsOk};
ghost use Rattle.std.specs.Io.{ReadsAtMost};
ghost use Rattle.std.specs.Io.KnownBytes.{ReadConsumes};
ghost use Rattle.hopf_io.specs.Faults.{HasCause, Counts};

use thiserror::Error;

/// A call of a source or a sink failed, and its count of faults rose.
#[derive(Clone, Copy, Debug, PartialEq, Eq, Error)]
#[error("a source or a sink failed")]
pub struct Failed;

/// What bytes are read from.
pub trait Source {
    /// The bytes that are left to read, where the source tells them.
    ghost left: { Self → Option (List ℕ) };

    /// How many calls have failed, up to 2^64 - 1.
    ghost faults: { Self → ℕ };

    /// How many bytes reads have given, up to 2^64 - 1.
    ghost given: { Self → ℕ };

    /// The source tells that no read fails.
    ghost steady: { Self → Type 0 };

    /// How many calls have failed. The count never falls, and stops at 2^64 - 1.
    fn faults(&self) -> u64
        ensures { result ≡ faults self.now };

    /// How many bytes reads have given. The count stops at 2^64 - 1.
    fn given(&self) -> u64
        ensures { result ≡ given self.now };

    /// Reads the front of what is left into the buffer, and answers how many bytes these are.
    ///
    /// It answers 0 exactly where nothing is left. After `Failed` what is left is as it was.
    fn read(&mut self, buf: &mut [u8]) -> Result<usize, Failed>
        requires { 0 < length buf.old }
        ensures bound { ReadsAtMost result buf.new }
        ensures bytes { ReadConsumes (left self.old) (left self.new) result buf.new }
        ensures given { Counts (given self.old) (given self.new) result }
        ensures cause { HasCause (faults self.old) (faults self.new) result }
        ensures steady_ok { steady self.old → IsOk result }
        ensures steady_kept { steady self.old → steady self.new };
}
