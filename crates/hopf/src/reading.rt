//! Reads the whole input.
ghost use Rattle.std.specs.Prelude.{◌≡◌, ◌+◌, ◌-◌, ◌^◌, ◌<◌, ◌≤◌, ◌↔◌, length, IfOk, OnOk, IfSome, IsErrOf};
ghost use Rattle.std.specs.Io.KnownBytes.{Consumes, IsAtEnd};
ghost use Rattle.hopf_io.specs.Faults.{Rose};

use hopf_io::{Bytes, Source};
use std::alloc::Global;

/// The most bytes of input.
pub const INPUT_LIMIT: usize = 67_108_864;

const BUFFER: usize = 4096;

/// Why the input was not read to its end.
#[derive(Clone, Copy, Debug, PartialEq, Eq)]
pub enum ReadEnd {
    Failed,
    Memory,
    TooLong,
}

/// Reads until nothing is left, or more bytes came than the limit allows.
///
/// Each turn but the last takes at least one byte, so there are at most as many turns as the limit
/// has bytes, and one.
pub fn read_all<I: Source>(alloc: Global, input: &mut I) -> Result<Bytes, ReadEnd>
    requires { I.given input.old < 2 ^ 63 }
    ensures all { IfOk result (λ bytes. Consumes (I.left input.old) (I.left input.new) bytes) }
    ensures end { OnOk result (IsAtEnd (I.left input.new)) }
    ensures size { IfOk result (λ bytes. length bytes ≤ INPUT_LIMIT) }
    ensures later { I.faults input.old ≤ I.faults input.new }
    ensures failed { IsErrOf result ReadEnd.Failed → Rose (I.faults input.old) (I.faults input.new) }
    ensures long { IsErrOf result ReadEnd.TooLong ↔ (I.given input.old + INPUT_LIMIT < I.given input.new) }
    ensures long_left { IsErrOf result ReadEnd.TooLong → IfSome (I.left input.old) (λ b. INPUT_LIMIT < length b) }
    ensures steady { I.steady input.old → IsErrOf result ReadEnd.Failed → ⊥ }
{
    let mut bytes = Bytes::new(alloc);
    let mut buffer = [0; BUFFER];
    let mut total = 0;
    loop {
        let count = match input.read(&mut buffer) {
            Ok(count) => count,
            Err(_) => return Err(ReadEnd::Failed),
        };
        if count == 0 {
            return Ok(bytes);
        }
        if count > INPUT_LIMIT - total {
            return Err(ReadEnd::TooLong);
        }
        if bytes.push_all(&buffer[..count]).is_err() {
            return Err(ReadEnd::Memory);
        }
        total += count;
    }
}
