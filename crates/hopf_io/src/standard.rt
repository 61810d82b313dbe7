//! The standard streams: the trusted edge, of whose content nothing is told.
ghost use Rattle.std.specs.Prelude.{◌≡◌, ◌<◌, ◌≤◌, ◌+◌, ◌^◌, min, length, true, None, IfOk};
ghost use Rattle.std.specs.Io.{ReadsAtMost};
ghost use Rattle.std.specs.Io.KnownBytes.{ReadConsumes, WriteAppends};
ghost use Rattle.hopf_io.specs.Faults.{Rose};

use crate::{Failed, Sink, Source};
use std::io;
use std::io::{ErrorKind, Read, Write};

// Counts a fault.
fn count_fault(faults: &mut u64) -> Failed
    ensures later { faults.old ≤ faults.new }
    ensures rose { Rose faults.old faults.new }
{
    *faults = faults.saturating_add(1);
    Failed
}

// Reads once, and again where a signal interrupted the call.
fn read_uninterrupted<R: Read>(reader: &mut R, buf: &mut [u8]) -> io::Result<usize>
    ensures bound { ReadsAtMost result buf.new }
    ensures bytes { ReadConsumes (R.remaining reader.old) (R.remaining reader.new) result buf.new }
{
    for _ in 0..u64::MAX {
        match reader.read(buf) {
            Ok(count) => return Ok(count),
            Err(error) => {
                if error.kind() != ErrorKind::Interrupted {
                    return Err(error);
                }
            }
        }
    }
    Err(io::Error::from(ErrorKind::Interrupted))
}

// Writes once, and again where a signal interrupted the call.
fn write_uninterrupted<W: Write>(writer: &mut W, bytes: &[u8]) -> io::Result<usize>
    ensures bound { IfOk result (λ n. n ≤ length bytes.now) }
    ensures bytes { WriteAppends (W.contents writer.old) (W.contents writer.new) result bytes.now }
{
    for _ in 0..u64::MAX {
        match writer.write(bytes) {
            Ok(count) => return Ok(count),
            Err(error) => {
                if error.kind() != ErrorKind::Interrupted {
                    return Err(error);
                }
            }
        }
    }
    Err(io::Error::from(ErrorKind::Interrupted))
}

/// The standard input of a runtime. It tells what the runtime's reader tells of its content, which is
/// nothing for the real one, and it does not tell that it is steady.
#[derive(Drop)]
pub struct StdSource<R: Input> {
    reader: R::Reader,
    faults: u64,
    given: u64,
}

impl<R: Input> StdSource<R> {
    /// The standard input of a runtime, with no byte given and no fault counted.
    ///
    /// What a runtime's reader tells of its content no clause of the standard library says, so none
    /// says here what is left to read.
    pub fn new(rt: &R) -> StdSource<R>
        ensures given { result.given ≡ 0 }
        ensures faults { result.faults ≡ 0 }
    {
        StdSource {
            reader: rt.reader(),
            faults: 0,
            given: 0,
        }
    }
}

impl<R: Input> Source for StdSource<R> {
    ghost left = { λ s. R.Reader.remaining s.reader };

    ghost faults = { λ s. s.faults };

    ghost given = { λ s. s.given };

    ghost steady = { λ _. ⊥ };

    fn faults(&self) -> u64 {
        self.faults
    }

    fn given(&self) -> u64 {
        self.given
    }

    fn read(&mut self, buf: &mut [u8]) -> Result<usize, Failed> {
        match read_uninterrupted(&mut self.reader, buf) {
            Ok(count) => {
                self.given = self.given.saturating_add(count as u64);
                Ok(count)
            }
            Err(_) => Err(count_fault(&mut self.faults)),
        }
    }
}

/// A writer of the standard library, such as standard output or standard error. It tells what the
/// writer tells of its content, which is nothing for the real ones, and it does not tell that it is
/// steady.
#[derive(Drop)]
pub struct StdSink<W: Write> {
    writer: W,
    is_flushed: bool,
    faults: u64,
}

impl<W: Write + Drop> StdSink<W> {
    /// A sink over a writer, with no fault counted. It has written nothing: what the writer tells of
    /// its content is as it was, and no byte waits for a flush of this sink.
    pub fn new(writer: W) -> StdSink<W>
        ensures over { result.writer ≡ writer }
        ensures taken { W.contents result.writer ≡ W.contents writer }
        ensures flushed { result.is_flushed ≡ true }
        ensures faults { result.faults ≡ 0 }
    {
        StdSink {
            writer,
            is_flushed: true,
            faults: 0,
        }
    }
}

impl<W: Write + Drop> Sink for StdSink<W> {
    ghost taken = { λ s. W.contents s.writer };

    ghost faults = { λ s. s.faults };

    ghost room = { λ _. None };

    ghost flushed = { λ s. s.is_flushed ≡ true };

    fn faults(&self) -> u64 {
        self.faults
    }

    // A write that takes nothing of these bytes is a fault, too.
    fn write(&mut self, bytes: &[u8]) -> Result<usize, Failed> {
        match write_uninterrupted(&mut self.writer, bytes) {
            Ok(0) => Err(count_fault(&mut self.faults)),
            Ok(count) => {
                self.is_flushed = false;
                Ok(count)
            }
            Err(_) => Err(count_fault(&mut self.faults)),
        }
    }

    fn flush(&mut self) -> Result<(), Failed> {
        match self.writer.flush() {
            Ok(()) => {
                self.is_flushed = true;
                Ok(())
            }
            Err(_) => Err(count_fault(&mut self.faults)),
        }
    }
}
