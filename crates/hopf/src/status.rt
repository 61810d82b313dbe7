//! Statuses of the program, and their lines on the error sink.
ghost use Rattle.std.specs.Prelude.{◌≡◌, ℕ, ◌≤◌, length, Some};
ghost use Rattle.std.specs.Io.KnownBytes.{Appends};
ghost use Rattle.hopf_io.specs.Faults.{Rose};
ghost use Rattle.hopf_io.specs.Prefixes.{AppendsPrefix};
ghost use Rattle.hopf.specs.Statuses.{code_of, status_line};

use hopf_io::{Sink, send_all};

/// How a run ended.
#[derive(Clone, Copy, Debug, PartialEq, Eq)]
pub enum Status {
    /// The input was read to its end, and no statement was refused.
    Ok,
    /// The input was read to its end, and some statement was refused.
    Refused,
    /// The words are no command.
    Usage,
    /// The input failed.
    ReadFault,
    /// The output failed.
    WriteFault,
    /// Memory ran out.
    Memory,
    /// The input is longer than 67,108,864 bytes.
    InputLimit,
}

impl Status {
    /// The exit status, from 0 to 6 in the order of the variants. It takes no memory.
    pub fn code(&self) -> u8
        ensures { result ≡ code_of self.now }
    {
        *self as u8
    }
}

fn line_of(status: Status) -> &'static str
    ensures { result.now ≡ status_line status }
{
    match status {
        Status::Ok | Status::Refused => "",
        Status::Usage => "usage: hopf run\n",
        Status::ReadFault => "hopf: read failed\n",
        Status::WriteFault => "hopf: write failed\n",
        Status::Memory => "hopf: out of memory\n",
        Status::InputLimit => "hopf: input is too long\n",
    }
}

/// Writes the line of a status to the error sink, and flushes it. A fault of this sink is passed over:
/// where none was counted, the whole line was written and is flushed.
pub fn report<E: Sink>(status: Status, err: &mut E)
    ensures prefix { AppendsPrefix (E.taken err.old) (E.taken err.new) (status_line status) }
    ensures whole { (Rose (E.faults err.old) (E.faults err.new) → ⊥) → Appends (E.taken err.old) (E.taken err.new) (status_line status) }
    ensures flushed { (Rose (E.faults err.old) (E.faults err.new) → ⊥) → E.flushed err.new }
    ensures steady { (n : ℕ) → E.room err.old ≡ Some n → length (status_line status) ≤ n → Appends (E.taken err.old) (E.taken err.new) (status_line status) }
{
    let line = line_of(status).as_bytes();
    if send_all(err, line).is_ok() {
        let _ = err.flush();
    }
}
