//! The top call.
ghost use Rattle.std.specs.Prelude.{◌≡◌, ℕ, ◌+◌, ◌^◌, ◌<◌, ◌≤◌, ◌↔◌, [], length, Some, IfSome, map, string_bytes, true, false, ◌⊎◌};
ghost use Rattle.std.specs.Io.KnownBytes.{Appends};
ghost use Rattle.hopf_io.specs.Faults.{Rose};
ghost use Rattle.hopf_io.specs.Prefixes.{AppendsPrefix};
ghost use Rattle.hopf.specs.Runs.{WritesTranscript, WritesPrefix, HasRoom};
ghost use Rattle.hopf.specs.Statuses.{IsDone, IsStopped, status_line};
ghost use Rattle.hopf.specs.Words.{is_command as is_command_of};

use crate::reading::{INPUT_LIMIT, ReadEnd, read_all};
use crate::session::{Session, SessionFault};
use crate::status::{Status, report};
use crate::words::is_command;
use hopf_io::{Sink, Source};
use std::alloc::Global;

// Runs the session of the input.
fn run_session<I: Source, O: Sink>(alloc: Global, input: &mut I, out: &mut O) -> Status
    requires { I.given input.old < 2 ^ 63 }
    ensures not_usage { result ≡ Status.Usage → ⊥ }
    ensures whole { IsDone result → IfSome (I.left input.old) (λ b. WritesTranscript result b (O.taken out.old) (O.taken out.new)) }
    ensures read { IsDone result → IfSome (I.left input.old) (λ b. I.left input.new ≡ Some []) }
    ensures flushed { IsDone result → O.flushed out.new }
    ensures prefix { IsStopped result → IfSome (I.left input.old) (λ b. WritesPrefix b (O.taken out.old) (O.taken out.new)) }
    ensures read_fault { result ≡ Status.ReadFault → Rose (I.faults input.old) (I.faults input.new) }
    ensures write_fault { result ≡ Status.WriteFault → Rose (O.faults out.old) (O.faults out.new) }
    ensures limit { (result ≡ Status.InputLimit) ↔ (I.given input.old + INPUT_LIMIT < I.given input.new) }
    ensures limit_left { result ≡ Status.InputLimit → IfSome (I.left input.old) (λ b. INPUT_LIMIT < length b) }
    ensures steady_source { I.steady input.old → result ≡ Status.ReadFault → ⊥ }
    ensures steady_sink { IfSome (I.left input.old) (λ b. HasRoom (O.room out.old) b → result ≡ Status.WriteFault → ⊥) }
{
    let bytes = match read_all(alloc, input) {
        Ok(bytes) => bytes,
        Err(ReadEnd::Failed) => return Status::ReadFault,
        Err(ReadEnd::Memory) => return Status::Memory,
        Err(ReadEnd::TooLong) => return Status::InputLimit,
    };
    let mut session = Session::new(alloc);
    if let Err(fault) = session.run_all(bytes.as_slice(), out) {
        return match fault {
            SessionFault::Write => Status::WriteFault,
            SessionFault::Memory => Status::Memory,
            SessionFault::Ended => unreachable!(),
        };
    }
    if session.count().refused > 0 {
        Status::Refused
    } else {
        Status::Ok
    }
}

/// Runs the command that the words after the program's name are, and answers the status.
///
/// The one command is `run`: it reads the input to its end, and writes the line of each statement
/// that prints or is refused. It returns for every source and sink. After `Usage` the input and the
/// output are as they were. A fault of the error sink changes no status.
pub fn run<I: Source, O: Sink, E: Sink>(
    alloc: Global,
    words: &[String],
    input: &mut I,
    out: &mut O,
    err: &mut E,
) -> Status
    requires { I.given input.old < 2 ^ 63 }

    // At Ok and Refused the output is the transcript of the whole input, nothing is left of that, and
    // the output is flushed.
    ensures whole { IsDone result → IfSome (I.left input.old) (λ b. WritesTranscript result b (O.taken out.old) (O.taken out.new)) }
    ensures read { IsDone result → IfSome (I.left input.old) (λ b. I.left input.new ≡ Some []) }
    ensures flushed { IsDone result → O.flushed out.new }

    // At statuses 3 to 6 the output is a prefix of it.
    ensures prefix { IsStopped result → IfSome (I.left input.old) (λ b. WritesPrefix b (O.taken out.old) (O.taken out.new)) }

    // Each status has its cause, but for want of memory.
    ensures usage { (result ≡ Status.Usage) ↔ (is_command_of (map string_bytes words.now) ≡ false) }
    ensures usage_input { result ≡ Status.Usage → input.new ≡ input.old }
    ensures usage_out { result ≡ Status.Usage → out.new ≡ out.old }
    ensures read_fault { result ≡ Status.ReadFault → Rose (I.faults input.old) (I.faults input.new) }
    ensures write_fault { result ≡ Status.WriteFault → Rose (O.faults out.old) (O.faults out.new) }
    ensures limit { (result ≡ Status.InputLimit) ↔ (I.given input.old + INPUT_LIMIT < I.given input.new) }
    ensures limit_left { result ≡ Status.InputLimit → IfSome (I.left input.old) (λ b. INPUT_LIMIT < length b) }

    // It brings about no fault of its own choice.
    ensures steady_source { I.steady input.old → result ≡ Status.ReadFault → ⊥ }
    ensures steady_sink { IfSome (I.left input.old) (λ b. HasRoom (O.room out.old) b → result ≡ Status.WriteFault → ⊥) }

    // Where no fault was counted and the input is within its limit, the whole was written, or memory
    // ran out.
    ensures complete { is_command_of (map string_bytes words.now) ≡ true
        → (Rose (I.faults input.old) (I.faults input.new) → ⊥) → (Rose (O.faults out.old) (O.faults out.new) → ⊥)
        → I.given input.new ≤ I.given input.old + INPUT_LIMIT → IsDone result ⊎ (result ≡ Status.Memory) }

    // The error sink has the line of the status, and is flushed.
    ensures line_prefix { AppendsPrefix (E.taken err.old) (E.taken err.new) (status_line result) }
    ensures line_whole { (Rose (E.faults err.old) (E.faults err.new) → ⊥) → Appends (E.taken err.old) (E.taken err.new) (status_line result) }
    ensures line_flushed { (Rose (E.faults err.old) (E.faults err.new) → ⊥) → E.flushed err.new }
    ensures line_steady { (n : ℕ) → E.room err.old ≡ Some n → length (status_line result) ≤ n → Appends (E.taken err.old) (E.taken err.new) (status_line result) }
{
    let status = if is_command(words) {
        run_session(alloc, input, out)
    } else {
        Status::Usage
    };
    report(status, err);
    status
}
