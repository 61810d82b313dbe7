//! A session runs each statement when its `;` comes.
ghost use Rattle.std.specs.Prelude.{◌≡◌, ◌+◌, ◌-◌, ◌^◌, ◌<◌, ◌≤◌, ◌↔◌, [], ◌∷◌, true, false, length, option_copied, IsOk, IfOk, OnOk, OnErr, IsErrOf};
ghost use Rattle.session_evaluation.specs.Names.{value_of};
ghost use Rattle.hopf.specs.Outcomes.{IsOutcome};
ghost use Rattle.hopf.specs.Transcript.{IsText, lines};
ghost use Rattle.std.specs.Io.KnownBytes.{Appends};
ghost use Rattle.hopf_io.specs.Faults.{HasCause};
ghost use Rattle.hopf_io.specs.Prefixes.{AppendsPrefix};
ghost use Rattle.hopf_io.specs.Steady.{SendsSteadily};

use crate::statement::{Outcome, line_of, outcome_of_text, refusal_of_unfinished};
use basis_routes::Value;
use hopf_io::{Bytes, Failed, Sink, send_all};
use hopf_num::OutOfMemory;
use session_evaluation::Names;
use session_tokens::is_blank;
use std::alloc::Global;
use thiserror::Error;

/// Why a session stopped.
#[derive(Clone, Copy, Debug, PartialEq, Eq, Error)]
pub enum SessionFault {
    /// The sink failed.
    #[error("write failed")]
    Write,
    /// Memory ran out.
    #[error("out of memory")]
    Memory,
    /// An earlier call ended the session.
    #[error("the session has ended")]
    Ended,
}

impl From<Failed> for SessionFault {
    ghost use Rattle.std.specs.Prelude.{◌≡◌};
    ghost use Rattle.hopf.specs.declared.session.SessionFault.TheVariants.{Write};

    ghost from_gives = { λ _ e. e ≡ Write };

    fn from(_: Failed) -> SessionFault {
        SessionFault::Write
    }
}

impl From<OutOfMemory> for SessionFault {
    ghost use Rattle.std.specs.Prelude.{◌≡◌};
    ghost use Rattle.hopf.specs.declared.session.SessionFault.TheVariants.{Memory};

    ghost from_gives = { λ _ e. e ≡ Memory };

    fn from(_: OutOfMemory) -> SessionFault {
        SessionFault::Memory
    }
}

/// How many statements a session has run, empty ones included, how many of them printed a value,
/// `true` or `false`, and how many were refused.
#[derive(Clone, Copy, Debug, PartialEq, Eq)]
pub struct Counts {
    pub statements: u64,
    pub printed: u64,
    pub refused: u64,
}

/// A session: its names, the counts of its statements, and the text of the statement whose `;` has
/// not come, without leading blanks. It is ended once a call of `feed` or `finish` answered an error,
/// or `finish` answered `Ok`; until then one more statement can be counted.
#[derive(Drop)]
pub struct Session {
    alloc: Global,
    names: Names,
    statements: u64,
    printed: u64,
    refused: u64,
    pending: Bytes,
    ended: bool,
    ghost text: { IsText pending },
    ghost counts: { printed + refused ≤ statements },
    ghost bound: { ended ≡ false → statements < 2 ^ 64 - 1 },
}

// Writes a line, or a prefix of it where the sink fails.
fn send_line<O: Sink>(out: &mut O, line: &[u8]) -> Result<(), SessionFault>
    ensures all { OnOk result (Appends (O.taken out.old) (O.taken out.new) line.now) }
    ensures part { OnErr result (AppendsPrefix (O.taken out.old) (O.taken out.new) line.now) }
    ensures not_ended { IsErrOf result SessionFault.Ended → ⊥ }
    ensures cause { HasCause (O.faults out.old) (O.faults out.new) result }
    ensures steady { SendsSteadily (O.room out.old) (O.room out.new) (length line.now) result }
{
    match send_all(out, line) {
        Ok(()) => Ok(()),
        Err(Failed) => Err(SessionFault::Write),
    }
}

impl Session {
    ghost use Rattle.hopf.specs.Sessions.{IsTold, Pends, KeepsAllButNames, Advances, Stops, WritesIfSteady, Finishes, Runs, StopsWhole, WholeIfSteady};
    ghost use Rattle.hopf.specs.SessionSteps.{Counted, Ends, EndStops, EndIfSteady, WritesLast, last_of};
    ghost use Rattle.hopf_io.specs.Faults.{Rose};

    /// A session that has run nothing and has no names. It takes no memory.
    pub fn new(alloc: Global) -> Session
        ensures names { result.names ≡ [] }
        ensures statements { result.statements ≡ 0 }
        ensures printed { result.printed ≡ 0 }
        ensures refused { result.refused ≡ 0 }
        ensures pending { Pends [] result }
        ensures ended { result.ended ≡ false }
    {
        Session {
            alloc,
            names: Names::new(alloc),
            statements: 0,
            printed: 0,
            refused: 0,
            pending: Bytes::new(alloc),
            ended: false,
        }
    }

    /// Runs the text of one statement, without leading blanks and without its `;`, and answers its
    /// outcome. An accepted assignment gives its name the value; nothing else is changed, and nothing
    /// is counted.
    pub fn step(&mut self, text: &[u8]) -> Result<Outcome, OutOfMemory>
        ensures outcome { IfOk result (λ outcome. IsOutcome self.old.names text.now outcome self.new.names) }
        ensures told { IfOk result IsTold }
        ensures rest { KeepsAllButNames self.old self.new }
        ensures err { OnErr result (self.new.names ≡ self.old.names) }
    {
        outcome_of_text(self.alloc, &mut self.names, text)
    }

    // Counts a statement with this outcome.
    fn count_outcome(&mut self, outcome: &Outcome)
        requires { self.old.statements < 2 ^ 64 - 2 }
        ensures { Counted self.old self.new outcome.now }
    {
        self.statements += 1;
        match outcome {
            Outcome::Printed(_) | Outcome::Compared(_) => self.printed += 1,
            Outcome::Refused(_) => self.refused += 1,
            Outcome::Empty | Outcome::Kept => {}
        }
    }

    // Runs the pending text as a statement.
    fn end_statement<O: Sink>(&mut self, out: &mut O) -> Result<(), SessionFault>
        requires { self.old.statements < 2 ^ 64 - 2 }
        ensures ok { OnOk result (Ends self.old self.new (O.taken out.old) (O.taken out.new) (O.room out.old) (O.room out.new)) }
        ensures err { OnErr result (EndStops self.old self.new (O.taken out.old) (O.taken out.new)) }
        ensures not_ended { IsErrOf result SessionFault.Ended → ⊥ }
        ensures ended { self.new.ended ≡ self.old.ended }
        ensures later { O.faults out.old ≤ O.faults out.new }
        ensures cause { IsErrOf result SessionFault.Write → Rose (O.faults out.old) (O.faults out.new) }
        ensures steady { EndIfSteady self.old (O.room out.old) result }
    {
        let outcome = outcome_of_text(self.alloc, &mut self.names, self.pending.as_slice())?;
        let text = line_of(self.alloc, self.statements + 1, &outcome)?;
        self.count_outcome(&outcome);
        self.pending = Bytes::new(self.alloc);
        send_line(out, text.as_slice())?;
        Ok(())
    }

    // Takes one byte.
    fn feed_byte<O: Sink>(&mut self, byte: u8, out: &mut O) -> Result<(), SessionFault>
        requires { self.old.statements < 2 ^ 64 - 2 }
        ensures ok { OnOk result (Advances self.old self.new (O.taken out.old) (O.taken out.new) (O.room out.old) (O.room out.new) (byte ∷ [])) }
        ensures statements { OnOk result (self.new.statements ≤ self.old.statements + 1) }
        ensures err { OnErr result (Stops self.old self.new (O.taken out.old) (O.taken out.new) (byte ∷ [])) }
        ensures not_ended { IsErrOf result SessionFault.Ended → ⊥ }
        ensures ended { self.new.ended ≡ self.old.ended }
        ensures later { O.faults out.old ≤ O.faults out.new }
        ensures cause { IsErrOf result SessionFault.Write → Rose (O.faults out.old) (O.faults out.new) }
        ensures steady { WritesIfSteady self.old (O.room out.old) (byte ∷ []) result }
    {
        if byte == b';' {
            self.end_statement(out)?;
            return Ok(());
        }
        if self.pending.as_slice().is_empty() && is_blank(byte) {
            return Ok(());
        }
        self.pending.push_all(&[byte])?;
        Ok(())
    }

    // Takes the bytes of a piece.
    fn feed_bytes<O: Sink>(&mut self, piece: &[u8], out: &mut O) -> Result<(), SessionFault>
        requires { self.old.statements < 2 ^ 63 }
        ensures ok { OnOk result (Advances self.old self.new (O.taken out.old) (O.taken out.new) (O.room out.old) (O.room out.new) piece.now) }
        ensures statements { OnOk result (self.new.statements ≤ self.old.statements + length piece.now) }
        ensures err { OnErr result (Stops self.old self.new (O.taken out.old) (O.taken out.new) piece.now) }
        ensures not_ended { IsErrOf result SessionFault.Ended → ⊥ }
        ensures ended { self.new.ended ≡ self.old.ended }
        ensures later { O.faults out.old ≤ O.faults out.new }
        ensures cause { IsErrOf result SessionFault.Write → Rose (O.faults out.old) (O.faults out.new) }
        ensures steady { WritesIfSteady self.old (O.room out.old) piece.now result }
        ensures nothing { piece.now ≡ [] → IsOk result }
    {
        for i in 0..piece.len() {
            self.feed_byte(piece[i], out)?;
        }
        Ok(())
    }

    /// Runs each statement whose `;` is in the piece.
    ///
    /// The lines depend on the bytes alone and not on how they are cut into pieces. The cost is that
    /// of the statements. It fails with `Write` where the sink does, with `Memory` where memory runs
    /// out, and with `Ended` where an earlier call ended the session; after each the session is
    /// ended. It needs `count().statements` to be below 2^63, unless the session is ended.
    pub fn feed<O: Sink>(&mut self, piece: &[u8], out: &mut O) -> Result<(), SessionFault>
        requires { self.old.ended ≡ false → self.old.statements < 2 ^ 63 }
        ensures ok { OnOk result (Advances self.old self.new (O.taken out.old) (O.taken out.new) (O.room out.old) (O.room out.new) piece.now) }
        ensures statements { OnOk result (self.new.statements ≤ self.old.statements + length piece.now) }
        ensures goes_on { OnOk result (self.new.ended ≡ false) }
        ensures nothing { piece.now ≡ [] → self.old.ended ≡ false → IsOk result }

        // After an error the output has a prefix of the transcript, and the session is ended.
        ensures err { OnErr result (Stops self.old self.new (O.taken out.old) (O.taken out.new) piece.now) }
        ensures stops { OnErr result (self.new.ended ≡ true) }
        ensures ended { IsErrOf result SessionFault.Ended ↔ (self.old.ended ≡ true) }
        ensures ended_out { IsErrOf result SessionFault.Ended → out.new ≡ out.old }
        ensures later { O.faults out.old ≤ O.faults out.new }
        ensures cause { IsErrOf result SessionFault.Write → Rose (O.faults out.old) (O.faults out.new) }
        ensures steady { WritesIfSteady self.old (O.room out.old) piece.now result }
    {
        if self.ended {
            return Err(SessionFault::Ended);
        }
        self.ended = true;
        self.feed_bytes(piece, out)?;
        self.ended = false;
        Ok(())
    }

    // Ends the session, and runs what follows the last `;`, where it holds a byte that is no blank.
    fn end_input<O: Sink>(&mut self, out: &mut O) -> Result<(), SessionFault>
        requires { self.old.statements < 2 ^ 64 - 1 }
        ensures ok { OnOk result (Finishes self.old self.new (O.taken out.old) (O.taken out.new)) }
        ensures names { self.new.names ≡ self.old.names }
        ensures err { OnErr result (AppendsPrefix (O.taken out.old) (O.taken out.new) (lines self.old.statements (last_of self.old))) }
        ensures not_ended { IsErrOf result SessionFault.Ended → ⊥ }
        ensures ended { self.new.ended ≡ true }
        ensures later { O.faults out.old ≤ O.faults out.new }
        ensures cause { IsErrOf result SessionFault.Write → Rose (O.faults out.old) (O.faults out.new) }
        ensures steady { WritesLast (O.room out.old) (O.room out.new) (length (lines self.old.statements (last_of self.old))) result }
    {
        self.ended = true;
        if self.pending.as_slice().is_empty() {
            return Ok(());
        }
        let outcome = Outcome::Refused(refusal_of_unfinished(self.pending.as_slice()));
        let line = line_of(self.alloc, self.statements + 1, &outcome)?;
        self.statements += 1;
        self.refused += 1;
        send_line(out, line.as_slice())?;
        Ok(())
    }

    /// Ends the session: what follows the last `;` is a statement where it holds a byte that is no
    /// blank. The sink is flushed after its last line. It fails as `feed` does.
    pub fn finish<O: Sink>(&mut self, out: &mut O) -> Result<(), SessionFault>
        ensures ok { OnOk result (Finishes self.old self.new (O.taken out.old) (O.taken out.new)) }
        ensures flushed { OnOk result (O.flushed out.new) }

        // What it leaves of the names is what it found, since the last text is refused.
        ensures names { self.new.names ≡ self.old.names }

        // After an error the output has a prefix of the transcript on no more bytes.
        ensures err { OnErr result (StopsWhole self.old [] (O.taken out.old) (O.taken out.new)) }
        ensures stops { self.new.ended ≡ true }
        ensures ended { IsErrOf result SessionFault.Ended ↔ (self.old.ended ≡ true) }
        ensures ended_out { IsErrOf result SessionFault.Ended → out.new ≡ out.old }
        ensures later { O.faults out.old ≤ O.faults out.new }
        ensures cause { IsErrOf result SessionFault.Write → Rose (O.faults out.old) (O.faults out.new) }
        ensures steady { WholeIfSteady self.old (O.room out.old) [] result }
    {
        if self.ended {
            return Err(SessionFault::Ended);
        }
        self.end_input(out)?;
        out.flush()?;
        Ok(())
    }

    /// How many statements `feed` and `finish` have run so far. It takes no memory.
    pub fn count(&self) -> Counts
        ensures { result ≡ record { statements = self.now.statements; printed = self.now.printed; refused = self.now.refused } }
    {
        Counts {
            statements: self.statements,
            printed: self.printed,
            refused: self.refused,
        }
    }

    /// The value of a name, or `None` exactly where it has none. It takes no memory.
    pub fn lookup(&self, name: &[u8]) -> Option<&Value>
        ensures { option_copied result ≡ value_of self.now.names name.now }
    {
        self.names.get(name)
    }

    /// Runs a whole input.
    pub fn run_all<O: Sink>(&mut self, bytes: &[u8], out: &mut O) -> Result<(), SessionFault>
        requires statements { self.old.statements < 2 ^ 63 }
        requires ended { self.old.ended ≡ false }
        ensures ok { OnOk result (Runs self.old self.new bytes.now (O.taken out.old) (O.taken out.new)) }
        ensures flushed { OnOk result (O.flushed out.new) }
        ensures err { OnErr result (StopsWhole self.old bytes.now (O.taken out.old) (O.taken out.new)) }
        ensures later { O.faults out.old ≤ O.faults out.new }
        ensures cause { IsErrOf result SessionFault.Write → Rose (O.faults out.old) (O.faults out.new) }
        ensures not_ended { IsErrOf result SessionFault.Ended → ⊥ }
        ensures steady { WholeIfSteady self.old (O.room out.old) bytes.now result }
    {
        self.feed(bytes, out)?;
        self.finish(out)?;
        Ok(())
    }
}
