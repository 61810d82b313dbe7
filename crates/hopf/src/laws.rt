//! Laws of sessions. Their functions compute nothing: callers cite their clauses.
ghost use Rattle.hopf.specs.Laws.{ReadBackLaw, TranscriptLaw};
ghost use Rattle.hopf.specs.Sessions.{PendingLaw};

use crate::session::Session;

/// Every list of bytes has one transcript, so no clause that speaks of transcripts holds for want of
/// one.
pub fn transcript_law()
    ensures { TranscriptLaw }
{}

/// In each session some bytes are pending, and the clauses that speak of pending bytes say the same of
/// all that may be.
pub fn pending_law(session: &Session)
    ensures { PendingLaw session.now }
{}

/// A line that a session prints for a value can be entered again, in that session or in another one,
/// and prints the same line. The line of an equality is none of a value.
pub fn read_back_law()
    ensures { ReadBackLaw }
{}
