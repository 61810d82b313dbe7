//! The law of answers. Its function computes nothing: callers cite its clause.
ghost use Rattle.session_reading.specs.Laws.{ParseLaw};

/// Every text has one answer, memory aside, so no clause that speaks of answers holds for want of
/// one.
pub fn parse_law()
    ensures { ParseLaw }
{}
