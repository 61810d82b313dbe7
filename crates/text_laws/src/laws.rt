//! The law of reading back. Its function computes nothing: callers cite its clause.
ghost use Rattle.text_laws.specs.ReadBack.{ReadBackLaw};

/// The text of a value is a statement of the grammar in which nothing is refused, and in all names its
/// expression comes to that value again. The text of zero is `0`, which tells no bases: it comes to the
/// scalar 0.
pub fn read_back_law()
    ensures { ReadBackLaw }
{}
