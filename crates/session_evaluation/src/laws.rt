//! The law of meanings. Its function computes nothing: callers cite its clauses.
ghost use Rattle.session_evaluation.specs.Laws.{OneMeaning, SomeMeaning, SameMeaning, EqualityMeaning};

/// An expression has at most one meaning, and one where it comes to a value, which reads so. What it
/// means decides its value: expressions with the same meaning and the same bases have the same value,
/// and so print equal bytes. An equality is true exactly where both of its sides mean the same.
pub fn meaning_law()
    ensures one { OneMeaning }
    ensures some { SomeMeaning }
    ensures same { SameMeaning }
    ensures equality { EqualityMeaning }
{}
