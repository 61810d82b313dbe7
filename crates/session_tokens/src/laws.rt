//! The law of tokens.
ghost use Rattle.session_tokens.specs.Laws.{TokenLaw};

/// Each text, of whatever length, has exactly one list of tokens, so no clause that speaks of the
/// tokens of a text holds for want of them.
///
/// Nothing is computed: callers cite the clause.
pub fn token_law()
    ensures { TokenLaw }
{}
