//! The law of statements.
ghost use Rattle.session_grammar.specs.Laws.{StatementLaw};

/// Each list of lexemes is parsed in exactly one way: it is one statement and no other, or there is one
/// first lexeme, or the end, for which no statement begins with the lexemes up to and with it. So no
/// clause that speaks of what lexemes are holds for want of an answer.
///
/// Nothing is computed: callers cite the clause.
pub fn statement_law()
    ensures { StatementLaw }
{}
