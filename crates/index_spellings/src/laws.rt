//! Laws of spelled indices. A function here computes nothing: callers cite its clause.
ghost use Rattle.index_spellings.specs.Laws.{ElementTextLaw, SpellingLaw};

/// Each index of a basis within the degree limit of its algebra is read back from the items of its
/// spelling, and what a list spells is such an index. These items are a list of the grammar, which ends at
/// the bracket behind them.
///
/// Nothing is computed: callers cite the clause.
pub fn spelling_law()
    ensures { SpellingLaw }
{}

/// The text of a basis element is read as the basis and the list that spells the index: each of its
/// lists of tokens, of which it has one, stands for these lexemes.
///
/// Nothing is computed: callers cite the clause.
pub fn element_text_law()
    ensures { ElementTextLaw }
{}
