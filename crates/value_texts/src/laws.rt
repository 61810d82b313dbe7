//! The law of texts. Its function computes nothing: callers cite its clause.
ghost use Rattle.value_texts.specs.Laws.{TextLaw};

/// Each value has one text, so no clause that speaks of texts holds for want of one.
pub fn text_law()
    ensures { TextLaw }
{}
