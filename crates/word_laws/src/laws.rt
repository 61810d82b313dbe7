//! Laws of words. A function here computes nothing: callers cite its clause.
ghost use Rattle.word_laws.specs.Laws.{PatternLaw, MergeLaw, ConvolutionLaw};

/// A word over positive letters is a spread of its packing: a strictly increasing map takes the packing
/// to the word.
///
/// Nothing is computed: callers cite the clause.
pub fn pattern_law()
    ensures { PatternLaw }
{}

/// The packed words whose front and back have given packings (Hivert 1999) are these packings, both
/// spread.
///
/// Nothing is computed: callers cite the clause.
pub fn merge_law()
    ensures { MergeLaw }
{}

/// The permutations whose front and back have given standardisations (Malvenuto, Reutenauer 1995) are
/// these standardisations, both spread.
///
/// Nothing is computed: callers cite the clause.
pub fn convolution_law()
    ensures { ConvolutionLaw }
{}
