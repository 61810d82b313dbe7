//! Laws of finite tests of separation. A function here computes nothing: callers cite its clause.
ghost use Rattle.separation_laws.specs.FiniteTestLaws.{PartLaw, TwinLaw, ReturnLaw, FirstWordLaw, ScanLaw};

/// Over a class basis it is enough to compare, for the code of each term, its part with that of each index
/// of its class.
///
/// Nothing is computed: callers cite the clause.
pub fn part_law()
    ensures { PartLaw }
{}

/// It is enough to look up, for each term and each index of the class of its code, the numerator of the
/// key with this index in its place.
///
/// Nothing is computed: callers cite the clause.
pub fn twin_law()
    ensures { TwinLaw }
{}

/// It is enough to keep the terms at one index of each class, to bring them up again, and to compare.
///
/// Nothing is computed: callers cite the clause.
pub fn return_law()
    ensures { ReturnLaw }
{}

/// The separating pair is that of the first words of the first two indices of a class with two parts.
///
/// Nothing is computed: callers cite the clause.
pub fn first_word_law()
    ensures { FirstWordLaw }
{}

/// A scan of the packed words in their order finds the separating pair, or that there is none.
///
/// Nothing is computed: callers cite the clause.
pub fn scan_law()
    ensures { ScanLaw }
{}
