//! Laws of separation, conversion and equality. A function here computes nothing: callers cite its clause.
ghost use Rattle.separation_laws.specs.Laws.{ClassBasisLaw, SeparationLaw, PairLaw, ConversionLaw, UpwardLaw, SamePairLaw, EqualityLaw, RouteLaw};

/// Each algebra of words has a class basis, whose elements are the sums of the words of a class, and the
/// class for an algebra determines that for each algebra that lies in it.
///
/// Nothing is computed: callers cite the clause.
pub fn class_basis_law()
    ensures { ClassBasisLaw }
{}

/// A separating pair is absent exactly where the component lies in the algebra: where, with any basis of
/// the algebra in its place, some terms read as the combination does.
///
/// Nothing is computed: callers cite the clause.
pub fn separation_law()
    ensures { SeparationLaw }
{}

/// There is one separating pair, or there is none.
///
/// Nothing is computed: callers cite the clause.
pub fn pair_law()
    ensures { PairLaw }
{}

/// Where there is no separating pair and the linear rule of room holds, the conversion to any basis of
/// the algebra has a canonical combination, of a norm of at most `norm * 2^(5n)`, n the degree.
///
/// Nothing is computed: callers cite the clause.
pub fn conversion_law()
    ensures { ConversionLaw }
{}

/// A component whose algebra lies in another one has no separating pair for it.
///
/// Nothing is computed: callers cite the clause.
pub fn upward_law()
    ensures { UpwardLaw }
{}

/// Readings that agree at all points have the same separating pairs.
///
/// Nothing is computed: callers cite the clause.
pub fn same_pair_law()
    ensures { SamePairLaw }
{}

/// Two readings agree at all points exactly where their combinations over one list of bases are equal.
///
/// Nothing is computed: callers cite the clause.
pub fn equality_law()
    ensures { EqualityLaw }
{}

/// Conversions one after another end alike, whatever bases come between.
///
/// Nothing is computed: callers cite the clause.
pub fn route_law()
    ensures { RouteLaw }
{}
