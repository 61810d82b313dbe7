//! Laws of values. A function here computes nothing: callers cite its clause.
ghost use Rattle.hopf_laws.specs.Laws.{UniquenessLaw};

/// Values are unique: two values over the same bases whose readings agree at all tuples of
/// representatives are equal in all parts.
///
/// Nothing is computed: callers cite the clause.
pub fn uniqueness_law()
    ensures { UniquenessLaw }
{}
