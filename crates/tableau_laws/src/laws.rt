//! Laws of standard tableaux. A function here computes nothing: callers cite its clause.
ghost use Rattle.tableau_laws.specs.Laws.{CodeLaw, KnuthLaw, RestrictionLaw};

/// Two permutations have one insertion tableau where a chain of Knuth moves leads from one to the
/// other, and only there; a chain leads from each to the reading word of its tableau (Knuth 1970).
///
/// Nothing is computed: callers cite the clause.
pub fn knuth_law()
    ensures { KnuthLaw }
{}

/// The tableau of the standardised letters of a permutation in an interval of values depends on the
/// tableau of the permutation alone (Knuth 1970).
///
/// Nothing is computed: callers cite the clause.
pub fn restriction_law()
    ensures { RestrictionLaw }
{}

/// A list of letters is the code of a standard tableau exactly where its letters are positive and each
/// of its fronts has each letter r + 1 at most as often as r; the tableau has the places of r in row r.
///
/// Nothing is computed: callers cite the clause.
pub fn code_law()
    ensures { CodeLaw }
{}
