//! Laws of the representatives of the bases. A function here computes nothing: callers cite its clause.
ghost use Rattle.basis_representatives.specs.Laws.{ClassLaws, RepresentativesLaw, UniquenessLaw};

/// Seven bases are class bases: at the representative of an index its element occurs, and no other one
/// does. `QSym.M` (Gessel 1984), the ribbons (Gelfand, Krob, Lascoux, Leclerc, Retakh, Thibon 1995), both
/// bases of `FQSym` (Duchamp, Hivert, Thibon 2002), `WQSym.M` (Hivert 1999), `FSym.S` (Poirier, Reutenauer
/// 1995) and `PBT.P` (Hivert, Novelli, Thibon 2005).
///
/// Nothing is computed: callers cite the clause.
pub fn class_laws()
    ensures { ClassLaws }
{}

/// All ten bases have representatives: readings there are unit triangular in some measure. For `QSym.F`
/// this is the number of parts, for the complete and the elementary functions the coarseness of a
/// composition.
///
/// Nothing is computed: callers cite the clause.
pub fn representatives_law()
    ensures { RepresentativesLaw }
{}

/// Combinations in canonical form are unique: over any list of bases, two of them that agree at all
/// tuples of representatives are equal, denominators and all. So the elements of each basis are linearly
/// independent.
///
/// Nothing is computed: callers cite the clause.
pub fn uniqueness_law()
    ensures { UniquenessLaw }
{}
