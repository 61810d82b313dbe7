//! Laws of pairings. A function here computes nothing: callers cite its clause.
ghost use Rattle.pairing_laws.specs.Laws.{AgreementLaw, SymmetryLaw, BilinearityLaw, SizeLaw};
ghost use Rattle.pairing_laws.specs.Adjoints.{AdjointnessLaw, CombinationsLaw};
ghost use Rattle.pairing_laws.specs.Duals.{EvaluationLaw, DualityLaw};

/// Product and coproduct are adjoint under the pairings (Malvenuto, Reutenauer 1995; Gelfand, Krob,
/// Lascoux, Leclerc, Retakh, Thibon 1995), as readings.
///
/// Of words, for factors that see standardisations alone; of words with exponents, and of exponents with
/// words, for readings of words that see descents alone, and of exponents that do not see zeros. Nothing
/// is computed: callers cite the clause.
pub fn adjointness_law()
    ensures { AdjointnessLaw }
{}

/// Product and coproduct of combinations are adjoint under the pairing of their algebras.
///
/// So for any factors of NCSF, FSym, PBT and FQSym with a combination of these, for factors of NCSF
/// with one of QSym, and for factors of QSym with one of NCSF; also where another reading is the
/// product, or the coproduct, at all points. Nothing is computed: callers cite the clause.
pub fn combinations_law()
    ensures { CombinationsLaw }
{}

/// Readings that agree at all points may take each other's place in a pairing.
///
/// So conversions keep pairings. Nothing is computed: callers cite the clause.
pub fn agreement_law()
    ensures { AgreementLaw }
{}

/// Pairings are symmetric.
///
/// Nothing is computed: callers cite the clause.
pub fn symmetry_law()
    ensures { SymmetryLaw }
{}

/// Pairings are bilinear: the pairing of two combinations is the sum over their pairs of terms of both
/// numerators, times the pairing of the two keys.
///
/// Nothing is computed: callers cite the clause.
pub fn bilinearity_law()
    ensures { BilinearityLaw }
{}

/// Sizes past the degrees of either reading add nothing to a pairing.
///
/// Nothing is computed: callers cite the clause.
pub fn size_law()
    ensures { SizeLaw }
{}

/// The pairing with an element of FQSym, of S of NCSF or of F of QSym is what the other reading is at
/// the representative of the index in the dual basis (Duchamp, Hivert, Thibon 2002; Gelfand, Krob,
/// Lascoux, Leclerc, Retakh, Thibon 1995).
///
/// Nothing is computed: callers cite the clause.
pub fn evaluation_law()
    ensures { EvaluationLaw }
{}

/// F and G of FQSym, S of NCSF and M of QSym, and R of NCSF and F of QSym are dual bases (Malvenuto,
/// Reutenauer 1995; Gelfand, Krob, Lascoux, Leclerc, Retakh, Thibon 1995).
///
/// The pairing of two combinations over dual bases is the sum over the indices of both of the products
/// of their numerators; of two over F, or over G, of FQSym that over inverse indices. Nothing is
/// computed: callers cite the clause.
pub fn duality_law()
    ensures { DualityLaw }
{}
