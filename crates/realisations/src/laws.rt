//! Laws of combinations and their readings. A function here computes nothing: callers cite its
//! clause.
ghost use Rattle.realisations.specs.Laws.{DescentLaw, PatternLaw, LinearityLaw, OperationLaw, GatheringLaw, BilinearityLaw, PointsLaw};

/// The descent composition of a word is the composition of its length whose proper partial sums are
/// the places of its descents (Gelfand, Krob, Lascoux, Leclerc, Retakh, Thibon 1995).
///
/// Nothing is computed: callers cite the clause.
pub fn descent_law()
    ensures { DescentLaw }
{}

/// The reading of a combination is determined by the pattern of its points.
///
/// The pattern of exponents is what is left once zeros are left out: the coefficient of a monomial
/// in a quasi-symmetric function depends on its exponents in order, and not on its letters (Gessel
/// 1984). The pattern of a word is its packed word: descents, standardisation and the decreasing
/// tree depend on the order of its letters alone. Nothing is computed: callers cite the clause.
pub fn pattern_law()
    ensures { PatternLaw }
{}

/// The reading of a combination is linear in its terms: it is the sum of the numerators, each times
/// the reading of its key, the tensor of the key's basis elements.
///
/// Nothing is computed: callers cite the clause.
pub fn linearity_law()
    ensures { LinearityLaw }
{}

/// Coproduct, antipode, counit, product of two components and commuting image are linear: what each
/// makes of a combination reads as the sum of the numerators, each times what it makes of the key.
///
/// Nothing is computed: callers cite the clause.
pub fn operation_law()
    ensures { OperationLaw }
{}

/// Gathering like terms keeps readings: once a numerator times a key was added to terms, they read
/// as before and that numerator times the reading of the key.
///
/// Nothing is computed: callers cite the clause.
pub fn gathering_law()
    ensures { GatheringLaw }
{}

/// The product of readings is bilinear: the product of two combinations is the sum over their pairs
/// of terms of both numerators, times the product of the two keys.
///
/// Nothing is computed: callers cite the clause.
pub fn bilinearity_law()
    ensures { BilinearityLaw }
{}

/// At points, the product of two components of one kind, every other operation, products and pairings
/// read their operands at points: words stay words over 1 < 2 < .. when they are cut, shuffled, each
/// above those before, or listed with given numbers of letters.
///
/// Nothing is computed: callers cite the clause.
pub fn points_law()
    ensures { PointsLaw }
{}
