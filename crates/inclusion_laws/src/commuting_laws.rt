//! Laws of commuting images. A function here computes nothing: callers cite its clause.
ghost use Rattle.inclusion_laws.specs.Laws.{PackedImageLaw, FundamentalImageLaw};

/// The commuting image of `WQSym.M` of a packed word is `QSym.M` of its evaluation (Hivert 1999); that of
/// a ribbon is the sum over the packed words with its descents.
///
/// Nothing is computed: callers cite the clause.
pub fn packed_image_law()
    ensures { PackedImageLaw }
{}

/// The commuting image of `FQSym.F` of a permutation is `QSym.F` of its descent composition, and that of
/// `FQSym.G` the one of the inverse (Malvenuto, Reutenauer 1995); those of ribbons, trees and tableaux
/// are sums over permutations.
///
/// Nothing is computed: callers cite the clause.
pub fn fundamental_image_law()
    ensures { FundamentalImageLaw }
{}
