//! Laws of inclusions. A function here computes nothing: callers cite its clause.
ghost use Rattle.inclusion_laws.specs.Laws.{RibbonLaw, TreeLaw, TableauLaw, StandardisationLaw, InverseLaw, DeterminingLaw};

/// A ribbon is a sum of elements of `FQSym` (Malvenuto, Reutenauer 1995), `PBT` (Loday, Ronco 1998), `FSym`
/// (Poirier, Reutenauer 1995) and `WQSym` (Novelli, Thibon 2006), by the descents of their indices.
///
/// Nothing is computed: callers cite the clause.
pub fn ribbon_law()
    ensures { RibbonLaw }
{}

/// An element of `PBT` is a sum of elements of `FQSym` and of `WQSym`, by the decreasing tree, and for
/// `FQSym.F` by that of the inverse, or equally by the binary search tree (Hivert, Novelli, Thibon 2005).
///
/// Nothing is computed: callers cite the clause.
pub fn tree_law()
    ensures { TreeLaw }
{}

/// An element of `FSym` is a sum of elements of `FQSym` and of `WQSym`, by the insertion tableau, that of
/// the inverse, and the recording tableau (Poirier, Reutenauer 1995).
///
/// Nothing is computed: callers cite the clause.
pub fn tableau_law()
    ensures { TableauLaw }
{}

/// An element of `FQSym` is a sum of elements of `WQSym`, by standardisation (Hivert 1999).
///
/// Nothing is computed: callers cite the clause.
pub fn standardisation_law()
    ensures { StandardisationLaw }
{}

/// F of a permutation is G of its inverse, and the other way round (Duchamp, Hivert, Thibon 2002).
///
/// Nothing is computed: callers cite the clause.
pub fn inverse_law()
    ensures { InverseLaw }
{}

/// The packing of a word determines its standardisation, this one its decreasing tree and its recording
/// tableau, and each of them its descents.
///
/// Nothing is computed: callers cite the clause.
pub fn determining_law()
    ensures { DeterminingLaw }
{}
