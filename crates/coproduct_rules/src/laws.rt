//! Laws of coproducts and counits. A function here computes nothing: callers cite its clause.
ghost use Rattle.coproduct_rules.specs.Components.{ComponentLaw, ComponentCounitLaw, ComponentMultLaw, LaterComponentLaw};
ghost use Rattle.coproduct_rules.specs.Laws.{FundamentalCoproductLaw, CompleteCoproductLaw, ElementaryCoproductLaw, RibbonCoproductLaw, PlaceCoproductLaw, UpperPartsLaw, TreeCoproductLaw, CounitLaw, FewPairsLaw, MultLaw, CompatibilityLaw};

/// The coproduct of an element of `QSym.F` (Gessel 1984): for each k from 0 to its degree, the one pair
/// of a composition J of k and one K of the rest such that its composition is J followed by K, or these
/// with the last part of J and the first of K joined.
///
/// Nothing is computed: callers cite the clause.
pub fn fundamental_coproduct_law()
    ensures { FundamentalCoproductLaw }
{}

/// The coproduct of an element of `NCSF.S` (Gelfand, Krob, Lascoux, Leclerc, Retakh, Thibon 1995): for
/// each way to write every part as a sum of two numbers, the first ones tensor the second ones, without
/// the zeros.
///
/// Nothing is computed: callers cite the clause.
pub fn complete_coproduct_law()
    ensures { CompleteCoproductLaw }
{}

/// The coproduct of an element of `NCSF.L` (Gelfand, Krob, Lascoux, Leclerc, Retakh, Thibon 1995): as
/// that of `NCSF.S`.
///
/// Nothing is computed: callers cite the clause.
pub fn elementary_coproduct_law()
    ensures { ElementaryCoproductLaw }
{}

/// The coproduct of a ribbon, an element of `NCSF.R` (Malvenuto, Reutenauer 1995): the tensor of the
/// ribbons of J and K as often as a shuffle of a word with descent composition J and one with descent
/// composition K, raised above it, has the composition of the ribbon.
///
/// Nothing is computed: callers cite the clause.
pub fn ribbon_coproduct_law()
    ensures { RibbonCoproductLaw }
{}

/// The coproduct of an element of `FQSym.F` (Malvenuto, Reutenauer 1995): for each cut of its permutation
/// into two words, the tensor of their standardisations.
///
/// Nothing is computed: callers cite the clause.
pub fn place_coproduct_law()
    ensures { PlaceCoproductLaw }
{}

/// The coproduct of an element of `PBT.P`, as readings (Loday, Ronco 1998; Hivert, Novelli, Thibon
/// 2005): over the upper parts of its tree, the product of the elements of the subtrees that hang below
/// the part, from left to right, tensor the element of the part.
///
/// Nothing is computed: callers cite the clause.
pub fn upper_parts_law()
    ensures { UpperPartsLaw }
{}

/// The coproduct of an element of `PBT.P`, by indices: where some rule lists codes that read as the
/// products of elements, the pairs over all upper parts read as the coproduct.
///
/// Nothing is computed: callers cite the clause.
pub fn tree_coproduct_law()
    ensures { TreeCoproductLaw }
{}

/// The coproducts of the bases of QSym and NCSF have few pairs: of a composition of n at most n + 1 in
/// QSym, at most 2^n for the complete and the elementary functions, and at most 2^(2n) for the ribbons.
///
/// Nothing is computed: callers cite the clause.
pub fn few_pairs_law()
    ensures { FewPairsLaw }
{}

/// The counit of a basis element is 1 at the empty index and 0 at every other, in every basis.
///
/// Nothing is computed: callers cite the clause.
pub fn counit_law()
    ensures { CounitLaw }
{}

/// The product of both components of a tensor is the product of what it is a tensor of.
///
/// Nothing is computed: callers cite the clause.
pub fn mult_law()
    ensures { MultLaw }
{}

/// The coproduct of a product is the product of the coproducts: for two elements of a basis, at all
/// pairs of points, in every basis (Gessel 1984; Malvenuto, Reutenauer 1995; Hivert 1999).
///
/// Nothing is computed: callers cite the clause.
pub fn compatibility_law()
    ensures { CompatibilityLaw }
{}

/// A coproduct rule holds on each component: the key with each of its pairs in place of the component
/// reads as the coproduct of the component, while the other components stand still.
///
/// Nothing is computed: callers cite the clause.
pub fn component_law()
    ensures { ComponentLaw }
{}

/// The counit rule holds on each component: the key without the component reads as its counit where the
/// component is the empty index, and nothing does else.
///
/// Nothing is computed: callers cite the clause.
pub fn component_counit_law()
    ensures { ComponentCounitLaw }
{}

/// The product of two neighbouring components of a key reads as the product of their elements, times what
/// the other components read as.
///
/// Nothing is computed: callers cite the clause.
pub fn component_mult_law()
    ensures { ComponentMultLaw }
{}

/// An operation on a later component of a key reads as on the key without the first component, times the
/// occurrence of the first.
///
/// Nothing is computed: callers cite the clause.
pub fn later_component_law()
    ensures { LaterComponentLaw }
{}
