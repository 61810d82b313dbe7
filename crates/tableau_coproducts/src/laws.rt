//! The law of the coproduct of a standard tableau. The function here computes nothing: callers cite its clause.
ghost use Rattle.tableau_coproducts.specs.Laws.{TableauCoproductLaw};

/// The coproduct of an element of `FSym.S` (Poirier, Reutenauer 1995): the tensor of the elements of two
/// tableaux as often as a permutation with the insertion tableau of the element is u followed by v, such
/// that the standardisation of u is the reading word of the first tableau, and that of v the reading word
/// of the second.
///
/// Nothing is computed: callers cite the clause.
pub fn tableau_coproduct_law()
    ensures { TableauCoproductLaw }
{}
