//! Laws of coproducts. A function here computes nothing: callers cite its clause.
ghost use Rattle.coproduct_laws.specs.Laws.{PackedCoproductLaw, ValueCoproductLaw, MonomialCoproductLaw, AnswerLaw};

/// The coproduct of an element of `WQSym.M` (Hivert 1999): for each k from 0 to the greatest letter
/// of its packed word, the letters up to k, tensor the letters past k lowered by k.
///
/// Nothing is computed: callers cite the clause.
pub fn packed_coproduct_law()
    ensures { PackedCoproductLaw }
{}

/// The coproduct of an element of `FQSym.G` (Duchamp, Hivert, Thibon 2002): for each k from 0 to the
/// size of its permutation, the values up to k, tensor the values past k lowered by k.
///
/// Nothing is computed: callers cite the clause.
pub fn value_coproduct_law()
    ensures { ValueCoproductLaw }
{}

/// The coproduct of an element of `QSym.M` (Gessel 1984): for each cut of its composition the first
/// parts, tensor the others.
///
/// Nothing is computed: callers cite the clause.
pub fn monomial_coproduct_law()
    ensures { MonomialCoproductLaw }
{}

/// A canonical combination of rank 2 over 1, to which the pairs of a coproduct rule were added, each
/// once, and whose norm is at most their number, is the answer of the rule.
///
/// Nothing is computed: callers cite the clause.
pub fn answer_law()
    ensures { AnswerLaw }
{}
