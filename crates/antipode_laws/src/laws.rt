//! Laws of the antipode. A function here computes nothing: callers cite its clause.
ghost use Rattle.antipode_laws.specs.Laws.{AntipodeLaw};
ghost use Rattle.antipode_laws.specs.Recursion.{RecursionLaw, RecursionAnswerLaw};

/// The antipode is the inverse of the identity under convolution (Takeuchi 1971).
///
/// Once a component is doubled by the coproduct, the antipode on the first or on the second of both and
/// then their product are the counit and then the unit. Nothing is computed: callers cite the clause.
pub fn antipode_law()
    ensures { AntipodeLaw }
{}

/// The antipode by recursion over the coproduct (Takeuchi 1971).
///
/// The antipode of the empty index is its element. That of every other index is minus the sum, over the
/// terms of its coproduct whose second code is not empty, of the antipode of the first code times the
/// second; these first codes have lower degrees. Nothing is computed: callers cite the clause.
pub fn recursion_law()
    ensures { RecursionLaw }
{}

/// From the coproduct of an index, the antipodes of its first codes, and products, the sum of that
/// recursion is the antipode, where it is canonical and has the norm of an answer.
///
/// Nothing is computed: callers cite the clause.
pub fn recursion_answer_law()
    ensures { RecursionAnswerLaw }
{}
