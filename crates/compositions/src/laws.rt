//! Laws of the rules on compositions. A function here computes nothing: callers cite its clause.
ghost use Rattle.compositions.specs.Laws.{ExistenceLaw};

/// The product of two monomial quasi-symmetric functions of degrees that add to at most 12 has a
/// combination that is the answer of the rule, so a contract that speaks of it is not empty.
///
/// Nothing is computed: callers cite the clause.
pub fn existence_law()
    ensures { ExistenceLaw }
{}
