//! Inclusions have answers. A function here computes nothing: callers cite its clause.
ghost use Rattle.inclusion_rules.specs.Laws.{InclusionsExistLaw};

/// Each element of `NCSF`, `PBT` and `FQSym`, within the degree limits, is included in the algebras of words
/// that hold it, whatever memory there is.
///
/// Nothing is computed: callers cite the clause.
pub fn inclusions_exist_law()
    ensures { InclusionsExistLaw }
{}
