//! The changes have answers. A function here computes nothing: callers cite its clause.
ghost use Rattle.basis_changes.specs.Laws.{ChangesExistLaw};

/// Each element of a built basis, within the limits of both, has a combination over each other built basis
/// whose algebra contains that of the first, whatever memory there is.
///
/// Nothing is computed: callers cite the clause.
pub fn changes_exist_law()
    ensures { ChangesExistLaw }
{}
