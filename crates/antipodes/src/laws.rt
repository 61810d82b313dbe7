//! Antipodes exist. A function here computes nothing: callers cite its clause.
ghost use Rattle.antipodes.specs.Laws.{AntipodesExistLaw};

/// Each element of nine bases, within the degree limit, has an antipode, whatever memory there is.
///
/// Nothing is computed: callers cite the clause.
pub fn antipodes_exist_law()
    ensures { AntipodesExistLaw }
{}
