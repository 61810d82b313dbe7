//! Laws of changes of basis, and of rules put into one component. A function here computes nothing: callers cite its clause.
ghost use Rattle.change_laws.specs.Laws.{FewLaw, QsymChangesLaw, QsymExistenceLaw, NcsfChangesLaw, NcsfExistenceLaw, CoproductExistenceLaw};
ghost use Rattle.change_laws.specs.Lifts.{ComponentReadingsLaw, ReplacedLaw, ChangeLiftLaw, OperationLiftLaw};

/// A composition of n has at most 2^n finer ones, and at most 2^n coarser ones.
///
/// Nothing is computed: callers cite the clause.
pub fn few_law()
    ensures { FewLaw }
{}

/// The fundamental and the monomial quasi-symmetric functions in one another (Gessel 1984): sums over
/// the refinements of a composition, the second with signs, of norm at most 2^n.
///
/// Nothing is computed: callers cite the clause.
pub fn qsym_changes_law()
    ensures { QsymChangesLaw }
{}

/// Each element of either basis of QSym has a combination over the other one, whatever memory there
/// is.
///
/// Nothing is computed: callers cite the clause.
pub fn qsym_existence_law()
    ensures { QsymExistenceLaw }
{}

/// The complete and the elementary functions and the ribbons in one another (Gelfand, Krob, Lascoux,
/// Leclerc, Retakh, Thibon 1995): sums over the coarsenings of a composition, and for the elementary ones
/// over the refinements or coarsenings of its complement, of norm at most 2^n.
///
/// Nothing is computed: callers cite the clause.
pub fn ncsf_changes_law()
    ensures { NcsfChangesLaw }
{}

/// Each of these changes inside NCSF has a combination, whatever memory there is.
///
/// Nothing is computed: callers cite the clause.
pub fn ncsf_existence_law()
    ensures { NcsfExistenceLaw }
{}

/// A combination reads as the sum over its keys of the other components times the element at a component,
/// and coproduct, antipode, counit and commuting image of that component as the sum of these times the
/// operation on the element.
///
/// Nothing is computed: callers cite the clause.
pub fn component_readings_law()
    ensures { ComponentReadingsLaw }
{}

/// Indices in the place of a component make indices, of the same degree where theirs is that of the code
/// there, and terms in its place read as the other components times what they read as.
///
/// Nothing is computed: callers cite the clause.
pub fn replaced_law()
    ensures { ReplacedLaw }
{}

/// A change of basis put into one component of the keys of a combination, of any rank, keeps its reading.
///
/// Nothing is computed: callers cite the clause.
pub fn change_lift_law()
    ensures { ChangeLiftLaw }
{}

/// What a rule answers for the elements of a basis, put into one component of the keys of a combination of
/// any rank, reads as the operation on that component, for coproduct, antipode, counit and commuting image.
///
/// Nothing is computed: callers cite the clause.
pub fn operation_lift_law()
    ensures { OperationLiftLaw }
{}

/// Each coproduct rule has a combination that is its answer, whatever memory there is, of a norm of at most
/// the number of its pairs.
///
/// Nothing is computed: callers cite the clause.
pub fn coproduct_existence_law()
    ensures { CoproductExistenceLaw }
{}
