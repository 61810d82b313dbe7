//! Laws of bases and of lifts. A function here computes nothing: callers cite its clause.
ghost use Rattle.index_rules.specs.Laws.{ChangeReadsLaw, OperationReadsLaw, CoproductNormLaw, LiftExistsLaw, LiftedIndicesLaw, ProductReadsLaw, ProductsByChangeExistLaw, ProductsExistLaw, SameAnswerLaw};
ghost use Rattle.index_rules.specs.Spaces.{ClassLaw};

/// The class of the representative of an index is the index.
///
/// Nothing is computed: callers cite the clause.
pub fn class_law()
    ensures { ClassLaw }
{}

/// A rule has at most one answer: two answers with the same reading are equal in all parts.
///
/// Nothing is computed: callers cite the clause.
pub fn same_answer_law()
    ensures { SameAnswerLaw }
{}

/// The norm of an answer of a coproduct rule is at most the number of its pairs.
///
/// Nothing is computed: callers cite the clause.
pub fn coproduct_norm_law()
    ensures { CoproductNormLaw }
{}

/// A change lifted to a component keeps the reading.
///
/// Nothing is computed: callers cite the clause.
pub fn change_reads_law()
    ensures { ChangeReadsLaw }
{}

/// What an operation makes of elements, lifted to a component, is the operation on it.
///
/// Nothing is computed: callers cite the clause.
pub fn operation_reads_law()
    ensures { OperationReadsLaw }
{}

/// The keys of a lift are indices, and each has the degree of an old key.
///
/// Nothing is computed: callers cite the clause.
pub fn lifted_indices_law()
    ensures { LiftedIndicesLaw }
{}

/// The products of two neighbouring components read as the product of these components.
///
/// Nothing is computed: callers cite the clause.
pub fn product_reads_law()
    ensures { ProductReadsLaw }
{}

/// A rule that has an answer for each of its indices has a lift to each component that it can be lifted
/// to, whatever memory there is.
///
/// Nothing is computed: callers cite the clause.
pub fn lift_exists_law()
    ensures { LiftExistsLaw }
{}

/// Over a basis that has a product for each two indices, two neighbouring components that can be
/// multiplied have products, whatever memory there is.
///
/// Nothing is computed: callers cite the clause.
pub fn products_exist_law()
    ensures { ProductsExistLaw }
{}

/// Where the elements of a basis change to one that has products, and those of that basis change back,
/// the first basis has products too, whatever memory there is.
///
/// Nothing is computed: callers cite the clause.
pub fn products_by_change_exist_law()
    ensures { ProductsByChangeExistLaw }
{}
