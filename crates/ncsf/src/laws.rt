//! The rules of NCSF have answers. A function here computes nothing: callers cite its clause.
ghost use Rattle.ncsf.specs.Laws.{NcsfChangesExistLaw, NcsfCoproductsExistLaw, NcsfProductsExistLaw};

/// Each complete and each elementary function, within the degree limit, has a combination over the
/// ribbons, and each ribbon one over either of these, whatever memory there is.
///
/// Nothing is computed: callers cite the clause.
pub fn ncsf_changes_exist_law()
    ensures { NcsfChangesExistLaw }
{}

/// Each element of the three bases, within the degree limit, has a coproduct, whatever memory there is.
///
/// Nothing is computed: callers cite the clause.
pub fn ncsf_coproducts_exist_law()
    ensures { NcsfCoproductsExistLaw }
{}

/// Each two elements of one of the three bases, whose degrees add to at most the limit, have a product,
/// whatever memory there is.
///
/// Nothing is computed: callers cite the clause.
pub fn ncsf_products_exist_law()
    ensures { NcsfProductsExistLaw }
{}
