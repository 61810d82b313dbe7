//! The rules of FQSym have answers. A function here computes nothing: callers cite its clause.
ghost use Rattle.fqsym.specs.Laws.{FqsymChangesExistLaw, FqsymCoproductsExistLaw, FqsymProductsExistLaw};

/// Each element of either basis, within the degree limit, has a combination over the other one, whatever
/// memory there is.
///
/// Nothing is computed: callers cite the clause.
pub fn fqsym_changes_exist_law()
    ensures { FqsymChangesExistLaw }
{}

/// Each element of either basis, within the degree limit, has a coproduct, whatever memory there is.
///
/// Nothing is computed: callers cite the clause.
pub fn fqsym_coproducts_exist_law()
    ensures { FqsymCoproductsExistLaw }
{}

/// Each two elements of either basis, whose degrees add to at most the limit, have a product, whatever
/// memory there is.
///
/// Nothing is computed: callers cite the clause.
pub fn fqsym_products_exist_law()
    ensures { FqsymProductsExistLaw }
{}
