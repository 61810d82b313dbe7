//! The rules of QSym have answers. A function here computes nothing: callers cite its clause.
ghost use Rattle.qsym.specs.Laws.{QsymChangesExistLaw, QsymCoproductsExistLaw, QsymProductsExistLaw};

/// Each element of either basis, within the degree limit, has a combination over the other one, whatever
/// memory there is.
///
/// Nothing is computed: callers cite the clause.
pub fn qsym_changes_exist_law()
    ensures { QsymChangesExistLaw }
{}

/// Each element of either basis, within the degree limit, has a coproduct, whatever memory there is.
///
/// Nothing is computed: callers cite the clause.
pub fn qsym_coproducts_exist_law()
    ensures { QsymCoproductsExistLaw }
{}

/// Each two elements of either basis, whose degrees add to at most the limit, have a product, whatever
/// memory there is.
///
/// Nothing is computed: callers cite the clause.
pub fn qsym_products_exist_law()
    ensures { QsymProductsExistLaw }
{}
