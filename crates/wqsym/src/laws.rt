//! The rules of WQSym have answers. A function here computes nothing: callers cite its clause.
ghost use Rattle.wqsym.specs.Laws.{WqsymCoproductsExistLaw, WqsymProductsExistLaw};

/// Each element of the basis M, within the degree limit, has a coproduct, whatever memory there is.
///
/// Nothing is computed: callers cite the clause.
pub fn wqsym_coproducts_exist_law()
    ensures { WqsymCoproductsExistLaw }
{}

/// Each two elements of the basis M, whose degrees add to at most the limit, have a product, whatever
/// memory there is.
///
/// Nothing is computed: callers cite the clause.
pub fn wqsym_products_exist_law()
    ensures { WqsymProductsExistLaw }
{}
