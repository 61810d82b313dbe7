//! The rules of PBT have answers. A function here computes nothing: callers cite its clause.
ghost use Rattle.pbt.specs.Laws.{PbtCoproductsExistLaw, PbtProductsExistLaw};

/// Each element, within the degree limit, has a coproduct, whatever memory there is.
///
/// Nothing is computed: callers cite the clause.
pub fn pbt_coproducts_exist_law()
    ensures { PbtCoproductsExistLaw }
{}

/// Each two elements whose degrees add to at most the limit have a product, whatever memory there is.
///
/// Nothing is computed: callers cite the clause.
pub fn pbt_products_exist_law()
    ensures { PbtProductsExistLaw }
{}
