//! The rules of FSym have answers. A function here computes nothing: callers cite its clause.
ghost use Rattle.fsym.specs.Laws.{FsymCoproductsExistLaw, FsymProductsExistLaw};

/// Each element, within the degree limit, has a coproduct, whatever memory there is.
///
/// Nothing is computed: callers cite the clause.
pub fn fsym_coproducts_exist_law()
    ensures { FsymCoproductsExistLaw }
{}

/// Each two elements whose degrees add to at most the limit have a product, whatever memory there is.
///
/// Nothing is computed: callers cite the clause.
pub fn fsym_products_exist_law()
    ensures { FsymProductsExistLaw }
{}
