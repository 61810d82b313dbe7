//! Laws of binary trees. A function here computes nothing: callers cite its clause.
ghost use Rattle.tree_laws.specs.Laws.{CodeLaw, ProductLaw, SearchTreeLaw};

/// A list is the code of a tree by its first letter and what stands after it.
///
/// Nothing is computed: callers cite the clause.
pub fn code_law()
    ensures { CodeLaw }
{}

/// The trees of a product have the nodes of both factors, and each of them is listed once (Loday, Ronco
/// 1998).
///
/// Nothing is computed: callers cite the clause.
pub fn product_law()
    ensures { ProductLaw }
{}

/// The binary search tree of a permutation, whose letters enter from right to left, has the shape of the
/// decreasing tree of its inverse (Hivert, Novelli, Thibon 2005).
///
/// Nothing is computed: callers cite the clause.
pub fn search_tree_law()
    ensures { SearchTreeLaw }
{}
