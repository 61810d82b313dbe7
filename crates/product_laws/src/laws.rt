//! Laws of products. A function here computes nothing: callers cite its clause.
ghost use Rattle.product_laws.specs.Laws.{ClassLaw, ClassesLaw, FilterLaw, FundamentalLaw, RibbonLaw, ConcatenationLaw, ShuffleLaw, ConvolutionLaw, MergeLaw, TableauLaw, TreeLaw, TreeRootsLaw, AddingLaw, AnswerLaw, SumLaw, GatheringLaw, ExistenceLaw};

/// Over a class basis of words, the product of two elements is the sum over the indices whose front and
/// back are those of the factors.
///
/// Nothing is computed: callers cite the clause.
pub fn class_law()
    ensures { ClassLaw }
{}

/// Five bases are class bases of words: both bases of `FQSym` (Duchamp, Hivert, Thibon 2002), `WQSym.M`
/// (Hivert 1999), `FSym.S` (Poirier, Reutenauer 1995) and `PBT.P` (Hivert, Novelli, Thibon 2005). The
/// law says what the front and the back of their indices are.
///
/// Nothing is computed: callers cite the clause.
pub fn classes_law()
    ensures { ClassesLaw }
{}

/// Over each of these five bases a product is a filter of all indices of its degree: of those whose front
/// and back are the factors.
///
/// Nothing is computed: callers cite the clause.
pub fn filter_law()
    ensures { FilterLaw }
{}

/// The product of two fundamental quasi-symmetric functions is the sum over the shuffles of two words
/// that have their descent compositions, each shuffle by its own descent composition (Gessel 1984).
///
/// Nothing is computed: callers cite the clause.
pub fn fundamental_law()
    ensures { FundamentalLaw }
{}

/// The product of two ribbons is the ribbon of the concatenation of their compositions and that of the
/// near concatenation, which joins the last part of the first and the first part of the second into
/// their sum (Gelfand, Krob, Lascoux, Leclerc, Retakh, Thibon 1995).
///
/// Nothing is computed: callers cite the clause.
pub fn ribbon_law()
    ensures { RibbonLaw }
{}

/// Complete functions multiply by concatenation of their compositions, and so do elementary functions
/// (Gelfand, Krob, Lascoux, Leclerc, Retakh, Thibon 1995).
///
/// Nothing is computed: callers cite the clause.
pub fn concatenation_law()
    ensures { ConcatenationLaw }
{}

/// The product of two elements of `FQSym.F` is the sum over the shuffles of the first permutation with
/// the second one raised by its size (Malvenuto, Reutenauer 1995).
///
/// Nothing is computed: callers cite the clause.
pub fn shuffle_law()
    ensures { ShuffleLaw }
{}

/// The product of two elements of `FQSym.G` is the sum over the convolutions, the permutations whose
/// front and back have the factors as their standardisations (Malvenuto, Reutenauer 1995; Duchamp,
/// Hivert, Thibon 2002).
///
/// Nothing is computed: callers cite the clause.
pub fn convolution_law()
    ensures { ConvolutionLaw }
{}

/// The product of two elements of `WQSym.M` is the sum over the merges, the packed words whose front
/// and back have the factors as their packings (Hivert 1999; Novelli, Thibon 2006).
///
/// Nothing is computed: callers cite the clause.
pub fn merge_law()
    ensures { MergeLaw }
{}

/// The product of two elements of `FSym.S` is the sum over the standard tableaux whose first numbers
/// form the first factor, and whose others, restricted to them, form the second (Poirier, Reutenauer
/// 1995).
///
/// Nothing is computed: callers cite the clause.
pub fn tableau_law()
    ensures { TableauLaw }
{}

/// The product of two elements of `PBT.P` is the sum over the trees whose first nodes, in infix order,
/// form the first factor, and whose others form the second (Loday, Ronco 1998; Hivert, Novelli, Thibon
/// 2005).
///
/// Nothing is computed: callers cite the clause.
pub fn tree_law()
    ensures { TreeLaw }
{}

/// The trees whose front and back are two others are those of their product by roots: the root of one
/// with its left subtree, or that of the other with its right one, and a tree of the product of what is
/// left (Loday, Ronco 1998).
///
/// Nothing is computed: callers cite the clause.
pub fn tree_roots_law()
    ensures { TreeRootsLaw }
{}

/// The elements of a product rule may be added one by one, each as a term with numerator 1, or one list
/// after another.
///
/// Nothing is computed: callers cite the clause.
pub fn adding_law()
    ensures { AddingLaw }
{}

/// A combination to which the codes of a product rule were added, each once, is the answer of the
/// product, if it is canonical of rank 1 over 1 and its norm is at most their number.
///
/// Nothing is computed: callers cite the clause.
pub fn answer_law()
    ensures { AnswerLaw }
{}

/// The combination that gathers the elements of the codes of a product rule, in any order, is the answer
/// of the product.
///
/// Nothing is computed: callers cite the clause.
pub fn sum_law()
    ensures { SumLaw }
{}

/// A product rule of degree at most 25 has a combination that is its answer, so a contract that speaks
/// of it is not empty.
///
/// Nothing is computed: callers cite the clause.
pub fn gathering_law()
    ensures { GatheringLaw }
{}

/// Each product of two elements of one basis, of degrees at most 25 together, has an answer, whatever
/// memory there is. The products of `QSym.M` are not spoken of here.
///
/// Nothing is computed: callers cite the clause.
pub fn existence_law()
    ensures { ExistenceLaw }
{}
