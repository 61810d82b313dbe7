//! The laws of rows. A function here computes nothing: callers cite its clauses.
ghost use Rattle.hopf_ops.specs.Convolutions.{ConvolutionLaw};
ghost use Rattle.hopf_ops.specs.Laws.{OperatorLaw, NegationLaw, CoproductLaw, CounitLaw, AntipodeLaw, CommuteLaw, MultLaw, EqualLaw};

/// Each operation has exactly one answer on values. Where this is a value, it reads as the operation on
/// the operands that were given, whatever was converted on the way. So has an equality, which answers no
/// value.
///
/// Nothing is computed: callers cite the clauses.
pub fn row_law()
    ensures operator { OperatorLaw }
    ensures negation { NegationLaw }
    ensures coproduct { CoproductLaw }
    ensures counit { CounitLaw }
    ensures antipode { AntipodeLaw }
    ensures commute { CommuteLaw }
    ensures mult { MultLaw }
    ensures equal { EqualLaw }
{}

/// The antipode of a value is the inverse of the identity under convolution (Takeuchi 1971).
///
/// Where the coproduct of a component, the antipode of either part, and the product of both come to values,
/// the last one is over the bases of the given one, and reads as its counit and then the unit: it is 0 where
/// every key has positive degree in that component. Nothing is computed: callers cite the clause.
pub fn convolution_law()
    ensures { ConvolutionLaw }
{}
