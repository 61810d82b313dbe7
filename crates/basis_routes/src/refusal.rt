//! Why an operation on values is refused.

use hopf_laws::AlgebraId;
use hopf_num::Need;
use linear_combos::Code;

/// Why an operation on values has no answer.
#[derive(Clone, Copy, Debug, PartialEq, Eq)]
pub enum Refusal {
    /// The ranks do not allow the operation.
    Rank,
    /// A component is not there.
    Component,
    /// The divisor is not a scalar.
    NotScalar,
    /// The divisor is 0.
    ZeroDivisor,
    /// Two components lie in algebras without a common one.
    Mixed(AlgebraId, AlgebraId),
    /// A value of one algebra is not converted to a basis of the other: one of them is `QSym`, and the
    /// other an algebra of words. It comes with conversions.
    NoRoute(AlgebraId, AlgebraId),
    /// Elements of the two algebras are not paired. It comes with the pairing.
    NoPairing(AlgebraId, AlgebraId),
    /// A degree is past the limit of the algebras.
    Degree {
        degree: u32,
        limit: u32,
    },
    /// A number would pass its room. The need tells the numbers.
    TooLarge(Need),
    /// An element is not in a subalgebra: it reads differently at two words of one class. It comes with
    /// conversions.
    NotInSub {
        algebra: AlgebraId,
        u: Code,
        v: Code,
    },
    /// An element is to be converted into an algebra that does not contain its own, which is not built yet.
    NotBuilt,
    /// Memory ran out.
    Memory,
}
