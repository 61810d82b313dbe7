//! What operations check of their operands before they compute.
ghost use Rattle.std.specs.Prelude.{◌≡◌, ◌≢◌, [], ◌∷◌, if◌then◌else◌, Ok, Err, IfErr};
ghost use Rattle.basis_routes.specs.declared.refusal.Refusal.TheVariants.{Memory};
ghost use Rattle.basis_routes.specs.Checks.{IsCheck, Tests};

use crate::Refusal;
use crate::joins::{is_inside, is_routed, join_or_refuse};
use hopf_laws::{BasisId, algebra};
use hopf_num::Need;

/// A check that an operation makes of its operands. The row of an operation is the list of its
/// checks, and the first one that fails gives its refusal.
#[derive(Clone, Copy, Debug, PartialEq, Eq)]
pub enum Check {
    /// Two ranks are equal; else `Rank`.
    SameRank { left: u32, right: u32 },
    /// A rank is at most 3; else `Rank`.
    RankWithin { rank: u32 },
    /// A component, counted from 1, is among so many; else `Component`.
    HasComponent { component: u32, count: u32 },
    /// The rank of a divisor is 0; else `NotScalar`.
    Scalar { rank: u32 },
    /// A divisor is not 0; else `ZeroDivisor`.
    Nonzero { num: i128 },
    /// Two bases have a join; else `Mixed` with their algebras.
    Joined { left: BasisId, right: BasisId },
    /// There is a way from one basis to another; else `NoRoute` with their algebras.
    Routed { from: BasisId, to: BasisId },
    /// A basis lies in the algebra of another one; else `NotBuilt`.
    Contained { from: BasisId, to: BasisId },
    /// A degree is at most a limit; else `Degree` with both.
    DegreeWithin { degree: u32, limit: u32 },
    /// What is needed has room; else `TooLarge` with it.
    Room { need: Need },
}

impl Check {
    /// Whether the check passes: its refusal exactly where it fails. It takes no memory.
    pub fn test(self) -> Result<(), Refusal>
        requires { IsCheck self }
        ensures checks { Tests (self ∷ []) result }
        ensures outright { IfErr result (λ refusal. refusal ≢ Memory) }
    {
        match self {
            Check::SameRank { left, right } => refuse_unless(left == right, Refusal::Rank),
            Check::RankWithin { rank } => refuse_unless(rank <= 3, Refusal::Rank),
            Check::HasComponent { component, count } => {
                refuse_unless(1 <= component && component <= count, Refusal::Component)
            }
            Check::Scalar { rank } => refuse_unless(rank == 0, Refusal::NotScalar),
            Check::Nonzero { num } => refuse_unless(num != 0, Refusal::ZeroDivisor),
            Check::Joined { left, right } => match join_or_refuse(left, right) {
                Ok(_) => Ok(()),
                Err(refusal) => Err(refusal),
            },
            Check::Routed { from, to } => refuse_unless(
                is_routed(from, to),
                Refusal::NoRoute(algebra(from), algebra(to)),
            ),
            Check::Contained { from, to } => refuse_unless(
                is_inside(algebra(from), algebra(to)),
                Refusal::NotBuilt,
            ),
            Check::DegreeWithin { degree, limit } => {
                refuse_unless(degree <= limit, Refusal::Degree { degree, limit })
            }
            Check::Room { need } => refuse_unless(need.test().is_ok(), Refusal::TooLarge(need)),
        }
    }
}

// The refusal where a test fails.
fn refuse_unless(test: bool, refusal: Refusal) -> Result<(), Refusal>
    ensures { result ≡ if test then (Ok tt) else (Err refusal) }
{
    if test { Ok(()) } else { Err(refusal) }
}
