//! The components that operations act on, and whether they are there.
ghost use Rattle.std.specs.Prelude.{◌≡◌, ◌≢◌, ◌+◌, ◌≤◌, IfOk, IfErr};
ghost use Rattle.basis_routes.specs.declared.refusal.Refusal.TheVariants.{Memory};
ghost use Rattle.basis_routes.specs.Checks.{Tests};
ghost use Rattle.basis_routes.specs.Places.{component_checks, doubling_checks, neighbour_checks, position_of};

use crate::{Check, Place, Refusal};

/// The number, counted from 1, of the component that a place names, where it is there. It takes no memory.
pub fn component_of(at: Place, rank: u32) -> Result<u32, Refusal>
    ensures checks { Tests (component_checks at rank) result }
    ensures outright { IfErr result (λ refusal. refusal ≢ Memory) }
    ensures value { IfOk result (λ component. component ≡ position_of at + 1) }
    ensures last { IfOk result (λ component. component ≤ rank) }
{
    match at {
        Place::Only => {
            Check::SameRank {
                left: rank,
                right: 1,
            }
            .test()?;
            Ok(1)
        }
        Place::At(component) => {
            Check::HasComponent {
                component,
                count: rank,
            }
            .test()?;
            Ok(component)
        }
    }
}

/// The same, where there is room for one component more.
pub fn doubled_component_of(at: Place, rank: u32) -> Result<u32, Refusal>
    requires { rank ≤ 3 }
    ensures checks { Tests (doubling_checks at rank) result }
    ensures outright { IfErr result (λ refusal. refusal ≢ Memory) }
    ensures value { IfOk result (λ component. component ≡ position_of at + 1) }
    ensures last { IfOk result (λ component. component ≤ rank) }
    ensures most { IfOk result (λ component. rank ≤ 2) }
{
    match at {
        Place::Only => {
            Check::SameRank {
                left: rank,
                right: 1,
            }
            .test()?;
            Ok(1)
        }
        Place::At(component) => {
            Check::RankWithin { rank: rank + 1 }.test()?;
            Check::HasComponent {
                component,
                count: rank,
            }
            .test()?;
            Ok(component)
        }
    }
}

/// The number of the first of the two neighbours that a place names, where both are there.
pub fn first_neighbour_of(at: Place, rank: u32) -> Result<u32, Refusal>
    ensures checks { Tests (neighbour_checks at rank) result }
    ensures outright { IfErr result (λ refusal. refusal ≢ Memory) }
    ensures value { IfOk result (λ component. component ≡ position_of at + 1) }
    ensures last { IfOk result (λ component. component + 1 ≤ rank) }
{
    match at {
        Place::Only => {
            Check::SameRank {
                left: rank,
                right: 2,
            }
            .test()?;
            Ok(1)
        }
        Place::At(component) => {
            Check::HasComponent {
                component,
                count: rank.saturating_sub(1),
            }
            .test()?;
            Ok(component)
        }
    }
}
