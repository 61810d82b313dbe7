//! Changes of one component of a combination from one basis to another whose algebra contains that of the
//! first.
#![tactic(auto)]

mod applying;
mod by_way;
mod changes;
mod laws;
#[cfg(test)]
mod tests;

pub use by_way::{ByWayOf, ChangeRule};
pub use changes::change_between;
pub use laws::changes_exist_law;
