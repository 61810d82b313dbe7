//! Standard tableaux: the indices of the basis of FSym, row insertion, and restriction to intervals of
//! values.
#![tactic(auto)]

mod insertion;
mod lattice;
mod listing;
mod restriction;
mod rows;
mod tableau;

pub use insertion::schensted;
pub use listing::list;
pub use tableau::Tableau;
