//! The noncommutative symmetric functions in three bases: the complete and the elementary functions and
//! the ribbons (Gelfand, Krob, Lascoux, Leclerc, Retakh, Thibon 1995).
#![tactic(auto)]

mod complete;
mod concatenations;
mod elementary;
mod laws;
mod pairs;
mod part_cuts;
mod ribbon;
mod ribbon_cuts;
#[cfg(test)]
mod tests;
mod words;

pub use complete::NcsfS;
pub use elementary::NcsfL;
pub use laws::{ncsf_changes_exist_law, ncsf_coproducts_exist_law, ncsf_products_exist_law};
pub use ribbon::NcsfR;
