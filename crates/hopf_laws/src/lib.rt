//! What a value over a list of bases is, and that values which read alike are the same. With it, the traits of
//! bases and the rules on their indices.
#![tactic(auto)]

mod laws;

pub use basis_names::{AlgebraId, BasisId, algebra, limit};
pub use index_rules::{Algebra, Change, ClassSpace, Coalgebra, Rule, Space, lift};
pub use laws::uniqueness_law;
