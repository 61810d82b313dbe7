//! The bases and the algebras, by their names.
#![tactic(auto)]

mod bases;

pub use bases::{AlgebraId, BASES, BasisId, algebra, algebra_name, basis_name, basis_named, limit};
