//! Tests of the objects that index bases, over several of their calls.
#![tactic(auto)]

#[cfg(test)]
mod binary_trees_by_code;
#[cfg(test)]
mod code_lists;
#[cfg(test)]
mod packed_lists;
#[cfg(test)]
mod permutation_lists;
#[cfg(test)]
mod standard_tableaux;
