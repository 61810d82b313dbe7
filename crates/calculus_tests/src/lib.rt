//! Tests of codes, keys, indices and values, over several of their calls. What a session shows is tried by sessions.
#![tactic(auto)]

#[cfg(test)]
mod antipodes_of_values;
#[cfg(test)]
mod keys;
#[cfg(test)]
mod lists_of_parts;
#[cfg(test)]
mod orders_of_compositions;
#[cfg(test)]
mod rules;
#[cfg(test)]
mod values;
