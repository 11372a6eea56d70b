// The backward sets of a set that grows by its states, from the rows that fire at each state. Assumes nothing.
#![tactic(auto)]

pub mod linking; // linking.rt: rows chained by the state at which they can fire
pub mod sets; // sets.rt: the backward sets of the set so far, kept for every symbol
