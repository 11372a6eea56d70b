// What a close by an index asks of its tables: searches, the index of the blockers that may cover a case, and those that leave for one that has risen. Assumes
// nothing.
#![tactic(auto)]

pub mod searching; // searching.rt: the first place that passes a test
pub mod index; // index.rt: the places that may cover a case
pub mod leaving; // leaving.rt: the blockers that leave for one that has risen
