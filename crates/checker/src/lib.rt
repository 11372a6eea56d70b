// The checker: runs of the machine, at once and one step after the other.
#![tactic(auto)]

pub mod begin; // begin.rt: the begin of a run, for every input
pub mod record; // record.rt: what a run carries from step to step
pub mod run; // run.rt: the whole run, for every input
pub mod step; // step.rt: one step of a run, for every input
pub mod steps; // steps.rt: open, extend, block, close, and the step that is one of them
pub mod terms; // terms.rt: the terms of a run, and what is refused
