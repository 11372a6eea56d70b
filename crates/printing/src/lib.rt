// The print of a word's run: 02's "Let the desk read the run".
#![tactic(auto)]

mod steps; // steps.rt: the cases that a word's run reaches, in a table
pub mod print; // print.rt: the run's lines, for every input
