// The image of an alternating automaton: its checks, its backward sets, the steps of a picked run, and the test of a word.
#![tactic(auto)]

mod bytes; // bytes.rt: little-endian numbers
pub mod refusal; // refusal.rt: what is refused, and under which number
pub mod image; // image.rt: checks 20 to 27, and the head
pub mod rows; // rows.rt: where a symbol's rows stand, and one of them
pub mod backward; // backward.rt: the backward set of a case by a symbol
pub mod picks; // picks.rt: the case that a step reaches by the first rows that fit
pub mod word; // word.rt: whether a word is accepted
