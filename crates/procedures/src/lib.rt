// What a call sends down its line, and what is made of the answers: procedures of commands. Here is what a
// silence tells; the rest are definitions and what holds of every procedure.
#![tactic(auto)]

pub mod silence;
