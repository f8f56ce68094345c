// What a request may ask for, what a unit is made for, and the numbers that calls answer.
#![tactic(auto)]

pub mod attachment;
pub mod function;
pub mod number;
