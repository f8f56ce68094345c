// The lines that are supplied: each a simulated device with a program of its own.
#![tactic(auto)]

pub mod device_line;
pub mod printer;
pub mod program;
pub mod terminal;
