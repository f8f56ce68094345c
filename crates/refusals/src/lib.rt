// When a call is refused at a port: by the reason with the smallest number that holds, so the reasons are
// looked at in the order of their numbers.
#![tactic(auto)]

pub mod connected;
pub mod disconnected;
pub mod function;
pub mod status;
