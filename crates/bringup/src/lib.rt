// What brings a terminal up: sendings that are noted, and the commands of the opening.
#![tactic(auto)]

pub mod opening;
pub mod sends;
