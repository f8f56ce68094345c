// A device in memory, behind a coax that loses nothing: what every supplied line is built on.
#![tactic(auto)]

pub mod device;
mod memory;
pub mod size;
pub mod snapshot;
