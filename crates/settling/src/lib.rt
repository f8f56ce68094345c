// What becomes of a port by what came back from its line, and what the call then answers.
#![tactic(auto)]

pub mod connecting;
pub mod leaving;
pub mod requests;
pub mod statuses;
