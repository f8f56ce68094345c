// The calls, each on one port and its line; request and fetch have crates of their own. The two come apart:
// the ports are the unit's, and each line is its caller's, so a struct of both would be made for one call.
#![tactic(auto)]

pub mod connecting;
pub mod polling;
pub mod statuses;
