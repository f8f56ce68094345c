// A unit with 32 lines, each call with the line of its port. A list of calls is to be run here; so far there are
// its orders and answers, and the step of a poll.
#![tactic(auto)]

pub mod order;
pub mod step;
