// What a unit keeps for each port, what its calls answer, and by definitions what each call does to one port
// and one line.
#![tactic(auto)]

pub mod answers;
pub mod disconnection;
pub mod port;
pub mod seen;
pub mod table;
pub mod verdict;
