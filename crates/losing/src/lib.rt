// A line that loses commands and answers of any line below it, as its marks say.
#![tactic(auto)]

pub mod losing;
pub mod mark;
