// The Terminal Control Area: its fields, and the records that stand in it.
#![tactic(auto)]

pub mod family;
pub mod field;
pub mod request;
pub mod status;
