// The unit: 32 ports, and the calls that a host makes of them. Each call names its port by number and is handed
// that port's line.
#![tactic(auto)]

pub mod unit;
