// What a poll saw, before anything is made of it.

#[derive(Clone, Copy, PartialEq, Eq)]
pub enum Seen {
    // a restart waits
    Restart,
    // no status
    Clean,
    // the toggle at this address is neither 0 nor 1
    Bad(u16),
    Toggles { exfak: u8, dpsstat: u8, dpastat: u8 },
}
