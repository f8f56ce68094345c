// What goes down a coax, and what comes back.

// A command of the coax. How many bytes a Write carries is said here and by its effect alone.
#[derive(Clone, Copy, PartialEq, Eq)]
pub enum Command {
    Poll,
    Read(u16),
    Write(u16, u8),
    Start,
    Acknowledge,
    TerminalId,
    Reset,
}

// What an answered Poll says: a restart waits, else a toggle is set, else neither.
#[derive(Clone, Copy, PartialEq, Eq)]
pub enum PollAnswer {
    Reset,
    Status,
    Clean,
}

// The answer to a command: to a Read its byte, to a Poll what it says, to any other that it was done.
#[derive(Clone, Copy, PartialEq, Eq)]
pub enum Reply {
    Done,
    Byte(u8),
    Polled(PollAnswer),
}
