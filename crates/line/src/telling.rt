ghost use Rattle.std.specs.Prelude.{◌≡◌};
ghost use Rattle.line.specs.State.{State};
ghost use Rattle.line.specs.Told.{told};

use crate::Line;

// All that a line keeps beside its device's memory.
#[derive(Clone, Copy)]
pub struct Registers {
    pub waiting: bool,
    pub working: bool,
    pub seen: u8,
    pub last: [u8; 8],
    pub taken: u32,
    pub events: u32,
    pub expedited: u32,
    pub row: u8,
}

// What a line tells, for programs and for checks of their results.
#[derive(Clone, Copy)]
pub struct Telling<'a> {
    pub memory: &'a [u8],
    pub registers: Registers,
}

// A line whose state can be looked at. That is no command: nothing goes down the coax.
pub trait Tells: Line {
    fn telling(&self) -> Telling<'_>
        ensures { told result ≡ Self.Line.state self.now };
}
