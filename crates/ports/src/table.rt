// The ports of a unit, and which one turn named last.
ghost use Rattle.std.specs.Prelude.{◌≡◌};
ghost use Rattle.ports.specs.Turn.{new_table};

use crate::port::Port;

#[derive(Clone, Copy, PartialEq, Eq)]
pub struct Table {
    pub ports: [Port; 32],
    pub last: u8,
}

impl Table {
    // No port is in service, and turn begins as if it had named the last one.
    pub fn new() -> Table
        ensures { result ≡ new_table 32 31 }
    {
        Table {
            ports: [Port::new(); 32],
            last: 31,
        }
    }
}
