// What a unit keeps for one port.
ghost use Rattle.std.specs.Prelude.{◌≡◌};
ghost use Rattle.ports.specs.Port.{new_port, held, online, next_cusyn};

use tca::request::{NO_TERMINAL, Request};

// Which statuses the last poll found: the host is to ask for each. None, by default.
#[derive(Clone, Copy, PartialEq, Eq, Default)]
pub struct Marks {
    pub expedited: bool,
    pub ended: bool,
    pub asynchronous: bool,
}

// What exists only while a port is connected, so that nothing stale outlives a disconnection.
#[derive(Clone, Copy, PartialEq, Eq)]
pub struct Connection {
    // the value last written to CUSYN
    pub cusyn: u8,
    pub marks: Marks,
    // the logical terminals online, a bit for each of the five, the first one the most significant
    pub online: u8,
    // the one request that was accepted and not yet collected: a port that holds one is active
    pub request: Option<Request>,
}

// The five addresses are those of the logical terminals, X'FF' for none; five times none is out of service.
#[derive(Clone, Copy, PartialEq, Eq)]
pub struct Port {
    pub terminals: [u8; 5],
    pub connection: Option<Connection>,
}

impl Port {
    // Out of service and disconnected.
    pub fn new() -> Port
        ensures { result ≡ new_port }
    {
        Port {
            terminals: [NO_TERMINAL; 5],
            connection: None,
        }
    }

    // The request that it holds; a disconnection loses it.
    pub fn held(&self) -> Option<Request>
        ensures { result ≡ held self.now.connection }
    {
        self.connection?.request
    }

    // Its logical terminals that are online; none are while it is disconnected.
    pub fn online(&self) -> u8
        ensures { result ≡ online self.now.connection }
    {
        self.connection.map_or(0, |connection| connection.online)
    }

    // What the next start writes to CUSYN.
    pub fn next_cusyn(&self) -> u8
        ensures { result ≡ next_cusyn self.now.connection }
    {
        self.connection
            .map_or(1, |connection| 1u8.saturating_sub(connection.cusyn))
    }
}
