// The numbers under which a call is refused and a connection ends.
ghost use Rattle.std.specs.Prelude.{◌≡◌};
ghost use Rattle.codes.specs.Numbers.{refusal_number, ending_number};

// Why a call was refused; nothing has changed then.
#[derive(Clone, Copy, PartialEq, Eq)]
pub enum Refusal {
    // the host named a port above 31
    PortTooHigh = 1,
    // the host gave two logical terminals one address that is not X'FF'
    EqualTerminals = 2,
    // the host named a port that is not configured
    NotConfigured = 3,
    // the host asked of a connected port what only a disconnected one does
    Connected = 4,
    // the host asked of a disconnected port what only a connected one does
    Disconnected = 5,
    // the host asked for a function while the port was not idle
    NotIdle = 6,
    // the host gave a function code, or a status report's first parameter, that is not listed
    UnknownCode = 7,
    // the host named a logical terminal that is not online
    TerminalOffline = 8,
    // the host's data lies outside X'0080' to the end of memory, is over 4,096 bytes or passes the buffer
    DataOutside = 9,
    // the device reported a status whose mark is not set
    NotMarked = 10,
    // the device reported a status while the expedited mark was set
    ExpeditedFirst = 11,
    // the owner of the memory has a full queue
    QueueFull = 12,
    // the script has a line that cannot be read
    Malformed = 13,
}

impl From<Refusal> for u8 {
    ghost from_gives = { λ refusal number. number ≡ refusal_number refusal };

    fn from(refusal: Refusal) -> u8 {
        refusal as u8
    }
}

// Why a connection ended.
#[derive(Clone, Copy, PartialEq, Eq)]
pub enum Ending {
    // 32 sendings went unanswered
    Silence = 21,
    // a status toggle was neither 0 nor 1
    BadToggle = 22,
    // the answer to the poll said that the device was reset
    DeviceReset = 23,
    // the device reported an event that is not allowed
    EventNotAllowed = 24,
    // the device reported a permanent error
    PermanentError = 25,
    // the host dropped the connection
    Dropped = 26,
    // on attaching, the device was not waiting after a restart
    NotWaiting = 27,
}

impl From<Ending> for u8 {
    ghost from_gives = { λ ending number. number ≡ ending_number ending };

    fn from(ending: Ending) -> u8 {
        ending as u8
    }
}
