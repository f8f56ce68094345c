// The logical terminals of a port: which are configured, and which of them are online.
#![tactic(auto)]

ghost use Rattle.std.specs.Prelude.{◌≡◌};
ghost use Rattle.ports.specs.Terminals.{none_configured, some_equal, is_configured, is_online, all_configured, first_bit};
ghost use Rattle.terminals.specs.Ports.{terminals_of};

use ports::port::Port;
use tca::request::NO_TERMINAL;

// A set of the five terminals is a byte, in which each has its bit.
const BITS: [u8; 5] = [0x80, 0x40, 0x20, 0x10, 0x08];

// The addresses of a port's terminals, and the set of those that are online.
#[derive(Clone, Copy)]
pub struct Terminals {
    pub addresses: [u8; 5],
    pub online: u8,
}

impl From<&Port> for Terminals {
    ghost from_gives = { λ k t. t ≡ terminals_of k.now };

    fn from(port: &Port) -> Terminals {
        Terminals {
            addresses: port.terminals,
            online: port.online(),
        }
    }
}

impl Terminals {
    #[tactic(auto, using(crate::proofs::Searches::is_in_any))]
    pub fn is_configured(self, address: u8) -> bool
        ensures { result ≡ is_configured self.addresses address }
    {
        address != NO_TERMINAL && self.addresses.contains(&address)
    }

    // Whether an address is that of a terminal that is online.
    pub fn is_online(self, address: u8) -> bool
        ensures { result ≡ is_online self.addresses self.online address }
    {
        let mut terminals = self.addresses.iter().zip(&BITS);
        address != NO_TERMINAL
            && terminals.any(|(other, bit)| *other == address && self.online & *bit != 0)
    }

    // Whether each terminal in a set has an address.
    pub fn all_configured(self, set: u8) -> bool
        ensures { result ≡ all_configured first_bit self.addresses set }
    {
        let mut terminals = self.addresses.iter().zip(&BITS);
        terminals.all(|(address, bit)| set & *bit == 0 || *address != NO_TERMINAL)
    }
}

// A port with no terminal is out of service.
pub fn none_configured(terminals: [u8; 5]) -> bool
    ensures { result ≡ none_configured terminals }
{
    terminals.iter().all(|address| *address == NO_TERMINAL)
}

// Whether two of the terminals have one address.
pub fn some_equal(terminals: [u8; 5]) -> bool
    ensures { result ≡ some_equal terminals }
{
    terminals.iter().enumerate().any(|(place, address)| *address != NO_TERMINAL
        && terminals[place + 1..].contains(address))
}
