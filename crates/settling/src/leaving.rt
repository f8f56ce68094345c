// A port's disconnection, which leaves nothing but the addresses, and what is told of it.
ghost use Rattle.std.specs.Prelude.{◌≡◌, Ok};
ghost use Rattle.ports.specs.Port.{disconnected};
ghost use Rattle.ports.specs.Calls.{broken_by, answered_after, dropped_by, dropped_after};
ghost use Rattle.settling.specs.Settled.{left_by, found as found_by};

use codes::number::Ending;
use ports::answers::Failure;
use ports::disconnection::Disconnection;
use ports::port::Port;
use procedures::silence::{CommandKind, Silence};
use tca::request::Request;

// What is told of a silence. The lost request is given, since one that was just begun is not yet the port's.
pub(crate) fn silenced(silence: Silence, lost: Option<Request>) -> Disconnection
    ensures { result ≡ broken_by silence lost }
{
    Disconnection {
        cause: Ending::Silence,
        last: Some((silence.command, silence.address)),
        lost,
    }
}

// Disconnects the port, and tells why; the request that it held is lost.
pub(crate) fn leave(
    port: &mut Port,
    cause: Ending,
    last: Option<(CommandKind, u16)>,
) -> Disconnection
    ensures value { result ≡ left_by cause last port.old }
    ensures after { port.new ≡ disconnected port.old }
{
    let lost = port.held();
    port.connection = None;
    Disconnection { cause, last, lost }
}

// What came back from a connected port's line; a silence disconnects the port.
pub(crate) fn found<T>(port: &mut Port, read: Result<T, Silence>) -> Result<T, Failure>
    ensures value { result ≡ found_by port.old read }
    ensures after { port.new ≡ answered_after (λ _. port.old) port.old result }
{
    match read {
        Ok(found) => Ok(found),
        Err(silence) => {
            let told = silenced(silence, port.held());
            port.connection = None;
            Err(told.into())
        }
    }
}

// No command is told of a drop.
pub fn settle_drop(port: &mut Port) -> Disconnection
    ensures value { result ≡ dropped_by port.old }
    ensures after { port.new ≡ dropped_after port.old (Ok result) }
{
    leave(port, Ending::Dropped, None)
}
