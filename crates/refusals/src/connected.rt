// What every call on a connected port asks of it first. A poll and a drop ask for nothing else.
ghost use Rattle.std.specs.Prelude.{◌≡◌};
ghost use Rattle.std.specs.Result.{result_err};
ghost use Rattle.ports.specs.Refusals.{refuse_connected, nothing_else};
ghost use Rattle.refusals.specs.Connections.{connection_of};

use codes::number::Refusal;
use ports::port::{Connection, Port};
use terminals::none_configured;

pub(crate) fn connection(port: &Port) -> Result<Connection, Refusal>
    ensures { result ≡ connection_of port.now }
{
    if none_configured(port.terminals) {
        return Err(Refusal::NotConfigured);
    }
    port.connection.ok_or(Refusal::Disconnected)
}

// Of a poll and of a drop.
pub fn refuse_connected(port: &Port) -> Result<(), Refusal>
    ensures { result_err result ≡ refuse_connected nothing_else port.now }
{
    connection(port)?;
    Ok(())
}
