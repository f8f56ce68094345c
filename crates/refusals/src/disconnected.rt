// The calls on a disconnected port: configure and attach.
ghost use Rattle.std.specs.Prelude.{◌≡◌};
ghost use Rattle.std.specs.Result.{result_err};
ghost use Rattle.ports.specs.Refusals.{refuse_configure, refuse_attach, if_disconnected};

use codes::number::Refusal;
use ports::port::{Connection, Port};
use terminals::{none_configured, some_equal};

fn refuse_connection(connection: Option<Connection>) -> Result<(), Refusal>
    ensures { result_err result ≡ if_disconnected connection }
{
    connection.map_or(Ok(()), |_| Err(Refusal::Connected))
}

pub fn refuse_configure(terminals: [u8; 5], port: &Port) -> Result<(), Refusal>
    ensures { result_err result ≡ refuse_configure terminals port.now }
{
    if some_equal(terminals) {
        return Err(Refusal::EqualTerminals);
    }
    refuse_connection(port.connection)
}

pub fn refuse_attach(port: &Port) -> Result<(), Refusal>
    ensures { result_err result ≡ refuse_attach port.now }
{
    if none_configured(port.terminals) {
        return Err(Refusal::NotConfigured);
    }
    refuse_connection(port.connection)
}
