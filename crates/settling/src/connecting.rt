// The calls on a disconnected port: configure and attach.
ghost use Rattle.std.specs.Prelude.{◌≡◌, Ok};
ghost use Rattle.ports.specs.Calls.{configured_after, attach_answer, attached_after};

use crate::leaving::silenced;
use ports::answers::AttachFailure;
use ports::port::{Connection, Marks, Port};
use procedures::silence::Silence;
use tca::request::Request;

pub fn settle_configure(port: &mut Port, terminals: [u8; 5])
    ensures { port.new ≡ configured_after terminals port.old (Ok tt) }
{
    port.terminals = terminals;
}

// The unit's ready report is the first request, so an attached port is active. Whether a restart waited comes as a
// yes or no, which is made a failure only here.
pub fn settle_attach(port: &mut Port, attached: Result<bool, Silence>) -> Result<(), AttachFailure>
    ensures value { result ≡ attach_answer attached }
    ensures after { port.new ≡ attached_after port.old result }
{
    match attached {
        Ok(true) => {
            port.connection = Some(Connection {
                cusyn: 1,
                marks: Marks::default(),
                online: 0,
                request: Some(Request::cu_ready()),
            });
            Ok(())
        }
        Ok(false) => Err(AttachFailure::NotWaiting),
        Err(silence) => Err(silenced(silence, None).into()),
    }
}
