// The calls that go with a request: request, collect and fetch.
ghost use Rattle.std.specs.Prelude.{◌≡◌};
ghost use Rattle.tca.specs.Records.{synchronous_bytes};
ghost use Rattle.procedures.specs.Performs.{as_bytes};
ghost use Rattle.ports.specs.Calls.{request_answer, requested_after, collect_answer, collected_after, fetched_after};
ghost use Rattle.settling.specs.Settled.{found as found_by};

use crate::leaving::{found, silenced};
use ports::answers::Failure;
use ports::port::Port;
use procedures::silence::Silence;
use tca::request::Request;
use tca::status::SynchronousStatus;

// Broken off, the request is accepted and lost.
pub fn settle_request(
    port: &mut Port,
    request: Request,
    begun: Result<(), Silence>,
) -> Result<(), Failure>
    ensures value { result ≡ request_answer request begun }
    ensures after { port.new ≡ requested_after request port.old result }
{
    match begun {
        Ok(()) => {
            let cusyn = port.next_cusyn();
            if let Some(connection) = &mut port.connection {
                connection.cusyn = cusyn;
                connection.request = Some(request);
            }
            Ok(())
        }
        Err(silence) => {
            port.connection = None;
            Err(silenced(silence, Some(request)).into())
        }
    }
}

// What was collected is over, so the port is idle.
pub fn settle_collect(
    port: &mut Port,
    read: Result<SynchronousStatus, Silence>,
) -> Result<SynchronousStatus, Failure>
    ensures value { result ≡ collect_answer port.old (as_bytes synchronous_bytes read) }
    ensures after { port.new ≡ collected_after port.old result }
{
    let status = found(port, read)?;
    if let Some(connection) = &mut port.connection {
        connection.marks.ended = false;
        connection.request = None;
    }
    Ok(status)
}

// The buffer is none of a port's business.
pub fn settle_fetch(port: &mut Port, fetched: Result<(), Silence>) -> Result<(), Failure>
    ensures value { result ≡ found_by port.old fetched }
    ensures after { port.new ≡ fetched_after port.old result }
{
    found(port, fetched)
}
