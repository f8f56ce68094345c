// Polling a port.
ghost use Rattle.ports.specs.Call.{Done};
ghost use Rattle.ports.specs.Calls.{poll_call};

use line::Line;
use looking::look;
use ports::answers::Failure;
use ports::port::{Marks, Port};
use refusals::connected::refuse_connected;
use settling::statuses::settle_poll;

pub fn poll<L: Line>(port: &mut Port, line: &mut L) -> Result<Marks, Failure>
    ensures { Done L.Line.step L.Line.state (poll_call port.old) port.old line.old result port.new line.new }
{
    refuse_connected(port)?;
    let seen = look(line);
    settle_poll(port, seen)
}
