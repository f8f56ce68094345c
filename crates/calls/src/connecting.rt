// Connecting a port, and leaving it.
ghost use Rattle.line.specs.State.{State};
ghost use Rattle.ports.specs.Call.{Outcome, Done};
ghost use Rattle.ports.specs.Calls.{configure_call, attach_call, drop_call};

use attaching::bring_up;
use codes::number::Refusal;
use line::Line;
use ports::answers::AttachFailure;
use ports::disconnection::Disconnection;
use ports::port::Port;
use refusals::connected::refuse_connected;
use refusals::disconnected::{refuse_attach, refuse_configure};
use sending::reset;
use settling::connecting::{settle_attach, settle_configure};
use settling::leaving::settle_drop;

// It has no line: whatever one tells stays.
pub fn configure(port: &mut Port, terminals: [u8; 5]) -> Result<(), Refusal>
    ensures { (t : State) → Outcome (configure_call terminals port.old) port.old t result port.new t }
{
    refuse_configure(terminals, port)?;
    settle_configure(port, terminals);
    Ok(())
}

pub fn attach<L: Line>(port: &mut Port, line: &mut L) -> Result<(), AttachFailure>
    ensures { Done L.Line.step L.Line.state (attach_call port.old) port.old line.old result port.new line.new }
{
    refuse_attach(port)?;
    let attached = bring_up(line, port.terminals);
    settle_attach(port, attached)
}

pub fn drop<L: Line>(port: &mut Port, line: &mut L) -> Result<Disconnection, Refusal>
    ensures { Done L.Line.step L.Line.state (drop_call port.old) port.old line.old result port.new line.new }
{
    refuse_connected(port)?;
    reset(line);
    Ok(settle_drop(port))
}
