// Asking for the statuses that a poll has marked.
ghost use Rattle.std.specs.Prelude.{◌≡◌};
ghost use Rattle.tca.specs.Records.{event_bytes};
ghost use Rattle.procedures.specs.Performs.{Performs, as_bytes};
ghost use Rattle.ports.specs.Call.{Done};
ghost use Rattle.ports.specs.Calls.{collect_call, take_call, expedite_call};
ghost use Rattle.ports.specs.Events.{judge as judged_by};
ghost use Rattle.ports.specs.Sendings.{takes};

use codes::attachment::Attachment;
use events::judge;
use handing::settle_event;
use line::Line;
use ports::answers::{Failure, Handed};
use ports::port::Port;
use procedures::silence::Silence;
use refusals::status::{refuse_collect, refuse_expedite, refuse_take};
use sending::rows::read_status;
use settling::requests::settle_collect;
use settling::statuses::{settle_expedite, settle_take};
use tca::family::{Asynchronous, Synchronous};
use tca::status::{Event, ExpeditedStatus, SynchronousStatus};
use terminals::Terminals;

pub fn collect<L: Line>(port: &mut Port, line: &mut L) -> Result<SynchronousStatus, Failure>
    ensures { Done L.Line.step L.Line.state (collect_call port.old) port.old line.old result port.new line.new }
{
    refuse_collect(port)?;
    let read = read_status::<Synchronous, 4, L>(line);
    settle_collect(port, read)
}

// The event is judged before anything is written.
fn take_event<L: Line>(
    line: &mut L,
    attachment: Attachment,
    terminals: Terminals,
) -> Result<Event, Silence>
    ensures { Performs L.Line.step (takes (λ e. judged_by attachment terminals.addresses terminals.online e)) line.old (as_bytes event_bytes result) line.new }
{
    let event = read_status::<Asynchronous, 6, L>(line)?;
    settle_event(line, judge(attachment, terminals, event), event)
}

pub fn take<L: Line>(
    port: &mut Port,
    line: &mut L,
    attachment: Attachment,
) -> Result<Handed, Failure>
    ensures { Done L.Line.step L.Line.state (take_call attachment port.old) port.old line.old result port.new line.new }
{
    refuse_take(port)?;
    let read = take_event(line, attachment, Terminals::from(&*port));
    settle_take(port, attachment, read)
}

pub fn expedite<L: Line>(
    port: &mut Port,
    line: &mut L,
    response: [u8; 4],
) -> Result<ExpeditedStatus, Failure>
    ensures { Done L.Line.step L.Line.state (expedite_call response port.old) port.old line.old result port.new line.new }
{
    refuse_expedite(port)?;
    let read = handing::expedite(line, response);
    settle_expedite(port, read)
}
