// The calls that look for a status or serve one: poll, take and expedite.
ghost use Rattle.std.specs.Prelude.{◌≡◌};
ghost use Rattle.tca.specs.Records.{event_bytes, expedited_bytes};
ghost use Rattle.procedures.specs.Performs.{as_bytes};
ghost use Rattle.ports.specs.Calls.{poll_answer, polled_after, judged, take_by, take_answer, taken_after, expedite_answer, expedited_after};

use crate::leaving::{found, leave};
use codes::attachment::Attachment;
use codes::number::Ending;
use events::judge;
use ports::answers::{Failure, Handed};
use ports::port::{Marks, Port};
use ports::seen::Seen;
use ports::verdict::Verdict;
use procedures::silence::{CommandKind, Silence};
use tca::field::{DALTAD, DPASTAT};
use tca::status::{Event, ExpeditedStatus};
use terminals::Terminals;

// The marks are set anew; a request can have ended only where the port holds one.
pub fn settle_poll(port: &mut Port, seen: Result<Seen, Silence>) -> Result<Marks, Failure>
    ensures value { result ≡ poll_answer port.old seen }
    ensures after { port.new ≡ polled_after port.old result }
{
    let marks = match found(port, seen)? {
        Seen::Restart => {
            let last = Some((CommandKind::Poll, 0));
            return Err(leave(port, Ending::DeviceReset, last).into());
        }
        Seen::Bad(address) => {
            let last = Some((CommandKind::Read, address));
            return Err(leave(port, Ending::BadToggle, last).into());
        }
        Seen::Clean => Marks::default(),
        Seen::Toggles {
            exfak,
            dpsstat,
            dpastat,
        } => Marks {
            expedited: exfak == 1,
            ended: port.held().is_some() && dpsstat == 1,
            asynchronous: dpastat == 1,
        },
    };
    if let Some(connection) = &mut port.connection {
        connection.marks = marks;
    }
    Ok(marks)
}

fn settle_event(port: &mut Port, attachment: Attachment, event: Event) -> Result<Handed, Failure>
    ensures value { result ≡ take_by port.old (judged attachment port.old event) event }
    ensures after { port.new ≡ taken_after attachment port.old result }
{
    let disconnection = match judge(attachment, Terminals::from(&*port), event) {
        Verdict::NotAllowed => {
            let last = Some((CommandKind::Read, DALTAD.address));
            return Err(leave(port, Ending::EventNotAllowed, last).into());
        }
        Verdict::Allowed(online) => {
            if let Some(connection) = &mut port.connection {
                connection.marks.asynchronous = false;
                connection.online = online;
            }
            None
        }
        Verdict::PermanentError => {
            let last = Some((CommandKind::Write, DPASTAT.address));
            Some(leave(port, Ending::PermanentError, last))
        }
    };
    Ok(Handed {
        event,
        disconnection,
    })
}

// An event that is not allowed is not handed over.
pub fn settle_take(
    port: &mut Port,
    attachment: Attachment,
    read: Result<Event, Silence>,
) -> Result<Handed, Failure>
    ensures value { result ≡ take_answer attachment port.old (as_bytes event_bytes read) }
    ensures after { port.new ≡ taken_after attachment port.old result }
{
    let event = found(port, read)?;
    settle_event(port, attachment, event)
}

pub fn settle_expedite(
    port: &mut Port,
    read: Result<ExpeditedStatus, Silence>,
) -> Result<ExpeditedStatus, Failure>
    ensures value { result ≡ expedite_answer port.old (as_bytes expedited_bytes read) }
    ensures after { port.new ≡ expedited_after port.old result }
{
    let status = found(port, read)?;
    if let Some(connection) = &mut port.connection {
        connection.marks.expedited = false;
    }
    Ok(status)
}
