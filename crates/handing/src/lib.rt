// What is sent to hand a status over that the device posted by itself.
#![tactic(auto)]

ghost use Rattle.tca.specs.Records.{event_bytes, expedited_bytes};
ghost use Rattle.procedures.specs.Performs.{Performs, as_bytes};
ghost use Rattle.ports.specs.Sendings.{settles, expedites};

use line::Line;
use line::command::Command;
use ports::verdict::Verdict;
use procedures::silence::Silence;
use sending::rows::{read_status, write_row};
use sending::{reset, send, write};
use tca::family::Expedited;
use tca::field::{DPASTAT, EXFAK, EXFD1, EXFD2, EXFD3, EXFD4};
use tca::status::{Event, ExpeditedStatus};

// Where the response to an expedited status goes.
const RESPONSE_PLACES: [u16; 4] = [EXFD1.address, EXFD2.address, EXFD3.address, EXFD4.address];

// An event that was read and judged: only one that is allowed is acknowledged.
pub fn settle_event<L: Line>(line: &mut L, verdict: Verdict, event: Event) -> Result<Event, Silence>
    ensures { Performs L.Line.step (settles verdict (event_bytes event)) line.old (as_bytes event_bytes result) line.new }
{
    match verdict {
        Verdict::NotAllowed => reset(line),
        Verdict::Allowed(_) => write(line, DPASTAT.address, 0)?,
        Verdict::PermanentError => {
            write(line, DPASTAT.address, 0)?;
            reset(line);
        }
    }
    Ok(event)
}

// The response stands before EXFAK is cleared, and Terminal ID lets the device look at it.
pub fn expedite<L: Line>(line: &mut L, response: [u8; 4]) -> Result<ExpeditedStatus, Silence>
    ensures { Performs L.Line.step (expedites response) line.old (as_bytes expedited_bytes result) line.new }
{
    let status = read_status::<Expedited, 6, L>(line)?;
    write_row(line, &RESPONSE_PLACES, &response)?;
    write(line, EXFAK.address, 0)?;
    send(line, Command::TerminalId)?;
    Ok(status)
}
