// What an attach sends: from a waiting restart to the unit's ready report.
#![tactic(auto)]

ghost use Rattle.tca.specs.Fields.{unit_half};
ghost use Rattle.procedures.specs.Procedure.{rising, writes_row};
ghost use Rattle.procedures.specs.Performs.{Performs};
ghost use Rattle.ports.specs.Sendings.{zeros, sets_up, attaches_by, attaches};

use line::Line;
use line::command::{Command, PollAnswer};
use looking::said;
use procedures::silence::Silence;
use sending::rows::write_row;
use sending::starting::start;
use sending::{reset, send, write};
use tca::field::{DATA_AREA, UNIT_HALF};
use tca::request::{Request, terminal_places};

// Zeros to the whole of the unit's half, rising.
fn clear<L: Line>(line: &mut L) -> Result<(), Silence>
    ensures { Performs L.Line.step (writes_row (rising unit_half 64) zeros) line.old result line.new }
{
    // no `try_for_each`: a proof loses the line that a chain's closure changes
    for place in UNIT_HALF..DATA_AREA {
        write(line, place, 0)?;
    }
    Ok(())
}

fn set_up<L: Line>(line: &mut L, terminals: [u8; 5]) -> Result<(), Silence>
    ensures { Performs L.Line.step (sets_up terminals) line.old result line.new }
{
    send(line, Command::Acknowledge)?;
    clear(line)?;
    write_row(line, &terminal_places(), &terminals)?;
    start(line, Request::cu_ready(), 1)
}

fn attach_by<L: Line>(line: &mut L, terminals: [u8; 5], answer: PollAnswer) -> Result<bool, Silence>
    ensures { Performs L.Line.step (attaches_by terminals answer) line.old result line.new }
{
    match answer {
        PollAnswer::Reset => {
            set_up(line, terminals)?;
            Ok(true)
        }
        PollAnswer::Status | PollAnswer::Clean => {
            reset(line);
            Ok(false)
        }
    }
}

// Whether a restart waited, so that the device was set up: a question, answered by yes or no, as its definition does.
pub fn bring_up<L: Line>(line: &mut L, terminals: [u8; 5]) -> Result<bool, Silence>
    ensures { Performs L.Line.step (attaches terminals) line.old result line.new }
{
    let reply = send(line, Command::Poll)?;
    attach_by(line, terminals, said(reply))
}
