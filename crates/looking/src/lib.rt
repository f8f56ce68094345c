// What a poll sees: its answer, and the toggles if it says status.
#![tactic(auto)]

ghost use Rattle.std.specs.Prelude.{◌≡◌, ◌≤◌, Ok, MatchResult};
ghost use Rattle.line.specs.declared.command.PollAnswer.TheVariants.{Status as StatusIsThere};
ghost use Rattle.procedures.specs.Procedure.{said as says, reads};
ghost use Rattle.procedures.specs.Performs.{Performs};
ghost use Rattle.ports.specs.Sendings.{looks, polls};
ghost use Rattle.looking.specs.declared.Early.TheVariants.{Silent};
ghost use Rattle.looking.specs.Ends.{EndsAt, seen_by};

use line::Line;
use line::command::{Command, PollAnswer, Reply};
use ports::seen::Seen;
use procedures::silence::Silence;
use sending::{read, reset, send};
use tca::field::{DPASTAT, DPSSTAT, EXFAK};

// The answer to a Poll; no line answers it by anything else.
pub fn said(reply: Reply) -> PollAnswer
    ensures { result ≡ says reply }
{
    match reply {
        Reply::Polled(answer) => answer,
        Reply::Done | Reply::Byte(_) => PollAnswer::Clean,
    }
}

// What ends the reading of toggles before the last.
enum Early {
    Silent(Silence),
    // the toggle at this address is neither 0 nor 1, and the device was reset
    BadToggle(u16),
}

impl From<Silence> for Early {
    ghost from_gives = { λ e early. early ≡ Silent e };

    fn from(silence: Silence) -> Early {
        Early::Silent(silence)
    }
}

fn read_toggle<L: Line>(line: &mut L, address: u16) -> Result<u8, Early>
    ensures { MatchResult result
        (λ toggle. (toggle ≤ 1) × Performs L.Line.step (reads address) line.old (Ok toggle) line.new)
        (λ early. EndsAt L.Line.step address line.old early line.new) }
{
    let toggle = read(line, address)?;
    if toggle > 1 {
        reset(line);
        return Err(Early::BadToggle(address));
    }
    Ok(toggle)
}

// The three toggles in their order.
fn read_toggles<L: Line>(line: &mut L) -> Result<Seen, Early>
    ensures { Performs L.Line.step (looks StatusIsThere) line.old (seen_by result) line.new }
{
    let exfak = read_toggle(line, EXFAK.address)?;
    let dpsstat = read_toggle(line, DPSSTAT.address)?;
    let dpastat = read_toggle(line, DPASTAT.address)?;
    Ok(Seen::Toggles {
        exfak,
        dpsstat,
        dpastat,
    })
}

fn see<L: Line>(line: &mut L, answer: PollAnswer) -> Result<Seen, Silence>
    ensures { Performs L.Line.step (looks answer) line.old result line.new }
{
    match answer {
        PollAnswer::Reset => {
            reset(line);
            Ok(Seen::Restart)
        }
        PollAnswer::Status => match read_toggles(line) {
            Ok(toggles) => Ok(toggles),
            Err(Early::BadToggle(address)) => Ok(Seen::Bad(address)),
            Err(Early::Silent(silence)) => Err(silence),
        },
        PollAnswer::Clean => Ok(Seen::Clean),
    }
}

pub fn look<L: Line>(line: &mut L) -> Result<Seen, Silence>
    ensures { Performs L.Line.step polls line.old result line.new }
{
    let reply = send(line, Command::Poll)?;
    see(line, said(reply))
}
