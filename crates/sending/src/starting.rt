// Starting a request.
ghost use Rattle.ports.specs.Sendings.{starts};
ghost use Rattle.procedures.specs.Performs.{Performs};

use crate::rows::write_row;
use crate::{send, write};
use line::Line;
use line::command::Command;
use procedures::silence::Silence;
use tca::field::{CUSYN, DPSSTAT};
use tca::request::{Request, request_places};

// The eight bytes, zero to DPSSTAT, CUSYN with its new value, then Start: in this order the device can take
// nothing before all of it stands.
pub fn start<L: Line>(line: &mut L, request: Request, cusyn: u8) -> Result<(), Silence>
    ensures { Performs L.Line.step (starts request cusyn) line.old result line.new }
{
    write_row(line, &request_places(), &<[u8; 8]>::from(request))?;
    write(line, DPSSTAT.address, 0)?;
    write(line, CUSYN.address, cusyn)?;
    send(line, Command::Start)?;
    Ok(())
}
