// A request: its data goes down first, then its start.
#![tactic(auto)]

ghost use Rattle.std.specs.Prelude.{◌+◌, ◌≤◌, length};
ghost use Rattle.procedures.specs.Procedure.{rising, writes_row};
ghost use Rattle.procedures.specs.Performs.{Performs};
ghost use Rattle.ports.specs.Call.{Done};
ghost use Rattle.ports.specs.Calls.{request_call};
ghost use Rattle.ports.specs.Sendings.{requests};

use line::Line;
use ports::answers::Failure;
use ports::port::Port;
use procedures::silence::Silence;
use refusals::function::refuse_request;
use sending::starting::start;
use sending::write;
use settling::requests::settle_request;
use tca::request::Request;

// One Write for each byte, rising from the data's address. A range with no end stops below the last address,
// which no memory has.
fn write_data<L: Line>(line: &mut L, address: u16, data: &[u8]) -> Result<(), Silence>
    requires { address + length «data».now ≤ 65535 }
    ensures { Performs L.Line.step (writes_row (rising address (length «data».now)) «data».now) line.old result line.new }
{
    for (place, byte) in (address..).zip(data) {
        write(line, place, *byte)?;
    }
    Ok(())
}

fn send_request<L: Line>(
    line: &mut L,
    request: Request,
    data: &[u8],
    cusyn: u8,
) -> Result<(), Silence>
    requires { request.«data» + length «data».now ≤ 65535 }
    ensures { Performs L.Line.step (requests request «data».now cusyn) line.old result line.new }
{
    write_data(line, request.data, data)?;
    start(line, request, cusyn)
}

pub fn request<L: Line>(
    port: &mut Port,
    line: &mut L,
    request: Request,
    data: &[u8],
) -> Result<(), Failure>
    ensures { Done L.Line.step L.Line.state (request_call request «data».now port.old (L.Line.state line.old)) port.old line.old result port.new line.new }
{
    refuse_request(port, line.size(), request, data.len())?;
    let begun = send_request(line, request, data, port.next_cusyn());
    settle_request(port, request, begun)
}
