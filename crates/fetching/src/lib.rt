// A fetch: so many bytes of the device's memory, into the front of a buffer.
#![tactic(auto)]

ghost use Rattle.std.specs.Prelude.{◌≡◌, ◌+◌, ◌≤◌, length};
ghost use Rattle.procedures.specs.Performs.{Performs};
ghost use Rattle.ports.specs.Sendings.{fetches};
ghost use Rattle.ports.specs.Call.{Done};
ghost use Rattle.ports.specs.Calls.{buffer_after, fetch_call};
ghost use Rattle.fetching.specs.Into.{read_into};

use line::Line;
use ports::answers::Failure;
use ports::port::Port;
use procedures::silence::Silence;
use refusals::function::refuse_fetch;
use sending::read;
use settling::requests::settle_fetch;

// As many bytes as the buffer takes, rising from an address; those after a silence stay.
fn read_data<L: Line>(line: &mut L, address: u16, buffer: &mut [u8]) -> Result<(), Silence>
    requires { address + length buffer.old ≤ 65535 }
    ensures commands { Performs L.Line.step (fetches address (length buffer.old)) line.old (read_into buffer.new result) line.new }
    ensures after { buffer.new ≡ buffer_after address buffer.old (L.Line.state line.old) (read_into buffer.new result) }
{
    for (i, byte) in buffer.iter_mut().enumerate() {
        *byte = read(line, address + i as u16)?;
    }
    Ok(())
}

// The answer, and the buffer after it. The count stays beside the buffer: one past its end is refused by 9, and a
// slice that is too short cannot be handed over.
pub fn fetch<L: Line>(
    port: &mut Port,
    line: &mut L,
    address: u16,
    count: usize,
    buffer: &mut [u8],
) -> Result<(), Failure>
    ensures { Done L.Line.step L.Line.state (fetch_call address count buffer.old port.old (L.Line.state line.old)) port.old line.old (result, buffer.new) port.new line.new }
{
    refuse_fetch(port, line.size(), address, count, buffer.len())?;
    let read = read_data(line, address, &mut buffer[..count]);
    settle_fetch(port, read)
}
