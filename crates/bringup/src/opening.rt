// The commands that take a device whose restart waits to its first request.
ghost use Rattle.std.specs.Prelude.{◌≡◌, ◌++◌, IfOk, OnOk};
ghost use Rattle.bringup.specs.Opening.{writes, unit_half_zeros, opening_commands, toggle_reads};

use line::command::Command;
use std::alloc::{AllocError, Global};
use tca::field::{CUSYN, DATA_AREA, DPASTAT, DPSSTAT, EXFAK, UNIT_HALF};
use tca::request::{Request, request_places, terminal_places};

// Reads of the three status toggles, in the order in which they are looked at.
pub fn toggle_reads() -> [Command; 3]
    ensures { result ≡ toggle_reads }
{
    [
        Command::Read(EXFAK.address),
        Command::Read(DPSSTAT.address),
        Command::Read(DPASTAT.address),
    ]
}

// Adds a Write of zero to each place of the control unit's half, rising.
fn clear(commands: &mut Vec<Command>) -> Result<(), AllocError>
    ensures { OnOk result (commands.new.items ≡ commands.old.items ++ unit_half_zeros) }
{
    commands.extend((UNIT_HALF..DATA_AREA).map(|place| Command::Write(place, 0)))
}

// Adds a Write of each byte to its place, as far as there are both.
fn write_row(commands: &mut Vec<Command>, places: &[u16], bytes: &[u8]) -> Result<(), AllocError>
    ensures { OnOk result (commands.new.items ≡ commands.old.items ++ writes places.now bytes.now) }
{
    let row = places.iter().zip(bytes);
    commands.extend(row.map(|(place, byte)| Command::Write(*place, *byte)))
}

// Acknowledges the restart, clears the control unit's half, names the five logical terminals and asks for
// the first function, the control unit's report that it is ready.
pub fn opening(heap: Global, terminals: [u8; 5]) -> Result<Vec<Command>, AllocError>
    ensures { IfOk result (λ v. v.items ≡ opening_commands terminals) }
{
    let mut commands = Vec::new(heap);
    commands.push(Command::Poll)?;
    commands.push(Command::Acknowledge)?;
    clear(&mut commands)?;
    write_row(&mut commands, &terminal_places(), &terminals)?;
    let request: [u8; 8] = Request::cu_ready().into();
    write_row(&mut commands, &request_places(), &request)?;
    commands.push(Command::Write(DPSSTAT.address, 0))?;
    commands.push(Command::Write(CUSYN.address, 1))?;
    commands.push(Command::Start)?;
    Ok(commands)
}
