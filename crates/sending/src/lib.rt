// Commands sent until they are answered: the only place that sends one again.
#![tactic(auto)]

pub mod rows;
pub mod starting;

ghost use Rattle.std.specs.Prelude.{◌≡◌, Ok};
ghost use Rattle.line.specs.declared.command.Command.TheVariants.{Reset};
ghost use Rattle.procedures.specs.Procedure.{sends, once, reads, writes, byte_of};
ghost use Rattle.procedures.specs.Performs.{Performs};

use line::command::{Command, Reply};
use line::{Line, issue};
use procedures::silence::Silence;

// How often a command is sent before its silence is taken for an end.
const MOST_SENDINGS: u8 = 32;

// One command, until it is answered; nothing goes between its sendings.
pub fn send<L: Line>(line: &mut L, command: Command) -> Result<Reply, Silence>
    ensures { Performs L.Line.step (sends command) line.old result line.new }
{
    // no `find_map`: a proof loses the line that a chain's closure changes
    for _ in 0..MOST_SENDINGS {
        if let Some(reply) = issue(line, command) {
            return Ok(reply);
        }
    }
    Err(Silence::from(command))
}

// The byte at an address; no line answers a Read by anything else.
pub fn read<L: Line>(line: &mut L, address: u16) -> Result<u8, Silence>
    ensures { Performs L.Line.step (reads address) line.old result line.new }
{
    match send(line, Command::Read(address))? {
        Reply::Byte(byte) => Ok(byte),
        Reply::Done | Reply::Polled(_) => Ok(0),
    }
}

pub fn write<L: Line>(line: &mut L, address: u16, value: u8) -> Result<(), Silence>
    ensures { Performs L.Line.step (writes address value) line.old result line.new }
{
    send(line, Command::Write(address, value))?;
    Ok(())
}

// One Reset, whatever becomes of it.
pub fn reset<L: Line>(line: &mut L)
    ensures { Performs L.Line.step (once Reset) line.old (Ok tt) line.new }
{
    line.reset();
}
