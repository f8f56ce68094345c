// Where a procedure broke off: the command that went unanswered at all of its sendings.
ghost use Rattle.std.specs.Prelude.{◌≡◌};
ghost use Rattle.procedures.specs.Silences.{silence_of};

use line::command::Command;

// A command without its address and its byte.
#[derive(Clone, Copy)]
pub enum CommandKind {
    Poll,
    Read,
    Write,
    Start,
    Acknowledge,
    TerminalId,
    Reset,
}

// The address stands beside the kind and is 0 where the command has none, as the interface tells it.
#[derive(Clone, Copy)]
pub struct Silence {
    pub command: CommandKind,
    pub address: u16,
}

impl From<Command> for Silence {
    ghost from_gives = { λ c e. e ≡ silence_of c };

    fn from(command: Command) -> Silence {
        let (command, address) = match command {
            Command::Poll => (CommandKind::Poll, 0),
            Command::Read(address) => (CommandKind::Read, address),
            Command::Write(address, _) => (CommandKind::Write, address),
            Command::Start => (CommandKind::Start, 0),
            Command::Acknowledge => (CommandKind::Acknowledge, 0),
            Command::TerminalId => (CommandKind::TerminalId, 0),
            Command::Reset => (CommandKind::Reset, 0),
        };
        Silence { command, address }
    }
}
