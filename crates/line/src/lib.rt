#![tactic(auto)]

ghost use Rattle.std.specs.Prelude.{◌≡◌, ℕ, length, Option};
ghost use Rattle.line.specs.State.{State};
ghost use Rattle.line.specs.Rules.{Permitted, Lawful, polled, byte, done};
ghost use Rattle.line.specs.declared.command.Command.{Command};
ghost use Rattle.line.specs.declared.command.Command.TheVariants.{Poll, Read, Write, Start, Acknowledge, TerminalId, Reset};
ghost use Rattle.line.specs.declared.command.Reply.{Reply};

pub mod command;
pub mod determined;
pub mod laws;
pub mod reply;
pub mod row;
pub mod tellable;
pub mod telling;

use command::{Command, PollAnswer, Reply};
use reply::from_done;

// A coax with one device. Each method sends its command once; `None` or `false` says that no answer came.
// `state` is what the line tells. `step` is what one sending did to the line itself: code that is generic
// in the line has no other source of it than to send that very command, so a contract that cites it pins
// which commands were sent, in which order and how often.
pub trait Line {
    ghost state: { Self → State };

    ghost step: { Self → Command → Option Reply → Self → Type 0 };

    // The size of the memory. It is known to the unit and costs no command.
    fn size(&self) -> u16
        ensures { result ≡ length (state self.now).device.memory };

    fn poll(&mut self) -> Option<PollAnswer>
        ensures { step self.old Poll (polled result) self.new };

    fn read(&mut self, address: u16) -> Option<u8>
        ensures { step self.old (Read address) (byte result) self.new };

    fn write(&mut self, address: u16, value: u8) -> bool
        ensures { step self.old (Write address value) (done result) self.new };

    fn start(&mut self) -> bool
        ensures { step self.old Start (done result) self.new };

    fn acknowledge(&mut self) -> bool
        ensures { step self.old Acknowledge (done result) self.new };

    fn terminal_id(&mut self) -> bool
        ensures { step self.old TerminalId (done result) self.new };

    fn reset(&mut self) -> bool
        ensures { step self.old Reset (done result) self.new };

    ghost keeps: { (s t : Self) (c : Command) (r : Option Reply) → step s c r t → Permitted (state s) c r (state t) };

    ghost lawful: { (s : Self) → Lawful (state s) };
}

// One sending of one command.
pub fn issue<L: Line>(line: &mut L, command: Command) -> Option<Reply>
    ensures { L.step line.old command result line.new }
{
    match command {
        Command::Poll => line.poll().map(Reply::Polled),
        Command::Read(address) => line.read(address).map(Reply::Byte),
        Command::Write(address, value) => from_done(line.write(address, value)),
        Command::Start => from_done(line.start()),
        Command::Acknowledge => from_done(line.acknowledge()),
        Command::TerminalId => from_done(line.terminal_id()),
        Command::Reset => from_done(line.reset()),
    }
}
