ghost use Rattle.std.specs.Prelude.{◌≡◌, Option};
ghost use Rattle.line.specs.State.{State};
ghost use Rattle.line.specs.declared.command.Command.{Command};
ghost use Rattle.line.specs.declared.command.Reply.{Reply};
ghost use Rattle.hallline.specs.Hall.{state, Steps, is_told, EventTold, EndTold, Own, own, shows, next, answers};
ghost use Rattle.hallline.specs.Halls;

use crate::HallLine;
use line::Line;
use line::command::PollAnswer;
use line::determined::Determined;
use line::tellable::Tellable;
use line::telling::{Telling, Tells};
use tca::status::{Event, SynchronousStatus};

// The one text for all that is handed on to the line inside. A macro, since a closure takes a line of one type
// alone, and no function may hand out a `dyn`.
macro_rules! hand_on {
    ($hall:ident, $line:ident, $does:expr) => {
        match $hall {
            HallLine::Terminal($line) => $does,
            HallLine::Printer($line) => $does,
            HallLine::LosingTerminal($line) => $does,
            HallLine::LosingPrinter($line) => $does,
        }
    };
}

// A line of a hall is not `Tellable`, since a printer posts of itself: what is returned says whether this one is.
impl HallLine {
    fn is_told(&self) -> bool
        ensures { result ≡ is_told self.now }
    {
        matches!(self, HallLine::Terminal(_) | HallLine::LosingTerminal(_))
    }

    pub fn tell_event(&mut self, event: Event) -> bool
        ensures value { result ≡ is_told self.old }
        ensures after { EventTold self.old event self.new }
    {
        let told = self.is_told();
        match self {
            HallLine::Terminal(line) => line.tell_event(event),
            HallLine::LosingTerminal(line) => line.tell_event(event),
            HallLine::Printer(_) | HallLine::LosingPrinter(_) => {}
        }
        told
    }

    pub fn tell_end(&mut self, end: SynchronousStatus) -> bool
        ensures value { result ≡ is_told self.old }
        ensures after { EndTold self.old end self.new }
    {
        let told = self.is_told();
        match self {
            HallLine::Terminal(line) => line.tell_end(end),
            HallLine::LosingTerminal(line) => line.tell_end(end),
            HallLine::Printer(_) | HallLine::LosingPrinter(_) => {}
        }
        told
    }
}

impl Line for HallLine {
    ghost state = { state };

    ghost step = { Steps };

    ghost keeps = { Halls.keeps };

    ghost lawful = { Halls.lawful };

    fn size(&self) -> u16 {
        hand_on!(self, line, line.size())
    }

    fn poll(&mut self) -> Option<PollAnswer> {
        hand_on!(self, line, line.poll())
    }

    fn read(&mut self, address: u16) -> Option<u8> {
        hand_on!(self, line, line.read(address))
    }

    fn write(&mut self, address: u16, value: u8) -> bool {
        hand_on!(self, line, line.write(address, value))
    }

    fn start(&mut self) -> bool {
        hand_on!(self, line, line.start())
    }

    fn acknowledge(&mut self) -> bool {
        hand_on!(self, line, line.acknowledge())
    }

    fn terminal_id(&mut self) -> bool {
        hand_on!(self, line, line.terminal_id())
    }

    fn reset(&mut self) -> bool {
        hand_on!(self, line, line.reset())
    }
}

impl Tells for HallLine {
    fn telling(&self) -> Telling<'_> {
        hand_on!(self, line, line.telling())
    }
}

impl Determined for HallLine {
    ghost Own = { Own };

    ghost own = { own };

    ghost shows = { shows };

    ghost next = { next };

    ghost answers = { answers };

    ghost shown = { Halls.shown };

    ghost determined = { Halls.determined };
}
