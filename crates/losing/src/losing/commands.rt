ghost use Rattle.std.specs.Prelude.{◌≡◌, List, Option};
ghost use Rattle.std.specs.Fn.{FnOnceReturnsAtMut};
ghost use Rattle.std.proofs.Common.{ap};
ghost use Rattle.line.specs.State.{State};
ghost use Rattle.line.specs.declared.command.Command.{Command};
ghost use Rattle.line.specs.declared.command.Reply.{Reply};
ghost use Rattle.losing.specs.Loss.{Lost, Loses, row_by, turned, mark_at, told_over, OwnOver, next_over, answers_over, shows_over};
ghost use Rattle.losing.specs.declared.mark.Mark.{Mark as TheMark};
ghost use Rattle.losing.specs.Losses.{keeps_over, lawful_over, determined_over};

use crate::losing::Losing;
use crate::mark::Mark;
use line::Line;
use line::command::PollAnswer;
use line::determined::Determined;
use line::row::row_after;
use line::tellable::Tellable;
use line::telling::{Registers, Telling, Tells};
use tca::status::{Event, SynchronousStatus};

impl<L> Losing<L> {
    // Over a line, with the first mark next and a row of 0.
    pub fn new(below: L, marks: [Mark; 64]) -> Losing<L>
        ensures { (result.below ≡ below) × (result.marks ≡ marks) × (result.next ≡ 0) × (result.row ≡ 0) }
    {
        Losing {
            below,
            marks,
            next: 0,
            row: 0,
        }
    }

    // The next mark, with the rotation one further.
    fn turn(&mut self) -> Mark
        ensures value { result ≡ mark_at self.old.marks self.old.next }
        ensures after { (self.new.below ≡ self.old.below) × (self.new.marks ≡ self.old.marks) × (self.new.next ≡ turned self.old.next) × (self.new.row ≡ self.old.row) }
    {
        let mark = self.marks[self.next as usize];
        self.next = (self.next + 1) % 64;
        mark
    }

    // One sending under the mark that is next.
    fn pass<A: Copy, F: FnOnce(&mut L) -> Option<A>>(&mut self, send: F) -> Option<A>
        requires { F.IsAlwaysCallable send }
        ensures below { Lost (FnOnceReturnsAtMut F.FnOnce send) (mark_at self.old.marks self.old.next) self.old.below result self.new.below }
        ensures rest { (self.new.marks ≡ self.old.marks) × (self.new.next ≡ turned self.old.next) × (self.new.row ≡ self.old.row) }
    {
        match self.turn() {
            Mark::Passes => send(&mut self.below),
            Mark::Unheard => None,
            Mark::Unanswered => {
                send(&mut self.below);
                None
            }
        }
    }

    // The same, counted in the row: the one text for all commands.
    fn lose<A: Copy, F: FnOnce(&mut L) -> Option<A>>(&mut self, send: F) -> Option<A>
        requires { F.IsAlwaysCallable send }
        ensures { Loses (FnOnceReturnsAtMut F.FnOnce send) self.old.marks self.old.next self.old.row self.old.below result self.new.below self.new.marks self.new.next self.new.row }
    {
        let answer = self.pass(send);
        self.row = row_after(self.row, answer.is_some());
        answer
    }
}

impl<L: Line> Line for Losing<L> {
    ghost state = { λ s. told_over (L.Line.state s.below) s.row };

    ghost step = { λ s c r t. Loses (λ s r t. L.Line.step s c r t) s.marks s.next s.row s.below r t.below t.marks t.next t.row };

    ghost keeps = { λ s t c r w. keeps_over L.Line.step L.Line.state L.Line.keeps _ _ _ s.below c r t.below _ _ _ w };

    ghost lawful = { λ s. lawful_over (L.Line.state s.below) s.row s.held (L.Line.lawful s.below) };

    fn size(&self) -> u16 {
        self.below.size()
    }

    fn poll(&mut self) -> Option<PollAnswer> {
        self.lose(|below| below.poll())
    }

    fn read(&mut self, address: u16) -> Option<u8> {
        self.lose(|below| below.read(address))
    }

    fn write(&mut self, address: u16, value: u8) -> bool {
        self.lose(|below| below.write(address, value).then_some(()))
            .is_some()
    }

    fn start(&mut self) -> bool {
        self.lose(|below| below.start().then_some(())).is_some()
    }

    fn acknowledge(&mut self) -> bool {
        self.lose(|below| below.acknowledge().then_some(()))
            .is_some()
    }

    fn terminal_id(&mut self) -> bool {
        self.lose(|below| below.terminal_id().then_some(()))
            .is_some()
    }

    fn reset(&mut self) -> bool {
        self.lose(|below| below.reset().then_some(())).is_some()
    }
}

impl<L: Tellable> Tellable for Losing<L> {
    ghost eventful = { λ s e t. L.Tellable.eventful s.below e t.below × (t.marks ≡ s.marks) × (t.next ≡ s.next) × (t.row ≡ s.row) };

    ghost ending = { λ s e t. L.Tellable.ending s.below e t.below × (t.marks ≡ s.marks) × (t.next ≡ s.next) × (t.row ≡ s.row) };

    fn tell_event(&mut self, event: Event) {
        self.below.tell_event(event);
    }

    fn tell_end(&mut self, end: SynchronousStatus) {
        self.below.tell_end(end);
    }
}

impl<L: Tells> Tells for Losing<L> {
    fn telling(&self) -> Telling<'_> {
        let below = self.below.telling();
        let registers = Registers {
            row: self.row,
            ..below.registers
        };
        Telling { registers, ..below }
    }
}

impl<L: Determined> Determined for Losing<L> {
    ghost Own = { OwnOver L.Determined.Own };

    ghost own = { λ s. record { below = L.Determined.own s.below; marks = s.marks; next = s.next; row = s.row } };

    ghost shows = { shows_over L.Determined.shows };

    ghost next = { next_over L.Determined.next L.Determined.answers };

    ghost answers = { answers_over L.Determined.answers };

    ghost shown = { λ s. ap (λ (t : State). told_over t s.row) (L.Determined.shown s.below) };

    ghost determined = { λ s t c r w. determined_over L.Line.step L.Determined.own L.Determined.next L.Determined.answers L.Determined.determined s.marks s.next s.row s.below c r t.below t.marks t.next t.row w };
}
