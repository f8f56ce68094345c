ghost use Rattle.std.specs.Prelude.{◌≡◌, Option};
ghost use Rattle.std.proofs.Common.{rules};
ghost use Rattle.line.specs.State.{State};
ghost use Rattle.line.specs.declared.command.Command.{Command};
ghost use Rattle.line.specs.declared.command.Reply.{Reply};
ghost use Rattle.simulated.specs.Simulated.{state_of};
ghost use Rattle.lines.specs.DeviceLine.{Own, own, next, answers, Steps};
ghost use Rattle.lines.specs.DeviceLines;

use crate::program::Program;
use line::Line;
use line::command::PollAnswer;
use line::determined::Determined;
use line::telling::{Telling, Tells};
use simulated::device::SimulatedDevice;

// A simulated device whose own program is P.
#[derive(Drop)]
pub struct DeviceLine<P> {
    pub(crate) device: SimulatedDevice,
    pub(crate) program: P,
}

impl<P: Program> Line for DeviceLine<P> {
    ghost state = { λ s. state_of s.device };

    ghost step = { Steps P.acts P.kept P.takes };

    ghost keeps = { DeviceLines.keeps P.acts P.kept P.takes P.allowed };

    ghost lawful = { Prim.search rules };

    fn size(&self) -> u16 {
        self.device.size()
    }

    fn poll(&mut self) -> Option<PollAnswer> {
        self.program.act(&mut self.device);
        Some(self.device.answer_poll())
    }

    fn read(&mut self, address: u16) -> Option<u8> {
        self.device.read(address)
    }

    fn write(&mut self, address: u16, value: u8) -> bool {
        self.device.write(address, value)
    }

    fn start(&mut self) -> bool {
        let idle = !self.device.is_working();
        let answered = self.device.start();
        if idle && self.device.is_working() {
            self.program.take(self.device.second_parameter());
        }
        answered
    }

    fn acknowledge(&mut self) -> bool {
        self.device.acknowledge()
    }

    fn terminal_id(&mut self) -> bool {
        self.device.terminal_id()
    }

    fn reset(&mut self) -> bool {
        self.device.reset()
    }
}

impl<P: Program> Tells for DeviceLine<P> {
    fn telling(&self) -> Telling<'_> {
        self.device.telling()
    }
}

impl<P: Program> Determined for DeviceLine<P> {
    ghost Own = { Own P };

    ghost own = { own };

    ghost shows = { λ o. o.state };

    ghost next = { next P.acts P.kept P.takes };

    ghost answers = { answers P.acts P.kept P.takes };

    ghost shown = { Prim.search rules };

    ghost determined = { Prim.search rules };
}
