// The terminal line: 256 bytes, a device that answers whatever it may, and posts what it is told.
ghost use Rattle.std.specs.Prelude.{◌≡◌, Bool, IfOk, Some, Option, if◌then◌else◌};
ghost use Rattle.std.specs.Option.{option_map};
ghost use Rattle.line.specs.State.{Device};
ghost use Rattle.simulated.specs.Posts.{with_event, with_end};
ghost use Rattle.simulated.specs.Snapshots.{restored};
ghost use Rattle.simulated.specs.Simulated.{state_of, device_of, switched_on};
ghost use Rattle.lines.specs.DeviceLine.{own};
ghost use Rattle.lines.specs.Terminal.{untold, with_told_event, with_told_end, may_event, may_end, post_told, held, acts, kept, takes};
ghost use Rattle.lines.specs.Terminals;

use crate::device_line::DeviceLine;
use crate::program::Program;
use line::tellable::Tellable;
use simulated::device::SimulatedDevice;
use simulated::size::MemorySize;
use simulated::snapshot::Snapshot;
use std::alloc::{AllocError, Global};
use tca::status::{Event, SynchronousStatus};

pub type Terminal = DeviceLine<Told>;

// What the device was told and has not posted yet: the last event and the last end.
#[derive(Drop)]
pub struct Told {
    event: Option<Event>,
    end: Option<SynchronousStatus>,
}

impl Terminal {
    fn untold(device: SimulatedDevice) -> Terminal
        ensures { own result ≡ untold (state_of device) }
    {
        let program = Told {
            event: None,
            end: None,
        };
        Terminal { device, program }
    }

    // A terminal as it is switched on, with nothing told.
    pub fn new(heap: Global) -> Result<Terminal, AllocError>
        ensures { IfOk result (λ s. own s ≡ untold (switched_on 256)) }
    {
        let device = SimulatedDevice::switch_on(heap, MemorySize::Terminal)?;
        Ok(Terminal::untold(device))
    }

    // A line that behaves as the terminal does and begins in a given state, if a line may be in it.
    pub fn in_state(snapshot: Snapshot) -> Option<Terminal>
        ensures { option_map own result ≡ option_map untold (restored snapshot) }
    {
        SimulatedDevice::in_state(snapshot).map(Terminal::untold)
    }
}

// A record that a device can be told to post.
trait Postable: Copy {
    // whether a device may post it, and the device once it did
    ghost may: { Device → Bool };

    ghost posted: { Self → Device → Device };

    fn post(self, device: &mut SimulatedDevice) -> bool
        ensures value { result ≡ may (device_of device.old) }
        ensures device { let d = device_of device.old in device_of device.new ≡ (if may d then posted self d else d) };
}

impl Postable for Event {
    ghost may = { may_event };

    ghost posted = { with_event };

    fn post(self, device: &mut SimulatedDevice) -> bool {
        device.post_event(self)
    }
}

impl Postable for SynchronousStatus {
    ghost may = { may_end };

    ghost posted = { with_end };

    fn post(self, device: &mut SimulatedDevice) -> bool {
        device.post_end(self)
    }
}

// Posts what was told, where the device may, and then holds it no longer.
fn post_told<R: Postable>(told: &mut Option<R>, device: &mut SimulatedDevice)
    ensures device { device_of device.new ≡ post_told R.may R.posted told.old (device_of device.old) }
    ensures held { told.new ≡ held R.may told.old (device_of device.old) }
{
    if let Some(record) = *told
        && record.post(device)
    {
        *told = None;
    }
}

impl Program for Told {
    ghost acts = { acts };

    ghost kept = { kept };

    ghost takes = { takes };

    ghost allowed = { Terminals.allowed };

    fn act(&mut self, device: &mut SimulatedDevice) {
        post_told(&mut self.event, device);
        post_told(&mut self.end, device);
    }

    fn take(&mut self, _second_parameter: u8) {}
}

impl Tellable for Terminal {
    ghost eventful = { λ s e t. own t ≡ with_told_event e (own s) };

    ghost ending = { λ s e t. own t ≡ with_told_end e (own s) };

    fn tell_event(&mut self, event: Event) {
        self.program.event = Some(event);
    }

    fn tell_end(&mut self, end: SynchronousStatus) {
        self.program.end = Some(end);
    }
}
