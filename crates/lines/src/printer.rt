// The printer line: 4,096 bytes, a device that ends each request after as many polls as the request asks
// for, and reports itself by an expedited status after every tenth end.
ghost use Rattle.std.specs.Prelude.{◌≡◌, ◌+◌, false, ◌&&◌, ◌||◌, IfOk, if◌then◌else◌, nat_le};
ghost use Rattle.tca.specs.Fields.{exfak};
ghost use Rattle.simulated.specs.Posts.{free, with_expedited};
ghost use Rattle.simulated.specs.Simulated.{device_of, switched_on};
ghost use Rattle.lines.specs.DeviceLine.{own};
ghost use Rattle.lines.specs.Printer.{acts, kept, takes, over, left_after, device_ended, ends_after, due_now};
ghost use Rattle.lines.specs.Printers;

use crate::device_line::DeviceLine;
use crate::program::Program;
use simulated::device::SimulatedDevice;
use simulated::size::MemorySize;
use std::alloc::{AllocError, Global};
use tca::status::{ExpeditedStatus, SynchronousStatus};

pub type Printer = DeviceLine<Printing>;

// The polls to come before the request in work may end, the ends since the last tenth, whether an expedited
// status is due, and the two records that are posted.
#[derive(Drop)]
pub struct Printing {
    left: u8,
    ends: u8,
    due: bool,
    end: SynchronousStatus,
    status: ExpeditedStatus,
}

impl Printer {
    // A printer as it is switched on, with the records by which it ends requests and reports itself.
    pub fn new(
        heap: Global,
        end: SynchronousStatus,
        status: ExpeditedStatus,
    ) -> Result<Printer, AllocError>
        ensures { IfOk result (λ s. own s ≡ record { state = switched_on 4096; program = record { left = 0; ends = 0; due = false; end = end; status = status } }) }
    {
        let program = Printing {
            left: 0,
            ends: 0,
            due: false,
            end,
            status,
        };
        let device = SimulatedDevice::switch_on(heap, MemorySize::Printer)?;
        Ok(Printer { device, program })
    }
}

impl Printing {
    // One poll less to come; whether none was to come before the end.
    fn count_down(&mut self, device: &SimulatedDevice) -> bool
        ensures after { self.new ≡ record self.old { left = left_after self.old (device_of device.now) } }
        ensures value { result ≡ over self.old (device_of device.now) }
    {
        if !device.is_working() {
            return false;
        }
        let over = self.left == 0;
        self.left = self.left.saturating_sub(1);
        over
    }

    // One end more; the tenth makes a report due.
    fn count_end(&mut self)
        ensures { self.new ≡ record self.old { ends = (if nat_le 9 self.old.ends then 0 else self.old.ends + 1); due = (self.old.due || nat_le 9 self.old.ends) } }
    {
        if self.ends >= 9 {
            self.ends = 0;
            self.due = true;
        } else {
            self.ends += 1;
        }
    }

    // Ends the request in work where it is time.
    fn end_request(&mut self, device: &mut SimulatedDevice)
        ensures device { device_of device.new ≡ device_ended self.old (device_of device.old) }
        ensures kept { let d = device_of device.old in self.new ≡ record self.old { left = left_after self.old d; ends = ends_after self.old d; due = due_now self.old d } }
    {
        if self.count_down(device) && device.post_end(self.end) {
            self.count_end();
        }
    }

    // Posts the expedited status that is due, where it may.
    fn report(&mut self, device: &mut SimulatedDevice)
        ensures device { let d = device_of device.old in device_of device.new ≡ (if self.old.due && free exfak d then with_expedited self.old.status d else d) }
        ensures kept { self.new ≡ record self.old { due = (if self.old.due && free exfak (device_of device.old) then false else self.old.due) } }
    {
        if self.due && device.post_expedited(self.status) {
            self.due = false;
        }
    }
}

impl Program for Printing {
    ghost acts = { acts };

    ghost kept = { kept };

    ghost takes = { takes };

    ghost allowed = { Printers.allowed };

    fn act(&mut self, device: &mut SimulatedDevice) {
        self.end_request(device);
        self.report(device);
    }

    fn take(&mut self, second_parameter: u8) {
        self.left = second_parameter;
    }
}
