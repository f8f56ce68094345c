ghost use Rattle.std.specs.Prelude.{◌≡◌, ◌&&◌, if◌then◌else◌};
ghost use Rattle.tca.specs.Fields.{dpastat, dpsstat, exfak};
ghost use Rattle.simulated.specs.Posts.{free, with_status, with_event, with_end, with_expedited};
ghost use Rattle.simulated.specs.Simulated.{state_of, device_of};

use crate::device::SimulatedDevice;
use tca::family::{Asynchronous, Expedited, Family, Synchronous};
use tca::status::{Event, ExpeditedStatus, SynchronousStatus};

impl SimulatedDevice {
    // Posts a status of any family where no restart waits and its toggle is zero, and says whether that is so.
    fn post<F: Family<N>, const N: usize>(&mut self, status: F::Record) -> bool
        ensures after { let d = device_of self.old in state_of self.new ≡ record (state_of self.old) { device = (if free F.Family.toggle d then with_status F.Family.toggle F.Family.places (F.Family.bytes status) d else d) } }
        ensures value { result ≡ free F.Family.toggle (device_of self.old) }
    {
        let free = !self.registers.waiting && self.memory.byte(F::toggle()) == 0;
        if free {
            self.memory
                .post(F::toggle(), &F::places(), &F::to_bytes(status));
        }
        free
    }

    // Posts an event where the rules allow it, and says whether they do.
    pub fn post_event(&mut self, event: Event) -> bool
        ensures after { let d = device_of self.old in state_of self.new ≡ record (state_of self.old) { device = (if free dpastat d then with_event event d else d) } }
        ensures value { result ≡ free dpastat (device_of self.old) }
    {
        let posted = self.post::<Asynchronous, 6>(event);
        if posted {
            self.registers.events = self.registers.events.wrapping_add(1);
        }
        posted
    }

    // The same of the end of a request, at a device that works: it stops.
    pub fn post_end(&mut self, end: SynchronousStatus) -> bool
        ensures after { let d = device_of self.old in state_of self.new ≡ record (state_of self.old) { device = (if free dpsstat d && d.working then with_end end d else d) } }
        ensures value { let d = device_of self.old in result ≡ (free dpsstat d && d.working) }
    {
        let posted = self.registers.working && self.post::<Synchronous, 4>(end);
        if posted {
            self.registers.working = false;
        }
        posted
    }

    // The same of an expedited status, at any device whose restart does not wait.
    pub fn post_expedited(&mut self, status: ExpeditedStatus) -> bool
        ensures after { let d = device_of self.old in state_of self.new ≡ record (state_of self.old) { device = (if free exfak d then with_expedited status d else d) } }
        ensures value { result ≡ free exfak (device_of self.old) }
    {
        let posted = self.post::<Expedited, 6>(status);
        if posted {
            self.registers.expedited = self.registers.expedited.wrapping_add(1);
        }
        posted
    }
}
