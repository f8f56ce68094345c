ghost use Rattle.std.specs.Prelude.{◌≡◌};
ghost use Rattle.std.specs.Option.{option_map};
ghost use Rattle.simulated.specs.New.{is_new};
ghost use Rattle.simulated.specs.Simulated.{state_of};
ghost use Rattle.simulated.specs.Snapshots.{restored};

use crate::device::SimulatedDevice;
use crate::memory::Memory;
use crate::snapshot::Snapshot;
use line::telling::Registers;

// Whether a device is as a restart leaves it.
fn is_new(memory: &Memory, registers: Registers) -> bool
    ensures { result ≡ is_new memory.now.bytes.items registers }
{
    !registers.working
        && registers.seen == 0
        && registers.taken == 0
        && registers.events == 0
        && registers.expedited == 0
        && memory.has_zero_toggles()
}

impl SimulatedDevice {
    // A device in the state of a snapshot, if a line may be in it.
    pub fn in_state(snapshot: Snapshot) -> Option<SimulatedDevice>
        ensures { option_map state_of result ≡ restored snapshot }
    {
        let Snapshot { memory, registers } = snapshot;
        let memory = Memory::new(memory)?;
        if registers.waiting && !is_new(&memory, registers) {
            return None;
        }
        Some(SimulatedDevice { memory, registers })
    }
}
