ghost use Rattle.std.specs.Prelude.{◌≡◌, length, IfOk, slice_index};
ghost use Rattle.line.specs.Told.{told};
ghost use Rattle.simulated.specs.Simulated.{state_of, device_of, switched_on};
ghost use Rattle.simulated.specs.Size.{bytes_of};

use crate::device::{RESTARTED, SimulatedDevice};
use crate::memory::Memory;
use crate::size::MemorySize;
use line::telling::Telling;
use std::alloc::{AllocError, Global};

impl SimulatedDevice {
    // A device as it is switched on: zeros in memory, and a restart waits.
    pub fn switch_on(heap: Global, size: MemorySize) -> Result<SimulatedDevice, AllocError>
        ensures { IfOk result (λ s. state_of s ≡ switched_on (bytes_of size)) }
    {
        Ok(SimulatedDevice {
            memory: Memory::zeros(heap, size)?,
            registers: RESTARTED,
        })
    }

    pub fn telling(&self) -> Telling<'_>
        ensures { told result ≡ state_of self.now }
    {
        Telling {
            memory: self.memory.as_slice(),
            registers: self.registers,
        }
    }

    pub fn size(&self) -> u16
        ensures { result ≡ length (device_of self.now).memory }
    {
        self.memory.size()
    }

    pub fn is_working(&self) -> bool
        ensures { result ≡ (device_of self.now).working }
    {
        self.registers.working
    }

    // The second parameter of the request taken last.
    pub fn second_parameter(&self) -> u8
        ensures { result ≡ slice_index (device_of self.now).last 2 }
    {
        let [_, _, second, _, _, _, _, _] = self.registers.last;
        second
    }
}
