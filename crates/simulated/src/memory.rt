// The memory of a simulated device, byte by byte.
ghost use Rattle.std.specs.Prelude.{◌≡◌, ◌≤◌, ◌&&◌, ◌||◌, ◌==◌, cond, if◌then◌else◌, true, Some, None, Option, IfOk, length, replicate, vec_len, vec_items, nat_le, nat_lt, slice_index, slice_set};
ghost use Rattle.std.specs.Option.{option_map};
ghost use Rattle.tca.specs.Fields.{unit_half, response_places};
ghost use Rattle.line.specs.Posts.{posted};
ghost use Rattle.line.specs.Rules.{is_in, is_toggle, may_write};
ghost use Rattle.simulated.specs.New.{zero_toggles};
ghost use Rattle.simulated.specs.Size.{bytes_of};

use crate::size::MemorySize;
use std::alloc::{AllocError, Global};
use tca::field::{DPASTAT, DPSSTAT, EXFAK, UNIT_HALF};

// The addresses of the status toggles.
const TOGGLES: [u16; 3] = [DPASTAT.address, DPSSTAT.address, EXFAK.address];

// As many bytes as a device may have.
#[derive(Drop)]
pub(crate) struct Memory {
    bytes: Vec<u8>,
    ghost large: { 256 ≤ vec_len bytes },
    ghost small: { vec_len bytes ≤ 32768 },
}

impl Memory {
    pub(crate) fn zeros(heap: Global, size: MemorySize) -> Result<Memory, AllocError>
        ensures { IfOk result (λ m. m.bytes.items ≡ replicate (bytes_of size) 0) }
    {
        let bytes = vec![in heap; 0u8; usize::from(size)]?;
        Ok(Memory { bytes })
    }

    // Memory that holds these bytes, if a device may have as many.
    pub(crate) fn new(bytes: Vec<u8>) -> Option<Memory>
        ensures { option_map (λ m. m.bytes) result ≡ cond (nat_le 256 (vec_len bytes) && nat_le (vec_len bytes) 32768) (Some bytes) None }
    {
        if 256 <= bytes.len() && bytes.len() <= 32768 {
            Some(Memory { bytes })
        } else {
            None
        }
    }

    pub(crate) fn size(&self) -> u16
        ensures { result ≡ vec_len self.now.bytes }
    {
        self.bytes.len() as u16
    }

    pub(crate) fn as_slice(&self) -> &[u8]
        ensures { result.now ≡ self.now.bytes.items }
    {
        self.bytes.as_slice()
    }

    // The byte at an address, or 0 beyond the end.
    pub(crate) fn byte(&self, address: u16) -> u8
        ensures { result ≡ slice_index self.now.bytes.items address }
    {
        self.get(address).unwrap_or(0)
    }

    // The byte at an address, if memory reaches so far.
    pub(crate) fn get(&self, address: u16) -> Option<u8>
        ensures { result ≡ cond (nat_lt address (vec_len self.now.bytes)) (Some (slice_index self.now.bytes.items address)) None }
    {
        self.bytes.get(address as usize).copied()
    }

    // Puts a byte at any address that memory reaches, and says whether it does.
    pub(crate) fn set(&mut self, address: u16, value: u8) -> bool
        ensures value { result ≡ nat_lt address (vec_len self.old.bytes) }
        ensures after { self.new.bytes.items ≡ slice_set self.old.bytes.items address value }
        ensures len { vec_len self.new.bytes ≡ vec_len self.old.bytes }
    {
        match self.bytes.get_mut(address as usize) {
            Some(byte) => {
                *byte = value;
                true
            }
            None => false,
        }
    }

    // A Write: puts its byte there if it may be heard, and says whether it may.
    pub(crate) fn hear(&mut self, address: u16, value: u8) -> bool
        ensures value { result ≡ may_write (length self.old.bytes.items) address value }
        ensures after { self.new.bytes.items ≡ (if may_write (length self.old.bytes.items) address value then slice_set self.old.bytes.items address value else self.old.bytes.items) }
        ensures toggles { zero_toggles self.old.bytes.items ≡ true → zero_toggles self.new.bytes.items ≡ true }
    {
        hears_write(address, value) && self.set(address, value)
    }

    pub(crate) fn has_zero_toggles(&self) -> bool
        ensures { result ≡ zero_toggles self.now.bytes.items }
    {
        TOGGLES.iter().all(|toggle| self.byte(*toggle) == 0)
    }

    pub(crate) fn clear(&mut self)
        ensures { self.new.bytes.items ≡ replicate (length self.old.bytes.items) 0 }
    {
        self.bytes.fill(0);
    }

    // Posts a record: each of its bytes at the address beside it, and X'01' at its toggle.
    pub(crate) fn post(&mut self, toggle: u16, places: &[u16], bytes: &[u8])
        ensures { self.new.bytes.items ≡ posted toggle places.now bytes.now self.old.bytes.items }
    {
        for (place, byte) in places.iter().zip(bytes) {
            self.set(*place, *byte);
        }
        self.set(toggle, 1);
    }
}

// Whether a Write is heard where there is memory: in the unit's half and beyond, and a zero to a toggle.
fn hears_write(address: u16, value: u8) -> bool
    ensures { result ≡ (nat_le unit_half address || ((is_toggle address && value == 0) || is_in response_places address)) }
{
    address >= UNIT_HALF || (TOGGLES.contains(&address) && value == 0)
}
