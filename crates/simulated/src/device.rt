ghost use Rattle.std.specs.Prelude.{◌≡◌, ◌^◌, ◌<◌, ◌≤◌, true, length};
ghost use Rattle.simulated.specs.New.{is_new};

use crate::memory::Memory;
use line::telling::Registers;

mod commands;
mod made;
mod posts;
mod restored;

// The device behind a supplied line, and the line's row. It answers whatever the rules let it answer; what
// its own program does within a Poll is for the line that holds it.
#[derive(Drop)]
pub struct SimulatedDevice {
    memory: Memory,
    registers: Registers,
    ghost eight: { length registers.last ≡ 8 },
    ghost fits: { (registers.taken < 2 ^ 32) × (registers.events < 2 ^ 32) × (registers.expedited < 2 ^ 32) × (registers.row ≤ 255) },
    ghost new_while_waiting: { (registers.waiting ≡ true → is_new memory.bytes.items registers ≡ true) },
}

// As a restart leaves them, but for the request taken last and the row, which stay as they are.
const RESTARTED: Registers = Registers {
    waiting: true,
    working: false,
    seen: 0,
    last: [0; 8],
    taken: 0,
    events: 0,
    expedited: 0,
    row: 0,
};
