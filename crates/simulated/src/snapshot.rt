use line::telling::Registers;

// A state to put a device into.
#[derive(Drop)]
pub struct Snapshot {
    pub memory: Vec<u8>,
    pub registers: Registers,
}
