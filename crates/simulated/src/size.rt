ghost use Rattle.std.specs.Prelude.{◌≡◌};
ghost use Rattle.simulated.specs.Size.{bytes_of};

// How much memory a supplied device has.
#[derive(Clone, Copy)]
pub enum MemorySize {
    Terminal,
    Printer,
}

impl From<MemorySize> for usize {
    ghost from_gives = { λ size bytes. bytes ≡ bytes_of size };

    fn from(size: MemorySize) -> usize {
        match size {
            MemorySize::Terminal => 256,
            MemorySize::Printer => 4096,
        }
    }
}
