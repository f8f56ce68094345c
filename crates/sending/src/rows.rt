// Rows of reads and of writes, over tables of addresses.
ghost use Rattle.procedures.specs.Procedure.{reads_row, writes_row};
ghost use Rattle.procedures.specs.Performs.{Performs, as_bytes};

use crate::{read, write};
use line::Line;
use procedures::silence::Silence;
use tca::family::Readable;

// Each byte to its place, in order, as far as there are both.
pub fn write_row<L: Line>(line: &mut L, places: &[u16], bytes: &[u8]) -> Result<(), Silence>
    ensures { Performs L.Line.step (writes_row «places».now «bytes».now) line.old result line.new }
{
    for (place, byte) in places.iter().zip(bytes) {
        write(line, *place, *byte)?;
    }
    Ok(())
}

// The record of a family, read in the order of its places.
pub fn read_status<F: Readable<N>, const N: usize, L: Line>(
    line: &mut L,
) -> Result<F::Record, Silence>
    ensures { Performs L.Line.step (reads_row F.Family.places) line.old (as_bytes F.Family.bytes result) line.new }
{
    let mut bytes = [0; N];
    // by index: a proof does not see what a zip with `iter_mut` writes
    for (i, place) in F::places().iter().enumerate() {
        bytes[i] = read(line, *place)?;
    }
    Ok(F::from_slice(&bytes).unwrap())
}
