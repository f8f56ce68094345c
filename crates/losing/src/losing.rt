ghost use Rattle.std.specs.Prelude.{◌≡◌, ◌<◌, ◌≤◌, length};

use crate::mark::Mark;

mod commands;

// Stands over any line, by value. The marks are used in rotation, one for each command; the row is its own,
// since what it swallows never reaches the line below.
#[derive(Drop)]
pub struct Losing<L> {
    below: L,
    marks: [Mark; 64],
    next: u8,
    row: u8,
    ghost long: { length marks ≡ 64 },
    ghost within: { next < 64 },
    ghost held: { row ≤ 255 },
}
