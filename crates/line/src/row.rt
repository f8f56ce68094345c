ghost use Rattle.std.specs.Prelude.{◌≡◌, ◌+◌, min, if◌then◌else◌};

// The row after one command more: how many went unanswered since the last answer, held at 255.
pub fn row_after(row: u8, answered: bool) -> u8
    ensures { result ≡ (if answered then 0 else min 255 (row + 1)) }
{
    if answered { 0 } else { row.saturating_add(1) }
}
