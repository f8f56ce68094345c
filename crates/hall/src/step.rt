// Each call with the line of its port among the 32; poll alone so far.
ghost use Rattle.std.specs.Prelude.{◌≡◌, min};
ghost use Rattle.ports.specs.Asked.{poll as to_poll};
ghost use Rattle.counts.specs.Run.{Step};
ghost use Rattle.ports.specs.Frame.{DoneAt};
ghost use Rattle.unit.specs.Units.{beside};
ghost use Rattle.hall.specs.Lines.{told, OfLine, OthersStay};

use line::Line;
use ports::answers::Failure;
use ports::port::Marks;
use unit::unit::Unit;

// The line of a port; one that is refused for its number is handed the last, and leaves it.
fn line_of(port: u8) -> usize
    ensures { result ≡ min port 31 }
{
    usize::from(port.min(31))
}

pub fn poll<L: Line>(unit: &mut Unit, lines: &mut [L; 32], port: u8) -> Result<Marks, Failure>
    ensures step { Step unit.old.attachment port to_poll unit.old.table.ports (told L.Line.state lines.old) result unit.new.table.ports (told L.Line.state lines.new) }
    ensures outcome { OfLine (min port 31) lines.old lines.new (λ s t. DoneAt L.Line.step L.Line.state unit.old.attachment port to_poll unit.old.table.ports s result unit.new.table.ports t) }
    ensures others { OthersStay (min port 31) lines.old lines.new }
    ensures kept { beside unit.new ≡ beside unit.old }
{
    // That there are 32 ports, which `step` rests on, is known of a unit only from its size.
    let _ = unit.size();
    unit.poll(port, &mut lines[line_of(port)])
}
