ghost use Rattle.std.specs.Prelude.{◌≡◌, Option};
ghost use Rattle.line.specs.State.{State};
ghost use Rattle.line.specs.declared.command.Command.{Command};
ghost use Rattle.line.specs.declared.command.Reply.{Reply};

use crate::Line;

// A line with no choices left: what it tells, its own state after a command and its answer are functions of
// its own state. So two such lines that begin alike answer alike.
pub trait Determined: Line {
    ghost Own: { Type 0 };

    ghost own: { Self → Own };

    ghost shows: { Own → State };

    ghost next: { Command → Own → Own };

    ghost answers: { Command → Own → Option Reply };

    ghost shown: { (s : Self) → Self.Line.state s ≡ shows (own s) };

    ghost determined: { (s t : Self) (c : Command) (r : Option Reply) → Self.Line.step s c r t → (own t ≡ next c (own s)) × (r ≡ answers c (own s)) };
}
