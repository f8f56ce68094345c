// What the rules imply, each as the contract of a function, so that the check asks for its proof.
ghost use Rattle.line.specs.Laws.{RulesKeepWhatAlwaysHolds, SizeIsFixed, RepeatedCommandDoesNothingMore};

pub fn rules_keep_what_always_holds()
    ensures { RulesKeepWhatAlwaysHolds }
{}

pub fn size_is_fixed()
    ensures { SizeIsFixed }
{}

pub fn repeated_command_does_nothing_more()
    ensures { RepeatedCommandDoesNothingMore }
{}
