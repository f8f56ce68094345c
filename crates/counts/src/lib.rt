// The promise above all: two counts are equal exactly when a port owes nothing.
#![tactic(auto)]

ghost use Rattle.counts.specs.Law.{CountsAgree};

// For a unit just made, any list of calls with any arguments, and any lines that keep the rules, whatever they
// lose: after each call, at each port, requests taken and collected, statuses posted and handed over, and
// requests accepted and collected or lost are equal exactly when nothing is owed.
pub fn counts_are_equal_exactly_when_nothing_is_owed()
    ensures { CountsAgree }
{}
