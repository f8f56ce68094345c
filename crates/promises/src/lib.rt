// What the terminal line promises, each as the contract of a function, so that the check asks for its
// proof.
#![tactic(auto)]

ghost use Rattle.promises.specs.Promises.{TerminalAnswersWhateverItMay, TerminalPostsTheEventItWasTold, TerminalPostsNoOtherEvent, TerminalPostsTheEndItWasTold, TerminalPostsNoOtherEnd};

pub fn terminal_answers_whatever_it_may()
    ensures { TerminalAnswersWhateverItMay }
{}

pub fn terminal_posts_the_event_it_was_told()
    ensures { TerminalPostsTheEventItWasTold }
{}

pub fn terminal_posts_no_other_event()
    ensures { TerminalPostsNoOtherEvent }
{}

pub fn terminal_posts_the_end_it_was_told()
    ensures { TerminalPostsTheEndItWasTold }
{}

pub fn terminal_posts_no_other_end()
    ensures { TerminalPostsNoOtherEnd }
{}
