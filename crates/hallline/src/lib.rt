// One type for the lines of a hall, so that lines of several kinds stand in one array.
#![tactic(auto)]

mod commands;

use lines::printer::Printer;
use lines::terminal::Terminal;
use losing::losing::Losing;

#[derive(Drop)]
pub enum HallLine {
    Terminal(Terminal),
    Printer(Printer),
    LosingTerminal(Losing<Terminal>),
    LosingPrinter(Losing<Printer>),
}
