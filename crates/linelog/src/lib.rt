// What went down one line, in order, with what came back. A run of like sendings is kept as one.
#![tactic(auto)]

mod methods;

use line::command::{Command, Reply};
pub use methods::count;

// Like sendings in a row: the n-th is the first command advanced by n, and each got the same reply. A
// command advances by its address: a Read or Write goes on at the next one, any other stays as it is.
#[derive(Clone, Copy)]
pub struct Run {
    pub command: Command,
    pub reply: Option<Reply>,
    pub times: u32,
}

// The runs in order. Only the last one may go on.
#[derive(Drop)]
pub struct Log {
    runs: Vec<Run>,
}
