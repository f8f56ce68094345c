// Brings a terminal up from its restart to the end of its first request, and prints what went down its line.
#![tactic(auto)]

mod report;
mod script;

use bringup::opening::{opening, toggle_reads};
use bringup::sends::{poll_for_status, read_record, run};
use line::tellable::Tellable;
use line::telling::Tells;
use linelog::{Log, count};
use lines::terminal::Terminal;
use script::Script;
use std::alloc::{AllocError, Global};
use std::io::Read;
use tca::family::Synchronous;
use tca::status::SynchronousStatus;

// Sends what the script asks for: the status that the device posted, if it did and every command was answered.
fn exchange(
    heap: Global,
    line: &mut Terminal,
    log: &mut Log,
    script: Script,
) -> Result<Option<SynchronousStatus>, AllocError> {
    if !run(line, log, &opening(heap, script.terminals)?)? {
        return Ok(None);
    }
    line.tell_end(script.end);
    if !poll_for_status(line, log)? || !run(line, log, &toggle_reads())? {
        return Ok(None);
    }
    read_record::<Synchronous, 4, Terminal>(heap, line, log)
}

fn check(rt: &HostRuntime) -> anyhow::Result<()> {
    let heap = rt.alloc();
    let mut text = Vec::new(heap);
    let _ = rt.stdin().take(script::MOST_BYTES).read_to_end(&mut text)?;
    match script::parse(&text) {
        Ok(script) => {
            let mut line = Terminal::new(heap)?;
            let mut log = Log::new(heap);
            let status = exchange(heap, &mut line, &mut log, script)?;
            let runs = log.into_runs();
            report::print_log(rt, &runs)?;
            if let Some(record) = status {
                report::print_record(rt, record)?;
            }
            report::print_summary(rt, count(&runs), line.telling().registers.taken, status)?;
        }
        Err(refusal) => report::print_refusal(rt, refusal)?,
    }
    Ok(())
}

fn main(rt: HostRuntime) -> anyhow::Result<()> {
    check(&rt)
}
