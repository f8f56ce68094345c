ghost use Rattle.std.specs.Prelude.{◌≡◌, ◌+◌, ◌-◌, ◌^◌, ◌<◌, min, [], ◌∷◌, ◌++◌, length, Some, Ok, MatchBool, MatchResult};
ghost use Rattle.linelog.specs.Runs.{further_on, next_of, Continues, spell_all, last_run, sendings, runs_of};

use crate::{Log, Run};
use line::command::{Command, Reply};
use std::alloc::{AllocError, Global};

// The address so many places on, if there is one.
fn further(address: u16, places: u32) -> Option<u16>
    ensures { result ≡ further_on address places }
{
    address.checked_add(u16::try_from(places).ok()?)
}

impl Run {
    // The command that would go on with the run, if there is one.
    fn next(&self) -> Option<Command>
        ensures { result ≡ next_of self.now }
    {
        match self.command {
            Command::Read(address) => further(address, self.times).map(Command::Read),
            Command::Write(address, value) => {
                further(address, self.times).map(|place| Command::Write(place, value))
            }
            other => Some(other),
        }
    }

    fn is_continued_by(&self, command: Command, reply: Option<Reply>) -> bool
        ensures { MatchBool result (Continues self.now command reply) (Continues self.now command reply → ⊥) }
    {
        self.times < u32::MAX && self.next() == Some(command) && self.reply == reply
    }
}

// How many sendings the runs stand for, held at the largest u64.
pub fn count(runs: &[Run]) -> u64
    ensures { result ≡ min (2 ^ 64 - 1) (length (spell_all runs.now)) }
{
    runs.iter().fold(0, |sent: u64, run| {
        sent.saturating_add(u64::from(run.times))
    })
}

impl Log {
    pub fn new(heap: Global) -> Log
        ensures { runs_of result ≡ [] }
    {
        Log {
            runs: Vec::new(heap),
        }
    }

    // Notes one sending. It makes the last run longer if it goes on with it, and else begins a new one.
    // Without memory for that the log stays as it is.
    pub fn note(&mut self, command: Command, reply: Option<Reply>) -> Result<(), AllocError>
        ensures value { MatchResult result (λ _. sendings self.new ≡ sendings self.old ++ (command, reply) ∷ []) (λ _. sendings self.new ≡ sendings self.old) }
        ensures folds { (x : Run) → last_run self.old ≡ Some x → Continues x command reply → (result ≡ Ok tt) × (length (runs_of self.new) ≡ length (runs_of self.old)) }
    {
        match self.runs.last_mut() {
            Some(last) if last.is_continued_by(command, reply) => last.times += 1,
            _ => self.runs.push(Run {
                command,
                reply,
                times: 1,
            })?,
        }
        Ok(())
    }

    // The runs in order.
    pub fn into_runs(self) -> Vec<Run>
        ensures { result.items ≡ runs_of self }
    {
        self.runs
    }
}
