// Sendings that are noted: one, a list of them, polls for a status and the reads of a record.
// The line and its log stay two parameters: a struct of both would own them, and a caller may only lend them.
ghost use Rattle.std.specs.Prelude.{◌≡◌, [], ◌∷◌, ◌++◌, is_some, Option, MatchResult};
ghost use Rattle.line.specs.declared.command.Command.TheVariants.{Read};
ghost use Rattle.line.specs.declared.command.Reply.{Reply};
ghost use Rattle.linelog.specs.Runs.{sendings};
ghost use Rattle.bringup.specs.Went.{Went, Broke, Ran, PolledUntil, Gathered, says_status};

use line::Line;
use line::command::{Command, PollAnswer, Reply};
use line::reply::to_byte;
use linelog::Log;
use std::alloc::{AllocError, Global};
use tca::family::Family;

// How often a poll for a status is sent at most.
pub const MOST_POLLS: u8 = 32;

// One sending, noted. Without memory it went down the line all the same, and is not noted.
pub fn send<L: Line>(
    line: &mut L,
    log: &mut Log,
    command: Command,
) -> Result<Option<Reply>, AllocError>
    ensures { MatchResult result
        (λ q. L.step line.old command q line.new × (sendings log.new ≡ sendings log.old ++ (command, q) ∷ []))
        (λ _. (q : Option Reply) × L.step line.old command q line.new × (sendings log.new ≡ sendings log.old)) }
{
    let reply = line::issue(line, command);
    log.note(command, reply)?;
    Ok(reply)
}

fn is_answered<L: Line>(line: &mut L, log: &mut Log, command: Command) -> Result<bool, AllocError>
    ensures { MatchResult result
        (λ b. (q : Option Reply) × L.step line.old command q line.new × (sendings log.new ≡ sendings log.old ++ (command, q) ∷ []) × (is_some q ≡ b))
        (λ _. (q : Option Reply) × L.step line.old command q line.new × (sendings log.new ≡ sendings log.old)) }
{
    Ok(send(line, log, command)?.is_some())
}

// Sends the commands in order, each once, up to the first that is not answered: whether all were. That is a
// question, answered by yes or no, and silence is no error of this function's.
pub fn run<L: Line>(line: &mut L, log: &mut Log, commands: &[Command]) -> Result<bool, AllocError>
    ensures { MatchResult result
        (λ b. Went L.step line.old (sendings log.old) line.new (sendings log.new) (Ran commands.now b))
        (λ _. Broke L.step line.old (sendings log.old) line.new (sendings log.new)) }
{
    for command in commands {
        let answered = is_answered(line, log, *command)?;
        if !answered {
            return Ok(false);
        }
    }
    Ok(true)
}

fn is_status(reply: Option<Reply>) -> bool
    ensures { result ≡ says_status reply }
{
    reply == Some(Reply::Polled(PollAnswer::Status))
}

// Polls until an answer says status, or as often as it may: whether one did, which is no error either.
pub fn poll_for_status<L: Line>(line: &mut L, log: &mut Log) -> Result<bool, AllocError>
    ensures { MatchResult result
        (λ b. Went L.step line.old (sendings log.old) line.new (sendings log.new) (PolledUntil 32 b))
        (λ _. Broke L.step line.old (sendings log.old) line.new (sendings log.new)) }
{
    for _ in 0..MOST_POLLS {
        if is_status(send(line, log, Command::Poll)?) {
            return Ok(true);
        }
    }
    Ok(false)
}

fn read<L: Line>(line: &mut L, log: &mut Log, place: u16) -> Result<Option<Reply>, AllocError>
    ensures { MatchResult result
        (λ q. L.step line.old (Read place) q line.new × (sendings log.new ≡ sendings log.old ++ (Read place, q) ∷ []))
        (λ _. (q : Option Reply) × L.step line.old (Read place) q line.new × (sendings log.new ≡ sendings log.old)) }
{
    send(line, log, Command::Read(place))
}

// Reads the places of a family's record in order, up to the first that gives no byte: the record, if all
// gave one.
pub fn read_record<F: Family<N>, const N: usize, L: Line>(
    heap: Global,
    line: &mut L,
    log: &mut Log,
) -> Result<Option<F::Record>, AllocError>
    ensures { MatchResult result
        (λ got. Went L.Line.step line.old (sendings log.old) line.new (sendings log.new) (Gathered F.Family.places F.Family.of got))
        (λ _. Broke L.Line.step line.old (sendings log.old) line.new (sendings log.new)) }
{
    let mut bytes = Vec::new(heap);
    for place in F::places().iter() {
        let reply = read(line, log, *place)?;
        let Some(byte) = to_byte(reply) else {
            return Ok(None);
        };
        bytes.push(byte)?;
    }
    Ok(F::from_slice(&bytes))
}
