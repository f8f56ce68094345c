// Reads commands for one line as text, performs them and writes each answer, so that an independent program
// can be run on the same text and compared. docs/LINERUN.md has the format.
#![tactic(auto)]

mod answer;
mod parse;
mod session;

use answer::{Failure, write_refusal};
use session::Session;
use std::alloc::AllocError;
use std::io;
use std::io::{Read, Stdout, Write};

const CHUNK: usize = 65536;

// No answer is longer.
const LONGEST_ANSWER: usize = 128;

// Answers are gathered until another one may find no room in as many bytes as a chunk has, and only then written: so
// there are few writes, and memory does not grow with the answers.
const FULL: usize = CHUNK - LONGEST_ANSWER;

// Longer than any line that is well-formed. What stands behind it is not held.
const LONGEST: usize = 97;

// Holds the part of a line that one chunk gives, until the line ends in another.
fn hold(held: &mut Vec<u8>, part: &[u8]) -> Result<(), AllocError> {
    let room = LONGEST.saturating_sub(held.len());
    held.extend_from_slice(&part[..part.len().min(room)])
}

fn answer_line(
    session: &mut Session,
    text: &[u8],
    answers: &mut Vec<u8>,
) -> Result<(), AllocError> {
    match session.answer(text, answers) {
        Ok(()) => Ok(()),
        Err(Failure::Refused(_)) => write_refusal(answers),
        Err(Failure::OutOfMemory(error)) => Err(error),
    }
}

// Answers the lines that end in a chunk, and holds the part of a line that it ends with.
fn take(
    chunk: &[u8],
    held: &mut Vec<u8>,
    session: &mut Session,
    answers: &mut Vec<u8>,
    output: &mut Stdout,
) -> io::Result<()> {
    for piece in chunk.split_inclusive(|byte| *byte == b'\n') {
        match piece {
            [line @ .., b'\n'] if held.is_empty() => answer_line(session, line, answers)?,
            [line @ .., b'\n'] => {
                hold(held, line)?;
                answer_line(session, held, answers)?;
                held.clear();
            }
            part => hold(held, part)?,
        }
        if answers.len() > FULL {
            output.write_all(answers)?;
            answers.clear();
        }
    }
    Ok(())
}

fn run(rt: &HostRuntime) -> anyhow::Result<()> {
    let heap = rt.alloc();
    let mut input = rt.stdin();
    let mut output = rt.stdout();
    let mut chunk = vec![in heap; 0u8; CHUNK]?;
    let mut held = Vec::new(heap);
    // as an error of io, so that want of memory reads the same here and in `take`
    let mut answers = Vec::with_capacity(heap, CHUNK).map_err(io::Error::from)?;
    let mut session = Session::new(heap);
    // A loop over reads needs a bound here, since nothing says that the input ends.
    for _ in 0..u64::MAX {
        let got = input.read(&mut chunk)?;
        if got == 0 {
            break;
        }
        take(
            &chunk[..got],
            &mut held,
            &mut session,
            &mut answers,
            &mut output,
        )?;
    }
    if !held.is_empty() {
        write_refusal(&mut answers)?;
    }
    output.write_all(&answers)?;
    Ok(())
}

fn main(rt: HostRuntime) -> anyhow::Result<()> {
    run(&rt)
}
