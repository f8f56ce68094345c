// The answers to lines of text.
use codes::number::Refusal;
use line::command::{PollAnswer, Reply};
use line::telling::Telling;
use std::alloc::AllocError;

// Why a line of text has no answer of its own.
#[derive(Drop)]
pub enum Failure {
    Refused(Refusal),
    OutOfMemory(AllocError),
}

impl From<Refusal> for Failure {
    fn from(refusal: Refusal) -> Failure {
        Failure::Refused(refusal)
    }
}

impl From<AllocError> for Failure {
    fn from(error: AllocError) -> Failure {
        Failure::OutOfMemory(error)
    }
}

// The number is that of Refusal::Malformed, the one reason for which a line of text is refused. By a format, such
// lines take six times as long.
pub fn write_refusal(answers: &mut Vec<u8>) -> Result<(), AllocError> {
    answers.extend_from_slice(b"?,13\n")
}

// What came back for the command of this letter. By formats, and so by Display, the program takes 1.4 times what
// the second program takes, where the bar is 1.2. Each answer is one append: by a letter and then a word, a command
// takes 1.08 times the instructions.
pub fn write_reply(
    letter: u8,
    reply: Option<Reply>,
    answers: &mut Vec<u8>,
) -> Result<(), AllocError> {
    match reply {
        None => answers.extend_from_slice(&[letter, b',', b'n', b'o', b'n', b'e', b'\n']),
        Some(Reply::Done) => answers.extend_from_slice(&[
            letter, b',', b'd', b'o', b'n', b'e', b'\n',
        ]),
        Some(Reply::Byte(value)) => {
            let [high, low] = hexadecimal::encode(value);
            answers.extend_from_slice(&[letter, b',', high, low, b'\n'])
        }
        Some(Reply::Polled(PollAnswer::Reset)) => answers.extend_from_slice(b"P,reset\n"),
        Some(Reply::Polled(PollAnswer::Status)) => answers.extend_from_slice(b"P,status\n"),
        Some(Reply::Polled(PollAnswer::Clean)) => answers.extend_from_slice(b"P,clean\n"),
    }
}

// The 32-bit FNV-1a hash.
fn digest(memory: &[u8]) -> u32 {
    memory.iter().fold(2166136261, |hash: u32, byte| {
        (hash ^ u32::from(*byte)).wrapping_mul(16777619)
    })
}

fn write_bytes(bytes: &[u8], answers: &mut Vec<u8>) -> Result<(), AllocError> {
    for byte in bytes {
        answers.extend_from_slice(&hexadecimal::encode(*byte))?;
    }
    Ok(())
}

fn write_flag(flag: bool, answers: &mut Vec<u8>) -> Result<(), AllocError> {
    answers.extend_from_slice(if flag { b"1," } else { b"0," })
}

fn write_count(count: u32, answers: &mut Vec<u8>) -> Result<(), AllocError> {
    let mut digits = [b'0'; 10];
    let mut rest = count;
    let mut first = 9;
    for (place, digit) in digits.iter_mut().enumerate().rev() {
        if rest == 0 {
            break;
        }
        *digit = b'0' + (rest % 10) as u8;
        rest /= 10;
        first = place;
    }
    answers.extend_from_slice(digits.get(first..).unwrap_or(&[]))?;
    Ok(answers.push(b',')?)
}

// Digit by digit: by a format, a line of this kind takes twice as long.
pub fn write_telling(telling: Telling<'_>, answers: &mut Vec<u8>) -> Result<(), AllocError> {
    let registers = telling.registers;
    answers.extend_from_slice(b"T,")?;
    write_flag(registers.waiting, answers)?;
    write_flag(registers.working, answers)?;
    write_bytes(&[registers.seen], answers)?;
    answers.push(b',')?;
    write_bytes(&registers.last, answers)?;
    answers.push(b',')?;
    write_count(registers.taken, answers)?;
    write_count(registers.events, answers)?;
    write_count(registers.expedited, answers)?;
    write_count(u32::from(registers.row), answers)?;
    write_bytes(&digest(telling.memory).to_be_bytes(), answers)?;
    Ok(answers.push(b'\n')?)
}
