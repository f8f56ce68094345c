// What a line of text says. Any other text is malformed.
use codes::number::Refusal;
use hexadecimal::decode_array;
use line::command::Command;
use line::telling::Registers;
use losing::mark::Mark;
use tca::status::{ExpeditedStatus, SynchronousStatus};

const NO_DIGIT: u8 = 0x80;

// What a digit counts, or NO_DIGIT, so that one test serves all digits of a field: by `hexadecimal::decode_array`,
// which tests each digit by jumps, the benchmark's plain commands take 1.2 times the second program's processor time.
fn nibble(digit: u8) -> u8 {
    let decimal = digit.wrapping_sub(b'0');
    let letter = digit.wrapping_sub(b'A');
    if decimal < 10 {
        decimal
    } else if letter < 6 {
        letter + 10
    } else {
        NO_DIGIT
    }
}

// The bytes that a text of digits spells.
fn digits<const N: usize>(text: &[u8]) -> Result<[u8; N], Refusal> {
    let (pairs, rest) = text.as_chunks::<2>();
    if pairs.len() != N || !rest.is_empty() {
        return Err(Refusal::Malformed);
    }
    let mut bytes = [0; N];
    let mut seen = 0;
    for (byte, [high, low]) in bytes.iter_mut().zip(pairs) {
        let high = nibble(*high);
        let low = nibble(*low);
        seen |= high | low;
        *byte = (high & 0x0f) * 16 + (low & 0x0f);
    }
    if seen >= NO_DIGIT {
        return Err(Refusal::Malformed);
    }
    Ok(bytes)
}

fn byte(text: &[u8]) -> Result<u8, Refusal> {
    let [byte] = digits::<1>(text)?;
    Ok(byte)
}

fn address(text: &[u8]) -> Result<u16, Refusal> {
    Ok(u16::from_be_bytes(digits(text)?))
}

// An address and the byte that goes there.
pub fn placed_byte(text: &[u8]) -> Result<(u16, u8), Refusal> {
    match text {
        [a, b, c, d, b',', value @ ..] => Ok((address(&[*a, *b, *c, *d])?, byte(value)?)),
        _ => Err(Refusal::Malformed),
    }
}

pub fn command(text: &[u8]) -> Result<Command, Refusal> {
    match text {
        [b'P'] => Ok(Command::Poll),
        [b'R', b',', place @ ..] => Ok(Command::Read(address(place)?)),
        [b'W', b',', written @ ..] => {
            let (place, value) = placed_byte(written)?;
            Ok(Command::Write(place, value))
        }
        [b'S'] => Ok(Command::Start),
        [b'A'] => Ok(Command::Acknowledge),
        [b'I'] => Ok(Command::TerminalId),
        [b'X'] => Ok(Command::Reset),
        _ => Err(Refusal::Malformed),
    }
}

fn mark(letter: u8) -> Result<Mark, Refusal> {
    match letter {
        b'P' => Ok(Mark::Passes),
        b'U' => Ok(Mark::Unheard),
        b'H' => Ok(Mark::Unanswered),
        _ => Err(Refusal::Malformed),
    }
}

pub fn marks(text: &[u8]) -> Result<[Mark; 64], Refusal> {
    let letters = text.as_array::<64>().ok_or(Refusal::Malformed)?;
    let mut marks = [Mark::Passes; 64];
    for (place, letter) in marks.iter_mut().zip(letters) {
        *place = mark(*letter)?;
    }
    Ok(marks)
}

// The state that a line begins in, but for the bytes that are noted for its memory.
#[derive(Clone, Copy)]
pub struct Given {
    pub size: u32,
    pub registers: Registers,
    pub fill: u8,
}

// The line that is chosen.
#[derive(Clone, Copy)]
pub enum Choice {
    Terminal,
    Printer(SynchronousStatus, ExpeditedStatus),
    State(Given),
}

fn flag(text: &[u8]) -> Result<bool, Refusal> {
    match text {
        b"0" => Ok(false),
        b"1" => Ok(true),
        _ => Err(Refusal::Malformed),
    }
}

// A decimal number of at most ten digits, which a u64 holds, without leading zeros.
fn number<T: TryFrom<u64>>(text: &[u8]) -> Result<T, Refusal>
where
    T::Error: Drop,
{
    if text.len() > 10 || !matches!(text, [b'0'] | [b'1'..=b'9', ..]) {
        return Err(Refusal::Malformed);
    }
    let mut number: u64 = 0;
    for digit in text {
        if !digit.is_ascii_digit() {
            return Err(Refusal::Malformed);
        }
        number = number
            .wrapping_mul(10)
            .wrapping_add(u64::from(*digit & 0x0f));
    }
    T::try_from(number).map_err(|_| Refusal::Malformed)
}

fn state(fields: &[&[u8]; 10]) -> Result<Given, Refusal> {
    let [
        size,
        waiting,
        working,
        seen,
        last,
        taken,
        events,
        expedited,
        row,
        fill,
    ] = *fields;
    Ok(Given {
        size: number(size)?,
        registers: Registers {
            waiting: flag(waiting)?,
            working: flag(working)?,
            seen: byte(seen)?,
            last: decode_array(last)?,
            taken: number(taken)?,
            events: number(events)?,
            expedited: number(expedited)?,
            row: number(row)?,
        },
        fill: byte(fill)?,
    })
}

// A state has so many, with its name; no choice has more.
const MOST_FIELDS: usize = 11;

pub fn choose(text: &[u8]) -> Result<Choice, Refusal> {
    let mut fields: [&[u8]; MOST_FIELDS] = [b""; MOST_FIELDS];
    let mut count = 0;
    for field in text.split(|byte| *byte == b',') {
        if count >= MOST_FIELDS {
            return Err(Refusal::Malformed);
        }
        fields[count] = field;
        count += 1;
    }
    match fields.get(..count) {
        Some([b"terminal"]) => Ok(Choice::Terminal),
        Some([b"printer", end, status]) => Ok(Choice::Printer(
            SynchronousStatus::from(decode_array(end)?),
            ExpeditedStatus::from(decode_array(status)?),
        )),
        Some([b"state", fields @ ..]) => Ok(Choice::State(state(
            fields.as_array().ok_or(Refusal::Malformed)?,
        )?)),
        _ => Err(Refusal::Malformed),
    }
}
