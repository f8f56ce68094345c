// The line in use, and what is noted for the next one.
use crate::answer::{Failure, write_reply, write_telling};
use crate::parse;
use crate::parse::{Choice, Given};
use codes::number::Refusal;
use hallline::HallLine;
use hexadecimal::decode_array;
use line::telling::Tells;
use lines::printer::Printer;
use lines::terminal::Terminal;
use losing::losing::Losing;
use losing::mark::Mark;
use simulated::snapshot::Snapshot;
use std::alloc::{AllocError, Global};
use tca::status::{Event, SynchronousStatus};

const MOST_POKES: usize = 64;

// No lawful state has more memory, and so none is made.
const MOST_BYTES: u32 = 32768;

#[derive(Drop)]
pub struct Session {
    heap: Global,
    line: Option<HallLine>,
    pokes: Vec<(u16, u8)>,
    marks: Option<[Mark; 64]>,
}

// The line, lost over by the marks.
fn lost_over(line: HallLine, marks: [Mark; 64]) -> HallLine {
    match line {
        HallLine::Terminal(line) => HallLine::LosingTerminal(Losing::new(line, marks)),
        HallLine::Printer(line) => HallLine::LosingPrinter(Losing::new(line, marks)),
        line => line,
    }
}

// The answer to what is told: a printer is told nothing.
fn write_told(told: bool, word: &[u8], answers: &mut Vec<u8>) -> Result<(), Failure> {
    if !told {
        return Err(Failure::Refused(Refusal::Malformed));
    }
    Ok(answers.extend_from_slice(word)?)
}

impl Session {
    pub fn new(heap: Global) -> Session {
        Session {
            heap,
            line: None,
            pokes: Vec::new(heap),
            marks: None,
        }
    }

    fn line(&mut self) -> Result<&mut HallLine, Refusal> {
        self.line.as_mut().ok_or(Refusal::Malformed)
    }

    fn send(&mut self, letter: u8, text: &[u8], answers: &mut Vec<u8>) -> Result<(), Failure> {
        // The line comes first: the compiler then goes from a command's letter straight to its sending.
        let line = self.line()?;
        let reply = line::issue(line, parse::command(text)?);
        Ok(write_reply(letter, reply, answers)?)
    }

    fn poke(&mut self, text: &[u8], answers: &mut Vec<u8>) -> Result<(), Failure> {
        let poke = parse::placed_byte(text)?;
        if self.pokes.len() >= MOST_POKES {
            return Err(Failure::Refused(Refusal::Malformed));
        }
        self.pokes.push(poke).map_err(AllocError::from)?;
        Ok(answers.extend_from_slice(b"M,noted\n")?)
    }

    // Memory of one byte throughout, with the noted bytes put in.
    fn memory(&self, size: u32, fill: u8) -> Result<Vec<u8>, AllocError> {
        let mut memory = vec![in self.heap; fill; size as usize]?;
        for (address, value) in self.pokes.iter() {
            if let Some(place) = memory.get_mut(usize::from(*address)) {
                *place = *value;
            }
        }
        Ok(memory)
    }

    // The line in use gives its memory back first, so that the new one finds it.
    fn restored(&mut self, given: Given) -> Result<Option<Terminal>, AllocError> {
        self.line = None;
        if given.size > MOST_BYTES {
            return Ok(None);
        }
        Ok(Terminal::in_state(Snapshot {
            memory: self.memory(given.size, given.fill)?,
            registers: given.registers,
        }))
    }

    // The line that is chosen, unless its state is not lawful.
    fn chosen(&mut self, choice: Choice) -> Result<Option<HallLine>, AllocError> {
        Ok(match choice {
            Choice::Terminal => Some(HallLine::Terminal(Terminal::new(self.heap)?)),
            Choice::Printer(end, status) => {
                Some(HallLine::Printer(Printer::new(self.heap, end, status)?))
            }
            Choice::State(given) => self.restored(given)?.map(HallLine::Terminal),
        })
    }

    // Ends the line in use for another, which takes what is noted. Apart, as `manage` is and for the same reason.
    #[inline(never)]
    fn choose(&mut self, text: &[u8], answers: &mut Vec<u8>) -> Result<(), Failure> {
        let choice = parse::choose(text)?;
        self.line = self.chosen(choice)?;
        if let Some(marks) = self.marks.take() {
            self.line = self.line.take().map(|line| lost_over(line, marks));
        }
        self.pokes.clear();
        Ok(match self.line {
            Some(_) => answers.extend_from_slice(b"L,made\n")?,
            None => answers.extend_from_slice(b"L,none\n")?,
        })
    }

    // What is told, noted, chosen or shown. It is rarer than a command and stands apart, since each command would pay for
    // what it keeps on the stack.
    #[inline(never)]
    fn manage(&mut self, text: &[u8], answers: &mut Vec<u8>) -> Result<(), Failure> {
        match text {
            [b'E', b',', event @ ..] => {
                let event = Event::from(decode_array(event)?);
                write_told(self.line()?.tell_event(event), b"E,told\n", answers)
            }
            [b'F', b',', end @ ..] => {
                let end = SynchronousStatus::from(decode_array(end)?);
                write_told(self.line()?.tell_end(end), b"F,told\n", answers)
            }
            [b'M', b',', poke @ ..] => self.poke(poke, answers),
            [b'Z', b',', marks @ ..] => {
                self.marks = Some(parse::marks(marks)?);
                Ok(answers.extend_from_slice(b"Z,noted\n")?)
            }
            [b'L', b',', choice @ ..] => self.choose(choice, answers),
            [b'T'] => Ok(write_telling(self.line()?.telling(), answers)?),
            _ => Err(Failure::Refused(Refusal::Malformed)),
        }
    }

    pub fn answer(&mut self, text: &[u8], answers: &mut Vec<u8>) -> Result<(), Failure> {
        match text {
            [b'E' | b'F' | b'M' | b'Z' | b'L' | b'T', ..] => self.manage(text, answers),
            [letter, ..] => self.send(*letter, text, answers),
            [] => Err(Failure::Refused(Refusal::Malformed)),
        }
    }
}
