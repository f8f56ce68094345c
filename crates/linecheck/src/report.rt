// What the program prints: the runs of the log, the record that was read, and a summary.
use codes::number::Refusal;
use line::command::{Command, PollAnswer, Reply};
use linelog::Run;
use std::{fmt, io};
use tca::status::SynchronousStatus;

#[derive(Clone, Copy)]
struct Name(Command);

impl fmt::Display for Name {
    fn fmt<W: fmt::Write>(&self, f: &mut fmt::Formatter<W>) -> fmt::Result {
        f.pad(match self.0 {
            Command::Poll => "Poll",
            Command::Read(_) => "Read",
            Command::Write(_, _) => "Write",
            Command::Start => "Start",
            Command::Acknowledge => "Acknowledge",
            Command::TerminalId => "TerminalId",
            Command::Reset => "Reset",
        })
    }
}

// The addresses that a run goes through, from its first on, nine characters wide.
#[derive(Clone, Copy)]
struct Addresses(Run);

impl fmt::Display for Addresses {
    fn fmt<W: fmt::Write>(&self, f: &mut fmt::Formatter<W>) -> fmt::Result {
        let run = self.0;
        match run.command {
            Command::Read(first) | Command::Write(first, _) => {
                if run.times > 1 {
                    let last = u32::from(first).saturating_add(run.times - 1);
                    write!(f, "{first:04X}-{last:04X}")
                } else {
                    write!(f, "{first:04X}     ")
                }
            }
            _ => write!(f, "         "),
        }
    }
}

// The byte that a command carries, four characters wide.
#[derive(Clone, Copy)]
struct Carried(Command);

impl fmt::Display for Carried {
    fn fmt<W: fmt::Write>(&self, f: &mut fmt::Formatter<W>) -> fmt::Result {
        match self.0 {
            Command::Write(_, value) => write!(f, "{value:02X}  "),
            _ => write!(f, "    "),
        }
    }
}

// How often, where it is more than once.
#[derive(Clone, Copy)]
struct Times(u32);

impl fmt::Display for Times {
    fn fmt<W: fmt::Write>(&self, f: &mut fmt::Formatter<W>) -> fmt::Result {
        if self.0 > 1 { self.0.fmt(f) } else { f.pad("") }
    }
}

#[derive(Clone, Copy)]
struct Answer(Option<Reply>);

impl fmt::Display for Answer {
    fn fmt<W: fmt::Write>(&self, f: &mut fmt::Formatter<W>) -> fmt::Result {
        match self.0 {
            Some(Reply::Byte(value)) => write!(f, "{value:02X}"),
            Some(Reply::Done) => f.write_str("done"),
            Some(Reply::Polled(PollAnswer::Reset)) => f.write_str("reset"),
            Some(Reply::Polled(PollAnswer::Status)) => f.write_str("status"),
            Some(Reply::Polled(PollAnswer::Clean)) => f.write_str("clean"),
            None => f.write_str("none"),
        }
    }
}

// A run as a row of the table.
#[derive(Clone, Copy)]
struct Row(Run);

impl fmt::Display for Row {
    fn fmt<W: fmt::Write>(&self, f: &mut fmt::Formatter<W>) -> fmt::Result {
        let name = Name(self.0.command);
        let addresses = Addresses(self.0);
        let carried = Carried(self.0.command);
        let times = Times(self.0.times);
        let answer = Answer(self.0.reply);
        write!(
            f,
            "{name:<11}  {addresses}  {carried}  {times:>5}  {answer}"
        )
    }
}

pub fn print_log(rt: &HostRuntime, runs: &[Run]) -> io::Result<()> {
    println!(rt; "command      address    byte  times  answer")?;
    for run in runs {
        println!(rt; "{}", Row(*run))?;
    }
    println!(rt; "")
}

pub fn print_record(rt: &HostRuntime, record: SynchronousStatus) -> io::Result<()> {
    let names = ["DSSV", "DSSP", "DSSP2", "DSSP3"];
    for (name, byte) in names.iter().zip(<[u8; 4]>::from(record)) {
        println!(rt; "{name:<5}  {byte:02X}")?;
    }
    println!(rt; "")
}

#[derive(Clone, Copy)]
struct Status(Option<SynchronousStatus>);

impl fmt::Display for Status {
    fn fmt<W: fmt::Write>(&self, f: &mut fmt::Formatter<W>) -> fmt::Result {
        let Some(record) = self.0 else {
            return f.write_str("none");
        };
        for byte in <[u8; 4]>::from(record) {
            write!(f, "{byte:02X}")?;
        }
        Ok(())
    }
}

pub fn print_summary(
    rt: &HostRuntime,
    sent: u64,
    taken: u32,
    status: Option<SynchronousStatus>,
) -> io::Result<()> {
    let status = Status(status);
    println!(rt; "commands sent   {sent}")?;
    println!(rt; "requests taken  {taken}")?;
    println!(rt; "status          {status}")
}

// Prints why the script was refused, by its number.
pub fn print_refusal(rt: &HostRuntime, refusal: Refusal) -> io::Result<()> {
    let number = u8::from(refusal);
    println!(rt;
        "{number} malformed: expected ten and eight upper-case hexadecimal digits on two lines"
    )
}
