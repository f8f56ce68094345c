// The functions that a control unit asks for, by their codes.
ghost use Rattle.std.specs.Prelude.{◌≡◌, Ok};
ghost use Rattle.codes.specs.Codes.{code_of, code_byte, needs_online, report_listed};

use crate::number::Refusal;

#[derive(Clone, Copy, PartialEq, Eq)]
pub enum FunctionCode {
    // no operation
    Cnop = 0x01,
    // write the control unit's status
    Wcus = 0x02,
    // write data from the host
    Wdat = 0x03,
    // write data of the data base
    Wdbd = 0x04,
    // read data for a local copy
    Rdcopy = 0x05,
    // write a local channel command
    Wlcc = 0x06,
    // the host selects the device
    Lock = 0x07,
    // generate inbound data for the host
    Rdat = 0x08,
    // write a printer's characteristics for a local copy
    Wctl = 0x09,
    // prepare inbound data before the host is notified
    Pdat = 0x0a,
    // end a chained command sequence
    Ctccs = 0x0b,
    // request data of the data base
    Rdbd = 0x0c,
    // read a printer's identification
    Rpid = 0x0d,
}

// The clauses `back` and `every` say that a code is given for its own byte and for no other.
impl TryFrom<u8> for FunctionCode {
    type Error = Refusal;

    ghost try_from_gives = { λ byte r. r ≡ code_of byte };

    fn try_from(byte: u8) -> Result<FunctionCode, Refusal>
        ensures value { result ≡ code_of byte }
        ensures back { (c : FunctionCode) → result ≡ Ok c → code_byte c ≡ byte }
        ensures every { (c : FunctionCode) → code_byte c ≡ byte → result ≡ Ok c }
    {
        match byte {
            0x01 => Ok(FunctionCode::Cnop),
            0x02 => Ok(FunctionCode::Wcus),
            0x03 => Ok(FunctionCode::Wdat),
            0x04 => Ok(FunctionCode::Wdbd),
            0x05 => Ok(FunctionCode::Rdcopy),
            0x06 => Ok(FunctionCode::Wlcc),
            0x07 => Ok(FunctionCode::Lock),
            0x08 => Ok(FunctionCode::Rdat),
            0x09 => Ok(FunctionCode::Wctl),
            0x0a => Ok(FunctionCode::Pdat),
            0x0b => Ok(FunctionCode::Ctccs),
            0x0c => Ok(FunctionCode::Rdbd),
            0x0d => Ok(FunctionCode::Rpid),
            _ => Err(Refusal::UnknownCode),
        }
    }
}

impl From<FunctionCode> for u8 {
    ghost from_gives = { λ code byte. byte ≡ code_byte code };

    fn from(code: FunctionCode) -> u8
        ensures value { result ≡ code_byte code }
        ensures back { code_of result ≡ Ok code }
    {
        code as u8
    }
}

impl FunctionCode {
    // Whether the function is for a logical terminal that has to be online.
    pub fn needs_online_terminal(self) -> bool
        ensures { result ≡ needs_online self }
    {
        matches!(
            self,
            FunctionCode::Wdat
                | FunctionCode::Wlcc
                | FunctionCode::Lock
                | FunctionCode::Rdat
                | FunctionCode::Pdat
                | FunctionCode::Ctccs
        )
    }
}

// Whether a first parameter is one of those that the control unit's status report takes.
pub fn is_status_report(parameter: u8) -> bool
    ensures { result ≡ report_listed parameter }
{
    matches!(
        parameter,
        0x01..=0x03 | 0x10 | 0x20 | 0x30 | 0x31 | 0x40..=0x42
            | 0x51..=0x5c | 0x60 | 0x61 | 0x70 | 0x71
    )
}
