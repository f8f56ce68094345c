// What the program is told on standard input, on two lines: five logical terminal addresses, and the status
// by which the device ends its first request, both in upper-case hexadecimal.
ghost use Rattle.std.specs.Prelude.{◌≡◌, true, length};
ghost use Rattle.std.specs.Option.{ok_or};
ghost use Rattle.codes.specs.declared.number.Refusal.TheVariants.{Malformed};
ghost use Rattle.linecheck.specs.Read.{without_end, laid_out, script_in};

use codes::number::Refusal;
use tca::status::SynchronousStatus;

// More than a script that can be read has.
pub const MOST_BYTES: u64 = 64;

// The digits of the addresses.
const ADDRESSES: usize = 10;

#[derive(Clone, Copy)]
pub struct Script {
    pub terminals: [u8; 5],
    pub end: SynchronousStatus,
}

// The last line may go without its end.
fn without_last_end(text: &[u8]) -> &[u8]
    ensures { result.now ≡ without_end text.now }
{
    match text {
        [lines @ .., b'\n'] => lines,
        _ => text,
    }
}

pub fn parse(text: &[u8]) -> Result<Script, Refusal>
    ensures { result ≡ ok_or (script_in (without_end text.now)) Malformed }
{
    let lines = without_last_end(text);
    let Some((terminals, [b'\n', end @ ..])) = lines.split_at_checked(ADDRESSES) else {
        return Err(Refusal::Malformed);
    };
    let terminals = hexadecimal::decode_array(terminals)?;
    let end = hexadecimal::decode_array(end)?;
    Ok(Script {
        terminals,
        end: SynchronousStatus::from(end),
    })
}
