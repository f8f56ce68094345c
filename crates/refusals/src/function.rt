// The calls that an idle port takes: a request, and a fetch of the data that a request left in memory.
ghost use Rattle.std.specs.Prelude.{◌≡◌, is_some};
ghost use Rattle.std.specs.Bool.{then_some};
ghost use Rattle.std.specs.Result.{result_err};
ghost use Rattle.codes.specs.Codes.{code_of};
ghost use Rattle.ports.specs.Refusals.{refuse_connected, refuse_request, refuse_fetch, refuse_code, outside};

use crate::connected::connection;
use codes::function::{FunctionCode, is_status_report};
use codes::number::Refusal;
use ports::port::Port;
use tca::field::DATA_AREA;
use tca::request::Request;
use terminals::Terminals;

// Data fits between the data area's begin and the end of memory; no data fits anywhere.
fn is_outside(size: u16, address: u16, length: usize) -> bool
    ensures { result ≡ outside size address length }
{
    match length {
        0 => false,
        1..=4096 => address < DATA_AREA || usize::from(size) < usize::from(address) + length,
        _ => true,
    }
}

fn refuse_code(terminals: Terminals, request: Request) -> Result<(), Refusal>
    ensures { result_err result ≡ refuse_code terminals.addresses terminals.online request (code_of request.function) }
{
    let code = FunctionCode::try_from(request.function)?;
    if code == FunctionCode::Wcus && !is_status_report(request.p1) {
        return Err(Refusal::UnknownCode);
    }
    if code.needs_online_terminal() && !terminals.is_online(request.terminal) {
        return Err(Refusal::TerminalOffline);
    }
    Ok(())
}

fn refuse_active(port: &Port) -> Result<(), Refusal>
    ensures { result_err result ≡ refuse_connected (λ c. then_some (is_some c.request) Refusal.NotIdle) port.now }
{
    if connection(port)?.request.is_some() {
        return Err(Refusal::NotIdle);
    }
    Ok(())
}

pub fn refuse_request(
    port: &Port,
    size: u16,
    request: Request,
    length: usize,
) -> Result<(), Refusal>
    ensures { result_err result ≡ refuse_connected (refuse_request port.now.terminals size request length) port.now }
{
    refuse_active(port)?;
    refuse_code(Terminals::from(port), request)?;
    if is_outside(size, request.data, length) {
        return Err(Refusal::DataOutside);
    }
    Ok(())
}

pub fn refuse_fetch(
    port: &Port,
    size: u16,
    address: u16,
    length: usize,
    room: usize,
) -> Result<(), Refusal>
    ensures { result_err result ≡ refuse_connected (refuse_fetch size address length room) port.now }
{
    refuse_active(port)?;
    if is_outside(size, address, length) || room < length {
        return Err(Refusal::DataOutside);
    }
    Ok(())
}
