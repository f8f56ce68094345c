// The calls that ask for a status: only where its mark is set, and an expedited one comes before the others.
ghost use Rattle.std.specs.Prelude.{◌≡◌};
ghost use Rattle.std.specs.Result.{result_err};
ghost use Rattle.ports.specs.Refusals.{refuse_connected, refuse_collect, refuse_take, refuse_expedite};
ghost use Rattle.refusals.specs.Statuses.{refuse_status};

use crate::connected::connection;
use codes::number::Refusal;
use ports::port::Port;

fn refuse_status(is_marked: bool, comes_second: bool) -> Result<(), Refusal>
    ensures { result_err result ≡ refuse_status is_marked comes_second }
{
    if !is_marked {
        return Err(Refusal::NotMarked);
    }
    if comes_second {
        return Err(Refusal::ExpeditedFirst);
    }
    Ok(())
}

pub fn refuse_collect(port: &Port) -> Result<(), Refusal>
    ensures { result_err result ≡ refuse_connected refuse_collect port.now }
{
    let marks = connection(port)?.marks;
    refuse_status(marks.ended, marks.expedited)
}

pub fn refuse_take(port: &Port) -> Result<(), Refusal>
    ensures { result_err result ≡ refuse_connected refuse_take port.now }
{
    let marks = connection(port)?.marks;
    refuse_status(marks.asynchronous, marks.expedited)
}

pub fn refuse_expedite(port: &Port) -> Result<(), Refusal>
    ensures { result_err result ≡ refuse_connected refuse_expedite port.now }
{
    let marks = connection(port)?.marks;
    refuse_status(marks.expedited, false)
}
