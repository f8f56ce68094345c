// What each call answers. A refusal has its own number, a disconnection that of its cause; 0 stands for a
// call that did what it was asked. Which numbers come beside 0, and beside 1 where there is no such port:
//
//   configure  () or refused by 2, 4
//   attach     () or refused by 3, 4; 27; 21
//   poll       the marks that are set now, or refused by 3, 5; 21, 22, 23
//   request    () or refused by 3, 5, 6, 7, 8, 9; 21: accepted, and lost
//   collect    the record of the request's end, or refused by 3, 5, 10, 11; 21
//   take       the event, with 25 if the port is disconnected after it, or refused by 3, 5, 10, 11; 21, 24
//   expedite   the record, or refused by 3, 5, 10; 21
//   fetch      (), the bytes stand in the buffer, or refused by 3, 5, 6, 9; 21
//   drop       26 in place of 0, or refused by 3, 5
ghost use Rattle.std.specs.Prelude.{◌≡◌, ℕ};
ghost use Rattle.codes.specs.Numbers.{refusal_number};
ghost use Rattle.ports.specs.Results.{by_result};
ghost use Rattle.ports.specs.Numbers.{number_done, number_told, number_handed, number_failed, number_not_attached};
ghost use Rattle.ports.specs.declared.answers.Failure.TheVariants.{Refused, Disconnected};
ghost use Rattle.ports.specs.declared.answers.AttachFailure.TheVariants.{Refused as NotTried, Disconnected as BrokenOff};

use crate::disconnection::Disconnection;
use crate::port::Marks;
use codes::number::{Ending, Refusal};
use tca::status::{Event, ExpeditedStatus, SynchronousStatus};

// Why a call on a connected port did not do what it was asked.
#[derive(Clone, Copy)]
pub enum Failure {
    // nothing has changed
    Refused(Refusal),
    // the port was connected, and is no more
    Disconnected(Disconnection),
}

// Why a port was not attached.
#[derive(Clone, Copy)]
pub enum AttachFailure {
    // nothing has changed
    Refused(Refusal),
    // no restart waited, and the device was reset
    NotWaiting,
    // nothing was accepted, and nothing is lost
    Disconnected(Disconnection),
}

// An event that is handed over; after a permanent error the port is disconnected.
#[derive(Clone, Copy)]
pub struct Handed {
    pub event: Event,
    pub disconnection: Option<Disconnection>,
}

impl From<Refusal> for Failure {
    ghost from_gives = { λ n e. e ≡ Refused n };

    fn from(refusal: Refusal) -> Failure {
        Failure::Refused(refusal)
    }
}

impl From<Disconnection> for Failure {
    ghost from_gives = { λ d e. e ≡ Disconnected d };

    fn from(disconnection: Disconnection) -> Failure {
        Failure::Disconnected(disconnection)
    }
}

impl From<Refusal> for AttachFailure {
    ghost from_gives = { λ n e. e ≡ NotTried n };

    fn from(refusal: Refusal) -> AttachFailure {
        AttachFailure::Refused(refusal)
    }
}

impl From<Disconnection> for AttachFailure {
    ghost from_gives = { λ d e. e ≡ BrokenOff d };

    fn from(disconnection: Disconnection) -> AttachFailure {
        AttachFailure::Disconnected(disconnection)
    }
}

// The number of what did what it was asked.
const DONE: u8 = 0;

// What has a number under which the host is told of it.
pub trait Numbered {
    ghost number: { Self → ℕ };

    fn number(self) -> u8
        ensures { result ≡ number self };
}

impl Numbered for () {
    ghost number = { number_done };

    fn number(self) -> u8 {
        DONE
    }
}

impl Numbered for Marks {
    ghost number = { number_done };

    fn number(self) -> u8 {
        DONE
    }
}

impl Numbered for SynchronousStatus {
    ghost number = { number_done };

    fn number(self) -> u8 {
        DONE
    }
}

impl Numbered for ExpeditedStatus {
    ghost number = { number_done };

    fn number(self) -> u8 {
        DONE
    }
}

impl Numbered for Refusal {
    ghost number = { refusal_number };

    fn number(self) -> u8 {
        u8::from(self)
    }
}

impl Numbered for Disconnection {
    ghost number = { number_told };

    fn number(self) -> u8 {
        u8::from(self.cause)
    }
}

impl Numbered for Handed {
    ghost number = { number_handed };

    fn number(self) -> u8 {
        self.disconnection.map_or(DONE, Disconnection::number)
    }
}

impl Numbered for Failure {
    ghost number = { number_failed };

    fn number(self) -> u8 {
        match self {
            Failure::Refused(refusal) => refusal.number(),
            Failure::Disconnected(disconnection) => disconnection.number(),
        }
    }
}

impl Numbered for AttachFailure {
    ghost number = { number_not_attached };

    fn number(self) -> u8 {
        match self {
            AttachFailure::Refused(refusal) => refusal.number(),
            AttachFailure::NotWaiting => u8::from(Ending::NotWaiting),
            AttachFailure::Disconnected(disconnection) => disconnection.number(),
        }
    }
}

impl<T: Numbered, E: Numbered> Numbered for Result<T, E> {
    ghost number = { by_result T.number E.number };

    fn number(self) -> u8 {
        match self {
            Ok(answer) => answer.number(),
            Err(failure) => failure.number(),
        }
    }
}
