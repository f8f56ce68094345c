// One call of a list, with its arguments, and what it answers.
use codes::number::Refusal;
use ports::answers::{AttachFailure, Failure, Handed};
use ports::disconnection::Disconnection;
use ports::port::Marks;
use tca::request::Request;
use tca::status::{ExpeditedStatus, SynchronousStatus};

// The port is the first of each but turn. A fetch reads into the buffer that the whole list shares.
#[derive(Clone, Copy)]
pub enum Order<'a> {
    Configure(u8, [u8; 5]),
    Attach(u8),
    Turn,
    Poll(u8),
    Request(u8, Request, &'a [u8]),
    Collect(u8),
    Take(u8),
    Expedite(u8, [u8; 4]),
    Fetch(u8, u16, usize),
    Drop(u8),
}

#[derive(Clone, Copy)]
pub enum Answered {
    Configured(Result<(), Refusal>),
    Attached(Result<(), AttachFailure>),
    Turned(Option<u8>),
    Polled(Result<Marks, Failure>),
    Requested(Result<(), Failure>),
    Collected(Result<SynchronousStatus, Failure>),
    Taken(Result<Handed, Failure>),
    Expedited(Result<ExpeditedStatus, Failure>),
    Fetched(Result<(), Failure>),
    Dropped(Result<Disconnection, Refusal>),
}
