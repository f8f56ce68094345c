// Between the answer of a sending and what its command asked for.
ghost use Rattle.std.specs.Prelude.{◌≡◌};
ghost use Rattle.line.specs.Rules.{done};
ghost use Rattle.line.specs.Answers.{byte_in};

use crate::command::Reply;

pub fn from_done(answered: bool) -> Option<Reply>
    ensures { result ≡ done answered }
{
    answered.then_some(Reply::Done)
}

pub fn to_byte(reply: Option<Reply>) -> Option<u8>
    ensures { result ≡ byte_in reply }
{
    match reply? {
        Reply::Byte(value) => Some(value),
        _ => None,
    }
}
