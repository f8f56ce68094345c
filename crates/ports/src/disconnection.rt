// What is told when a port is disconnected.
use codes::number::Ending;
use procedures::silence::CommandKind;
use tca::request::Request;

// The last command that was sent before it, if one was, with its address, 0 where the command has none; the one
// Reset that a disconnection may send is not told. And the request that the port held, which is lost.
#[derive(Clone, Copy)]
pub struct Disconnection {
    pub cause: Ending,
    pub last: Option<(CommandKind, u16)>,
    pub lost: Option<Request>,
}
