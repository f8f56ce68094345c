// What is made of an event.

#[derive(Clone, Copy, PartialEq, Eq)]
pub enum Verdict {
    NotAllowed,
    // with the logical terminals that are online after it
    Allowed(u8),
    // allowed, and the port is disconnected after it
    PermanentError,
}
