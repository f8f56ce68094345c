// What a control unit is made for: the host's attachment.
#[derive(Clone, Copy, PartialEq, Eq)]
pub enum Attachment {
    Bsc,
    LocalChannel,
    Sna,
}
