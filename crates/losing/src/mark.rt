// What becomes of one command: it goes through and its answer comes back; the line below never gets it; or
// the line below gets it and its answer is lost.
#[derive(Clone, Copy)]
pub enum Mark {
    Passes,
    Unheard,
    Unanswered,
}
