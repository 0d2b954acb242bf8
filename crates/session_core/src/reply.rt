/// What a reply to a query is.
#[derive(Clone, Copy, Debug, PartialEq, Eq)]
pub enum Reply {
    Answer,
    Refusal,
}
