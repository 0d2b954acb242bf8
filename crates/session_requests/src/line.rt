/// What a line is.
#[derive(Clone, Copy, Debug, PartialEq, Eq)]
pub enum Line<R> {
    /// It has no field.
    Blank,
    Request(R),
    /// It has a field, and is no request.
    Other,
}
