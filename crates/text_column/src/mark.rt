// What a search of a column says of one text.

/// What a search of a column says of one text.
#[derive(Clone, Copy, Debug, PartialEq, Eq)]
pub enum Mark {
    /// The needle is not in the text.
    HasNot,
    /// The needle is in the text.
    Has,
    /// The column does not keep the text, so it must be looked up elsewhere.
    Open,
}
