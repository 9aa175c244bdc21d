// Identifiers of records, dates, and the items of a change to a list (RFC 8620, sections 1.2, 1.4
// and 5.6).

/// Record numbers and positions are below this number, so that every JSON reader takes them exactly
/// (RFC 8259, section 6).
pub const NUMBER_LIMIT: u64 = 1 << 53;

/// A kind of record.
#[derive(Clone, Copy, Debug, PartialEq, Eq)]
pub enum Kind {
    Mailbox,
    Email,
    Thread,
}

/// The identifier of a record: its kind, and its number among those of the kind, from 1 and below
/// [`NUMBER_LIMIT`].
#[derive(Clone, Copy, Debug, PartialEq, Eq)]
pub struct Id {
    pub kind: Kind,
    pub number: u64,
}

/// A date and time of day: the seconds since the beginning of 1970 in UTC (RFC 8620, section 1.4).
#[derive(Clone, Copy, Debug, PartialEq, Eq)]
pub struct UtcDate {
    pub seconds: i64,
}

/// A record that a list gained: its number, and its index in the list that results.
#[derive(Clone, Copy, Debug, PartialEq, Eq)]
pub struct AddedItem {
    pub number: u64,
    pub index: u64,
}

/// A text is not the text of an identifier, of a state or of a date.
#[derive(Clone, Copy, Debug, PartialEq, Eq)]
pub enum FormFault {
    NotAnId,
    NotAState,
    NotADate,
}

/// A change does not fit a list: the added item with this index in `added` has an index past the
/// end of the list at its turn. Or an allocation failed.
#[derive(Clone, Copy, Debug, PartialEq, Eq)]
pub enum SpliceFault {
    BadIndex(u64),
    NoMemory,
}
