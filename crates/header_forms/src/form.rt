// The forms of a field's value (RFC 8621, section 4.1.2).

/// A form of a header field's value (RFC 8621, section 4.1.2). Each value has each form; which
/// field may be requested in which form is decided by the caller.
#[derive(Clone, Copy, Debug, PartialEq, Eq)]
pub enum Form {
    /// The value as it is, as a text (section 4.1.2.1).
    Raw,
    /// The value on one line with its encoded-words decoded, as a text (section 4.1.2.2).
    Text,
    /// A list of the addresses, those in groups too, each an object of `email` and `name` (section
    /// 4.1.2.3). The name is null if none is next to the address.
    Addresses,
    /// A list of the groups, each an object of `addresses` and `name` (section 4.1.2.4). The name
    /// is null for addresses outside groups.
    GroupedAddresses,
    /// A list of the texts in angle brackets; null if there is none (section 4.1.2.5).
    MessageIds,
    /// A date and time as a text by RFC 3339, with the offset of the value; null if the value
    /// says none (section 4.1.2.6).
    Date,
    /// A list of the texts in angle brackets, for the fields of RFC 2369; null if there is none
    /// (section 4.1.2.7).
    Urls,
}
