// The date-time of a header field (RFC 5322, section 3.3).

/// A time of day.
#[derive(Clone, Copy)]
pub struct TimeOfDay {
    pub hour: u16,
    pub minute: u16,
    pub second: u16,
}

/// How far a zone's clock is ahead of UTC, or behind UTC, in minutes.
#[derive(Clone, Copy)]
pub struct ZoneOffset {
    pub behind: bool,
    pub minutes: u16,
}

/// A day and a time of day, as the clock of a zone shows them.
#[derive(Clone, Copy)]
pub struct ZonedDateTime {
    pub year: u16,
    pub month: u16,
    pub day: u16,
    pub time: TimeOfDay,
    pub offset: ZoneOffset,
}
