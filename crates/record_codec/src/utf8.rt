// The bytes of characters in UTF-8 (RFC 3629, section 4): what may follow, and what could replace
// them.
ghost use Rattle.std.specs.Prelude.{◌≡◌, ◌+◌, ◌-◌, ◌<◌, ◌^◌, Some, if◌then◌else◌};
ghost use Rattle.record_codec.specs.NextBytes.{after_lead, after_byte, start, top_lead, can_rise, rise_cost, turns, less_of, least_length};

/// The rest of a character: `more` bytes, the next of them from `low` to `high`. If none is left, a
/// character may begin.
#[derive(Clone, Copy, Debug, PartialEq, Eq)]
pub struct CharacterRest {
    pub more: u8,
    pub low: u8,
    pub high: u8,
}

/// The state between two characters.
pub const START: CharacterRest = CharacterRest {
    more: 0,
    low: 0x80,
    high: 0xBF,
};

fn build_rest(more: u8, low: u8, high: u8) -> Option<CharacterRest>
    ensures { result ≡ Some (record { more = more; low = low; high = high }) }
{
    Some(CharacterRest { more, low, high })
}

fn find_rest_after_lead(byte: u8) -> Option<CharacterRest>
    ensures { result ≡ after_lead byte }
{
    match byte {
        0..=0x7F => Some(START),
        0xC2..=0xDF => build_rest(1, 0x80, 0xBF),
        0xE0 => build_rest(2, 0xA0, 0xBF),
        0xED => build_rest(2, 0x80, 0x9F),
        0xE1..=0xEF => build_rest(2, 0x80, 0xBF),
        0xF0 => build_rest(3, 0x90, 0xBF),
        0xF1..=0xF3 => build_rest(3, 0x80, 0xBF),
        0xF4 => build_rest(3, 0x80, 0x8F),
        _ => None,
    }
}

impl CharacterRest {
    /// Returns the rest of the character after the byte, or None if the byte may not be here.
    pub fn advance(self, byte: u8) -> Option<CharacterRest>
        ensures { result ≡ after_byte self byte }
    {
        if self.more == 0 {
            return find_rest_after_lead(byte);
        }
        if self.low <= byte && byte <= self.high {
            return build_rest(self.more - 1, 0x80, 0xBF);
        }
        None
    }

    /// Returns whether a greater byte can replace this one, in a string that ends after so many
    /// bytes from here.
    pub fn can_rise(self, room: u64, byte: u8) -> bool
        ensures { result ≡ can_rise self room byte }
    {
        if self.more == 0 {
            return byte < find_top_lead(room);
        }
        self.more as u64 <= room && byte < self.high
    }

    /// Returns how many bytes at least a string has from here on that has a greater byte in place
    /// of this one; 0 if none has.
    pub fn count_bytes_to_rise(self, byte: u8) -> usize
        ensures { result ≡ rise_cost self byte }
    {
        if self.more == 0 {
            return find_lead_cost(byte);
        }
        if byte < self.high {
            self.more as usize
        } else {
            0
        }
    }
}

fn find_top_lead(room: u64) -> u8
    ensures { result ≡ top_lead room }
{
    match room {
        0 | 1 => 0x7F,
        2 => 0xDF,
        3 => 0xEF,
        _ => 0xF4,
    }
}

fn find_lead_cost(byte: u8) -> usize
    ensures { result ≡ rise_cost start byte }
{
    if byte < 0x7F {
        1
    } else if byte < 0xDF {
        2
    } else if byte < 0xEF {
        3
    } else if byte < 0xF4 {
        4
    } else {
        0
    }
}

fn choose_turn(turn: usize, at: usize, rises: bool) -> usize
    requires { at + 1 < 2 ^ 64 }
    ensures { result ≡ (if rises then at + 1 else turn) }
{
    if rises { at + 1 } else { turn }
}

/// Returns up to which byte of the string, counted from 1, a string of so many bytes can be the
/// same and yet be greater: 0 if no string of so many bytes is greater.
pub fn find_turn(room: u64, text: &[u8]) -> usize
    ensures { result ≡ turns (Some start) room text.now }
{
    let mut follow = START;
    let mut turn = 0;
    for at in 0..text.len() {
        let left = room.saturating_sub(at as u64);
        if left == 0 {
            return turn;
        }
        let byte = text[at];
        turn = choose_turn(turn, at, follow.can_rise(left, byte));
        match follow.advance(byte) {
            None => return turn,
            Some(next) => follow = next,
        }
    }
    if (text.len() as u64) < room {
        return text.len() + 1;
    }
    turn
}

fn choose_lesser_length(least: usize, at: usize, cost: usize) -> usize
    requires { at < least }
    ensures { result ≡ at + less_of cost (least - at) }
{
    if cost != 0 && cost < least - at {
        return at + cost;
    }
    least
}

/// Returns the least length of a string that is greater than this one.
pub fn find_least_length(text: &[u8]) -> usize
    ensures { result ≡ least_length (Some start) text.now }
{
    let mut follow = START;
    let mut least = text.len() + 1;
    for at in 0..text.len() {
        if least <= at + 1 {
            return least;
        }
        let byte = text[at];
        least = choose_lesser_length(least, at, follow.count_bytes_to_rise(byte));
        match follow.advance(byte) {
            None => return least,
            Some(next) => follow = next,
        }
    }
    least
}
