// The list that an item is in, and what that says of it (RFC 8621, section 4.1.4).
ghost use Rattle.std.specs.Prelude.{◌≡◌};
ghost use Rattle.mime_type.specs.PartViews.{node_of};
ghost use Rattle.body_lists.specs.Lists.{is_plain as plain_node, is_html as html_node, is_media as media_node, is_attached as attached_by, is_shown_in_place, top as top_list, inside as list_inside, open_after};
ghost use Rattle.body_lists.specs.Views.{open_of, enclosing_of};

use mime_type::Part;

/// The list that items are in.
#[derive(Clone, Copy)]
pub struct EnclosingList {
    /// Whether it is an alternative's.
    pub alternative: bool,
    /// Whether it is a related multipart's.
    pub related: bool,
    /// Whether it is in an alternative, its own or one further out.
    pub within: bool,
}

/// Whether items are still added to the lists of text and of HTML.
#[derive(Clone, Copy)]
pub struct Open {
    pub text: bool,
    pub html: bool,
}

/// Returns whether a part is plain text: its type is `text/plain`.
pub fn is_plain(part: &Part) -> bool
    ensures { result ≡ plain_node (node_of part.now) }
{
    part.media.as_bytes() == b"text/plain".as_slice()
}

/// Returns whether a part is HTML: its type is `text/html`.
pub fn is_html(part: &Part) -> bool
    ensures { result ≡ html_node (node_of part.now) }
{
    part.media.as_bytes() == b"text/html".as_slice()
}

/// Returns whether a part is an image, a sound or a film.
pub fn is_media(part: &Part) -> bool
    ensures { result ≡ media_node (node_of part.now) }
{
    let media = part.media.as_bytes();
    media.starts_with(b"image/") || media.starts_with(b"audio/") || media.starts_with(b"video/")
}

fn is_attached(part: &Part) -> bool
    ensures { result ≡ attached_by part.now.disposition }
{
    match &part.disposition {
        Some(disposition) => disposition.as_bytes() == b"attachment".as_slice(),
        None => false,
    }
}

impl EnclosingList {
    /// Returns the list of the message alone, as in a mixed multipart.
    pub fn enter_message() -> EnclosingList
        ensures { enclosing_of result ≡ top_list }
    {
        EnclosingList {
            alternative: false,
            related: false,
            within: false,
        }
    }

    /// Returns the list of a multipart that is in this one.
    pub fn inside(self, part: &Part) -> EnclosingList
        ensures { enclosing_of result ≡ list_inside (enclosing_of self) (node_of part.now) }
    {
        let media = part.media.as_bytes();
        let alternative = media == b"multipart/alternative".as_slice();
        let related = media == b"multipart/related".as_slice();
        EnclosingList {
            alternative,
            related,
            within: self.within || alternative,
        }
    }

    /// Returns whether a part may be shown here, as the first of the list or not.
    pub fn shows(self, first: bool, part: &Part) -> bool
        ensures { result ≡ is_shown_in_place (enclosing_of self) first (node_of part.now) }
    {
        if part.boundary.is_some() || is_attached(part) {
            return false;
        }
        if !(is_plain(part) || is_html(part) || is_media(part)) {
            return false;
        }
        first || (!self.related && (is_media(part) || part.name.is_none()))
    }
}

impl Open {
    /// Returns which lists are open after a part.
    pub fn close_lists_after(self, place: EnclosingList, first: bool, part: &Part) -> Open
        ensures { open_of result ≡ open_after (enclosing_of place) first (open_of self)
            (node_of part.now) }
    {
        if place.shows(first, part) && place.within && !place.alternative {
            return Open {
                text: self.text && !is_html(part),
                html: self.html && !is_plain(part),
            };
        }
        self
    }
}
