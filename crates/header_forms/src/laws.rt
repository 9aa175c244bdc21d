// Laws of the forms of addresses and dates (RFC 8621, section 4.1.2), and examples of the
// definitions. Each is the contract of a function that does nothing.
ghost use Rattle.std.specs.Prelude.{◌≡◌, ◌<◌, map, [], ◌∷◌, ◌++◌, List, ℕ, Some, None, true, length, codes};
ghost use Rattle.std.specs.List.{AllByRecursion, list_all};
ghost use Rattle.std.specs.Str.{IsUtf8, chars, encode_utf8_all};
ghost use Rattle.mime_lines.specs.Written.{is_folded};
ghost use Rattle.mail_text.specs.declared.comment.State.TheVariants.{Outside};
ghost use Rattle.mail_text.specs.Comments.{after_text};
ghost use Rattle.mail_text.specs.Texts.{trimmed};
ghost use Rattle.mime_words.specs.Words.{decoded_words};
ghost use Rattle.header_forms.specs.Addresses.{addresses_in, groups_in, if_some};
ghost use Rattle.header_forms.specs.Angles.{angle_texts};
ghost use Rattle.header_forms.specs.Dates.{date_text, date_time_in, date_time_text, if_in_range, unix_seconds, utc_of};
ghost use Rattle.header_forms.specs.DateWords.{AreComments};
ghost use Rattle.header_forms.specs.Texts.{on_one_line, text_form};
ghost use Rattle.header_forms.specs.WrittenForms.{IsDateTime, IsFieldText, IsId, IsMailbox, addresses_value, date_value, ids_value, text_value};
ghost use Rattle.header_forms.specs.declared.address.Address.{Address};
ghost use Rattle.header_forms.specs.declared.date_time.ZonedDateTime.{ZonedDateTime};
ghost use Rattle.header_forms.specs.PlainAddresses.{group_text, is_inner, is_plain, is_plain_in_group, quoted};

/// A text without quote marks, parentheses, commas, colons and angle brackets is one address,
/// itself, without a name; white space at its ends is dropped (addr-spec; RFC 5322, section 3.4.1).
pub fn plain_texts_are_one_address()
    ensures { (text : List ℕ) → IsUtf8 text → list_all is_plain (chars text) ≡ true → 0
        < length (trimmed text) → addresses_in text ≡ record { email = trimmed text; name = None }
        ∷ [] }
{}

/// A group of items without quote marks, parentheses, commas, colons, semicolons and angle brackets
/// is shown under its name, trimmed and with its encoded-words decoded, with one address for each
/// item, in order (group; RFC 5322, section 3.4).
pub fn plain_groups_hold_their_items()
    ensures { (text name : List ℕ) (items : List (List ℕ)) → chars text ≡ group_text name items
        → list_all is_plain name ≡ true
        → AllByRecursion (λ item. (list_all is_plain_in_group item ≡ true)
        × (0 < length (trimmed (encode_utf8_all item)))) items
        → groups_in text ≡ record {
          name = Some (decoded_words (trimmed (encode_utf8_all name)));
          addresses = map (λ item. record {
            email = trimmed (encode_utf8_all item);
            name = None;
          }) items;
        } ∷ [] }
{}

/// A display-name that is written between quote marks, with a backslash before each quote mark and
/// backslash in it, is the name that was meant, trimmed and with its encoded-words decoded,
/// whatever its characters are (quoted-string; RFC 5322, section 3.2.4).
pub fn quoted_names_are_read_back()
    ensures { (text name address : List ℕ) → chars text ≡ 34
        ∷ (quoted name ++ 34 ∷ 60 ∷ (address ++ 62 ∷ [])) → list_all is_inner address ≡ true → 0
        < length (trimmed (encode_utf8_all address)) → addresses_in text
        ≡ record {
          email = trimmed (encode_utf8_all address);
          name =
              if_some (decoded_words (trimmed (encode_utf8_all name)));
        } ∷ [] }
{}

/// Comments after a space between two words of a date change neither the date that is shown nor its
/// timestamp (RFC 5322, section 3.2.2). The comments before them must be closed.
pub fn comments_in_dates_change_nothing()
    ensures date { (front comments back : List ℕ) → after_text Outside front ≡ Outside
        → AreComments comments → date_text (front ++ 32 ∷ (comments ++ back))
        ≡ date_text (front ++ 32 ∷ back) }
    ensures timestamp { (front comments back : List ℕ) → after_text Outside front ≡ Outside
        → AreComments comments → utc_of (front ++ 32 ∷ (comments ++ back))
        ≡ utc_of (front ++ 32 ∷ back) }
{}

/// Examples of identifiers, addresses and groups: comments and quote marks within others; what
/// isn't closed, which extends to the end; quote marks in a bracket, which hide a `>`; and plain
/// characters, a `;` outside a group and a second `:` in one.
pub fn check_example_forms()
    ensures identifiers { angle_texts (codes " <a b@x> <c@y>") ≡ codes "ab@x" ∷ codes "c@y" ∷ [] }
    ensures addresses { addresses_in (codes "\"A \\\" B\" (c) <a@x>, (x(y)) b@y") ≡ record { email = codes "a@x"; name = Some (codes "A \" B") } ∷ record { email = codes "b@y"; name = Some (codes "x(y)") } ∷ [] }
    ensures groups { groups_in (codes " G: Ed <e@x>, j@y;, z@w") ≡ record { name = Some (codes "G"); addresses = record { email = codes "e@x"; name = Some (codes "Ed") } ∷ record { email = codes "j@y"; name = None } ∷ [] } ∷ record { name = None; addresses = record { email = codes "z@w"; name = None } ∷ [] } ∷ [] }
    ensures unclosed_quote { addresses_in (codes "\"a, b") ≡ record { email = codes "\"a, b"; name = None } ∷ [] }
    ensures unclosed_comment { addresses_in (codes "a (b, c") ≡ record { email = codes "a"; name = Some (codes "b, c") } ∷ [] }
    ensures unclosed_bracket { addresses_in (codes "a <b, c") ≡ record { email = codes "b, c"; name = Some (codes "a") } ∷ [] }
    ensures quotes_in_bracket { addresses_in (codes "<\"a>\"@b>, c") ≡ record { email = codes "\"a>\"@b"; name = None } ∷ record { email = codes "c"; name = None } ∷ [] }
    ensures plain_signs { groups_in (codes "a;, G: b:c;") ≡ record { name = None; addresses = record { email = codes "a;"; name = None } ∷ [] } ∷ record { name = Some (codes "G"); addresses = record { email = codes "b:c"; name = None } ∷ [] } ∷ [] }
{}

/// Examples of dates: years of two digits, a day that its month hasn't, second 60 and comments
/// within others, and a missing zone.
pub fn check_example_dates()
    ensures short_year { date_text (codes " Tue, 1 Jul 03 10:52:37 +0200 (x)") ≡ Some (codes "2003-07-01T10:52:37+02:00") }
    ensures no_day { date_text (codes " 31 Feb 2020 00:00 GMT") ≡ None }
    ensures leap { date_text (codes "29 feb 2000 (a(b)\\)) 23:59:60 est") ≡ Some (codes "2000-02-29T23:59:59-05:00") }
    ensures no_zone { date_text (codes "1 Jan 2000 00:00:00") ≡ None }
{}

/// A text without control characters and without white space at its ends is read back from the
/// value that is written for it, plain or in encoded-words on several lines.
pub fn texts_are_read_back()
    ensures { (text : List ℕ) → IsFieldText text → text_form (text_value text) ≡ text }
{}

/// Identifiers of characters from `!` to `~` other than angle brackets are read back in their order
/// from the value that is written for them (msg-id; RFC 5322, section 3.6.4).
pub fn identifiers_are_read_back()
    ensures { (ids : List (List ℕ)) → AllByRecursion IsId ids
        → angle_texts (on_one_line (ids_value ids)) ≡ ids }
{}

/// Each date-time that the calendar has, of the years 0 to 9999, with an offset below 100 hours, is
/// read back from the value that is written for it: as the date-time itself, as its Date form, and
/// as its timestamp (RFC 5322, section 3.3).
pub fn dates_are_read_back()
    ensures date_time { (m : ZonedDateTime) → IsDateTime m
        → date_time_in (on_one_line (date_value m)) ≡ Some m }
    ensures text { (m : ZonedDateTime) → IsDateTime m
        → date_text (on_one_line (date_value m)) ≡ Some (date_time_text m) }
    ensures timestamp { (m : ZonedDateTime) → IsDateTime m
        → utc_of (on_one_line (date_value m)) ≡ if_in_range (unix_seconds m) }
{}

/// Addresses with and without display-names, whose names may have any characters but control
/// characters, are read back in their order from the value that is written for them (mailbox-list;
/// RFC 5322, section 3.4).
pub fn addresses_are_read_back()
    ensures { (addresses : List Address) → AllByRecursion IsMailbox addresses
        → addresses_in (on_one_line (addresses_value addresses)) ≡ addresses }
{}

/// In each of these written values a space follows each line end, so that no other field begins in
/// a value.
pub fn written_values_are_folded()
    ensures texts { (text : List ℕ) → IsFieldText text → is_folded (text_value text) ≡ true }
    ensures identifiers { (ids : List (List ℕ)) → AllByRecursion IsId ids
        → is_folded (ids_value ids) ≡ true }
    ensures dates { (m : ZonedDateTime) → IsDateTime m → is_folded (date_value m) ≡ true }
    ensures addresses { (addresses : List Address) → AllByRecursion IsMailbox addresses
        → is_folded (addresses_value addresses) ≡ true }
{}
