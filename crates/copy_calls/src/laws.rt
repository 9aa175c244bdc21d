// What the two sides of a copy are to each other.
ghost use Rattle.std.specs.Prelude.{◌≡◌, ℕ, List, Option, Some, map, true};
ghost use Rattle.std.specs.List.{AllByRecursion};
ghost use Rattle.mail_counts.specs.Forms.{is_keyword};
ghost use Rattle.mail_records.specs.Commits.{TextsRise};
ghost use Rattle.mail_records.specs.declared.records.Email.{Email};
ghost use Rattle.jm_base.specs.UtcDates.{IsUtcDate};
ghost use Rattle.mail_copies.specs.Carried.{carried_date, carried_keywords, deliveries};
ghost use Rattle.copy_calls.specs.Copied.{CopiesKeep};
ghost use Rattle.copy_calls.specs.Fetches.{carried_of, delivery_from, item_of};

/// Of what is fetched each original is delivered: its item, and its message (RFC 8620, section
/// 5.4).
pub fn originals_that_are_fetched_are_delivered()
    ensures { (blobs : List (List ℕ)) (originals : List (Option Email))
        → deliveries (carried_of blobs originals).emails (carried_of blobs originals).blobs
        ≡ map (delivery_from blobs) originals }
{}

/// The keywords of an original are those that its item says, if they are such as accounts keep: in
/// lower case and in byte order (RFC 8621, section 4.1.1).
pub fn keywords_that_are_fetched_are_the_originals()
    ensures { (e : Email) → AllByRecursion (λ k. is_keyword k ≡ true) e.keywords
        → TextsRise e.keywords → carried_keywords (item_of (Some e)) ≡ e.keywords }
{}

/// The date of receipt of an original is the one that its item says (RFC 8620, section 5.4: what
/// is not sent defaults to the original's), if it is of the years 0001 to 9999.
pub fn dates_that_are_fetched_are_the_originals()
    ensures { (e : Email) (moment : ℕ) → IsUtcDate e.received
        → carried_date moment (item_of (Some e)) ≡ e.received }
{}

/// A copy has the message of its original, so its size and its summary, and the keywords and the
/// date of receipt of its original, each unless its create sends another (RFC 8620, section 5.4;
/// RFC 8621, section 4.7). No other email is put into the account of the copies.
pub fn copies_keep_what_is_not_sent()
    ensures { CopiesKeep }
{}
