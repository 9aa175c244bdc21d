// What a patch makes of the mailboxes and keywords of an email (RFC 8620, section 5.3; RFC 8621,
// sections 4.1.1 and 4.6).
ghost use Rattle.std.specs.Prelude.{◌≡◌, ◌++◌, ◌∷◌, [], ℕ, IfOk, List, MatchOption, OnOk, codes, if◌then◌else◌, map};
ghost use Rattle.jm_json.specs.Find.{find};
ghost use Rattle.jm_json.specs.Json.{member_of, tree_of};
ghost use Rattle.jm_json.specs.Patch.{bad_patch, patched, patching_by};
ghost use Rattle.jm_json.specs.declared.invocation.Created.{Created as TheCreated};
ghost use Rattle.set_parts.specs.Names.{keywords_in, mailboxes_in};
ghost use Rattle.set_parts.specs.Views.{AreMade, HoldTexts};
ghost use Rattle.email_set.specs.Patches.{bad_names, filing_tree, fixed_names, meant_changes, refiled, refiled_by, refiled_to, value_of, within_limits};

use crate::filing::{Filing, Refiled};
use crate::paths::{build_meant_path, is_fixed, read_property};
use jm_base::{MAX_MAILBOXES_PER_EMAIL, NoMemory, Numbers, Text, Texts};
use jm_json::{Json, Member, Members, PatchFault, copy, patch};
use mail_counts::MAX_KEYWORDS_PER_EMAIL;
use set_parts::{
    CreatedRecords, CreatedTexts, MailboxNumbers, SetError, build_keyword_set, build_mailbox_set,
    read_keywords, read_mailboxes, sort_names,
};
use std::alloc::Global;

// Builds the object that a patch changes.
fn build_tree(alloc: Global, mailboxes: &[u64], keywords: &[Text]) -> Result<Json, NoMemory>
    ensures { IfOk result (λ t. tree_of t
        ≡ filing_tree (record { mailboxes = mailboxes.now; keywords = keywords.now })) }
{
    let keywords = build_keyword_set(alloc, keywords)?;
    let mailboxes = build_mailbox_set(alloc, mailboxes)?;
    let mut members = Members::with_room(alloc, 2)?;
    members.set(alloc, "keywords", keywords)?;
    members.set(alloc, "mailboxIds", mailboxes)?;
    Ok(Json::Object(members))
}

/// Builds the object of the mailboxes and keywords of an email, in its properties `keywords` and
/// `mailboxIds` (RFC 8621, section 4.1.1).
pub fn build_filing_tree(alloc: Global, filing: &Filing) -> Result<Json, NoMemory>
    ensures { IfOk result (λ t. tree_of t ≡ filing_tree filing.now) }
{
    build_tree(
        alloc,
        filing.mailboxes.as_slice(),
        filing.keywords.as_slice(),
    )
}

// Collects the changes of a patch with their paths as they are applied, if no two paths are the
// same then.
fn collect_changes<'a>(
    alloc: Global,
    texts: &CreatedTexts<'a>,
    changes: &[Member],
) -> Result<Option<Members>, NoMemory>
    ensures { IfOk result (λ o. (made : List TheCreated) → HoldTexts texts.now made
        → o ≡ meant_changes made (map member_of changes.now)) }
{
    let mut meant = Members::with_room(alloc, changes.len())?;
    for change in changes {
        let path = build_meant_path(alloc, texts, &change.name)?;
        if meant.get(path.as_str()).is_some() {
            return Ok(None);
        }
        meant.put(path, copy(alloc, &change.value)?)?;
    }
    Ok(Some(meant))
}

// Changes a tree by a patch, if it is one of the tree.
#[tactic(auto, using(jm_json::proofs::Lists::lists_back))]
fn apply_changes(alloc: Global, tree: Json, changes: Members) -> Result<Option<Json>, NoMemory>
    ensures { IfOk result (λ o. MatchOption o
        ((path : List ℕ) × (patching_by changes (tree_of tree) ≡ bad_patch path))
        (λ t. patching_by changes (tree_of tree) ≡ patched (tree_of t))) }
{
    match patch(alloc, tree, &Json::Object(changes)) {
        Ok(changed) => Ok(Some(changed)),
        Err(PatchFault::BadPatch(_)) => Ok(None),
        Err(PatchFault::NoMemory) => Err(NoMemory),
    }
}

// The values of the two properties that may change. None means a value that is invalid.
#[derive(Drop)]
struct Values {
    keywords: Option<Texts>,
    mailboxes: Option<Numbers>,
}

fn read_members<'a, N: MailboxNumbers>(
    alloc: Global,
    mailboxes: &N,
    created: &CreatedRecords<'a>,
    members: &Members,
) -> Result<Values, NoMemory>
    ensures keywords { IfOk result
        (λ v. v.keywords ≡ keywords_in (find (codes "keywords") members.now)) }
    ensures mailboxes { IfOk result (λ v. (made : List TheCreated) → AreMade created.now made
        → v.mailboxes ≡ mailboxes_in (N.numbers mailboxes.now) made
        (find (codes "mailboxIds") members.now)) }
{
    let keywords = read_keywords(alloc, members)?;
    let mailboxes = read_mailboxes(alloc, mailboxes, &created.ids, members)?;
    Ok(Values {
        keywords,
        mailboxes,
    })
}

// Reads the values of the object that a patch makes.
fn read_values<'a, N: MailboxNumbers>(
    alloc: Global,
    mailboxes: &N,
    created: &CreatedRecords<'a>,
    tree: &Json,
) -> Result<Values, NoMemory>
    ensures keywords { IfOk result (λ v. v.keywords
        ≡ keywords_in (value_of (codes "keywords") (tree_of tree.now))) }
    ensures mailboxes { IfOk result (λ v. (made : List TheCreated) → AreMade created.now made
        → v.mailboxes ≡ mailboxes_in (N.numbers mailboxes.now) made
        (value_of (codes "mailboxIds") (tree_of tree.now))) }
{
    match tree.as_object() {
        Some(members) => read_members(alloc, mailboxes, created, members),
        None => Ok(Values {
            keywords: Some(Texts::new(alloc)),
            mailboxes: None,
        }),
    }
}

// Collects the properties that a patch names besides the two that may change.
fn collect_fixed(alloc: Global, changes: &[Member]) -> Result<Vec<Text>, NoMemory>
    ensures { IfOk result (λ v. v.items ≡ fixed_names (map member_of changes.now)) }
{
    let mut names = Vec::new(alloc);
    for change in changes {
        if let Some(name) = read_property(alloc, &change.name)? {
            if is_fixed(name.as_str()) {
                names.push(name)?;
            }
        }
    }
    Ok(names)
}

fn push_unless(
    alloc: Global,
    names: &mut Vec<Text>,
    is_valid: bool,
    name: &str,
) -> Result<(), NoMemory>
    ensures { OnOk result
        (names.new.items ≡ names.old.items ++ (if is_valid then [] else name.now ∷ [])) }
{
    if !is_valid {
        names.push(Text::from_str(alloc, name)?)?;
    }
    Ok(())
}

// Collects the names of the invalid properties, in byte order.
fn collect_bad_names(alloc: Global, changes: &[Member], values: &Values) -> Result<Texts, NoMemory>
    ensures { IfOk result (λ names. names
        ≡ bad_names (map member_of changes.now) values.now.keywords values.now.mailboxes) }
{
    let mut names = collect_fixed(alloc, changes)?;
    push_unless(alloc, &mut names, values.keywords.is_some(), "keywords")?;
    push_unless(alloc, &mut names, values.mailboxes.is_some(), "mailboxIds")?;
    Ok(sort_names(names))
}

// Returns these mailboxes and keywords, if they are within the limits.
fn check_limits(filing: Filing) -> Refiled
    ensures { result ≡ within_limits filing }
{
    if filing.keywords.len() > MAX_KEYWORDS_PER_EMAIL {
        return Refiled::Rejected(SetError::TooManyKeywords);
    }
    if filing.mailboxes.len() as u64 > MAX_MAILBOXES_PER_EMAIL {
        return Refiled::Rejected(SetError::TooManyMailboxes);
    }
    Refiled::Filed(filing)
}

// Returns what these values come to, of a patch with these changes.
fn decide(alloc: Global, changes: &[Member], values: Values) -> Result<Refiled, NoMemory>
    ensures { IfOk result
        (λ r. r ≡ refiled_to (map member_of changes.now) values.keywords values.mailboxes) }
{
    let bad = collect_bad_names(alloc, changes, &values)?;
    if !bad.is_empty() {
        return Ok(Refiled::Rejected(SetError::InvalidProperties(bad)));
    }
    let Values {
        keywords,
        mailboxes,
    } = values;
    Ok(check_limits(Filing {
        mailboxes: mailboxes.unwrap_or(Numbers::new(alloc)),
        keywords: keywords.unwrap_or(Texts::new(alloc)),
    }))
}

fn refile_by<'a, N: MailboxNumbers>(
    alloc: Global,
    numbers: &N,
    created: &CreatedRecords<'a>,
    mailboxes: &[u64],
    keywords: &[Text],
    changes: &[Member],
) -> Result<Refiled, NoMemory>
    ensures { IfOk result (λ r. (made : List TheCreated) → AreMade created.now made
        → r ≡ refiled_by (N.numbers numbers.now) made
        (record { mailboxes = mailboxes.now; keywords = keywords.now })
        (map member_of changes.now) (meant_changes made (map member_of changes.now))) }
{
    let Some(meant) = collect_changes(alloc, &created.texts, changes)? else {
        return Ok(Refiled::Rejected(SetError::InvalidPatch));
    };
    let tree = build_tree(alloc, mailboxes, keywords)?;
    let Some(changed) = apply_changes(alloc, tree, meant)? else {
        return Ok(Refiled::Rejected(SetError::InvalidPatch));
    };
    let values = read_values(alloc, numbers, created, &changed)?;
    decide(alloc, changes, values)
}

// Returns what a patch makes of an email in these mailboxes and with these keywords, as `refile`
// does. They are lent apart, so that the email of an account needs no copy of them.
pub(crate) fn refile_lent<'a, N: MailboxNumbers>(
    alloc: Global,
    numbers: &N,
    created: &CreatedRecords<'a>,
    mailboxes: &[u64],
    keywords: &[Text],
    patch: &Json,
) -> Result<Refiled, NoMemory>
    ensures { IfOk result (λ r. (made : List TheCreated) → AreMade created.now made
        → r ≡ refiled (N.numbers numbers.now) made
        (record { mailboxes = mailboxes.now; keywords = keywords.now }) (tree_of patch.now)) }
{
    match patch.as_object() {
        Some(changes) => refile_by(
            alloc,
            numbers,
            created,
            mailboxes,
            keywords,
            changes.as_slice(),
        ),
        None => Ok(Refiled::Rejected(SetError::InvalidPatch)),
    }
}

/// Returns what a patch makes of the mailboxes and keywords of an email, where these mailboxes are
/// there. The patch is rejected for the first of these reasons: `InvalidPatch` if it is no object,
/// or one of its paths is invalid, or two are the same once keywords are in lower case and
/// references are resolved; `InvalidProperties` with the names, in byte order, of the properties
/// that may not be sent or whose new value is invalid; `TooManyKeywords`; `TooManyMailboxes`.
pub fn refile<'a, N: MailboxNumbers>(
    alloc: Global,
    mailboxes: &N,
    created: &CreatedRecords<'a>,
    filing: &Filing,
    patch: &Json,
) -> Result<Refiled, NoMemory>
    ensures { IfOk result (λ r. (made : List TheCreated) → AreMade created.now made
        → r ≡ refiled (N.numbers mailboxes.now) made filing.now (tree_of patch.now)) }
{
    refile_lent(
        alloc,
        mailboxes,
        created,
        filing.mailboxes.as_slice(),
        filing.keywords.as_slice(),
        patch,
    )
}
