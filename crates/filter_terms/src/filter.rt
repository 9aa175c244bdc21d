// A filter, and what it matches.
ghost use Rattle.std.specs.Prelude.{◌≡◌, ℕ, IfErr, IfOk, IfSome, OnOk};
ghost use Rattle.jm_base.specs.declared.identifiers.Kind.TheVariants.{Email as OfEmails, Mailbox as OfMailboxes};
ghost use Rattle.filter_terms.specs.Texts.{IsRequired, MessageTexts, has_text};
ghost use Rattle.jm_json.specs.Json.{tree_of};
ghost use Rattle.filter_terms.specs.Filters.{holds, matches};
ghost use Rattle.filter_terms.specs.Forms.{IsFilter, Refuses};
ghost use Rattle.filter_terms.specs.Targets.{AMailbox, AnEmail, EmailInThread, email_in_thread};
ghost use Rattle.filter_terms.specs.ThreadScope;

use crate::compile::compile;
use crate::compiled::{Terms, match_email_terms, match_mailbox_terms};
use crate::faults::TermFault;
use crate::invalid::find_invalid_name;
use crate::required_text::{RequiredText, find_text_in_terms};
use crate::texts::{Place, Texts2};
use crate::thread_scope::is_wide_tree;
use crate::unsupported::find_unsupported_name;
use jm_base::{Kind, NoMemory, Text};
use jm_json::{Json, copy};
use mail_records::{Content, Email, Mailbox};
use std::alloc::Global;
use std::marker::Model;

/// A filter of Mailbox/query or Email/query. Contracts see the kind of record that it is of, and
/// the tree that it was read from.
#[derive(Drop)]
pub struct Filter {
    kind: Kind,
    tree: Json,
    terms: Terms,
    over_thread: bool,
}

impl Model for Filter {
    ghost use Rattle.filter_terms.specs.Views.{FilterTree, filter_code};

    ghost Value = { FilterTree };

    ghost coded = { filter_code };

    ghost use Rattle.std.specs.Prelude.{◌≡◌};
    ghost use Rattle.jm_json.specs.Json.{tree_of};
    ghost use Rattle.filter_terms.specs.Compiled.{Means};
    ghost use Rattle.filter_terms.specs.Forms.{IsFilter};
    ghost use Rattle.filter_terms.specs.ThreadScope.{is_wide};

    ghost view = { λ f. record { kind = f.kind; tree = tree_of f.tree } };

    ghost invariant = { λ f. IsFilter f.kind (tree_of f.tree)
        × Means f.kind f.terms (tree_of f.tree)
        × (f.over_thread ≡ is_wide f.kind (tree_of f.tree)) };
}

/// Reads the filter of a query of mailboxes or of emails. Fails with `Invalid` if a value is of a
/// wrong kind or the tree is no filter (`invalidArguments`), else with `Unsupported` if there is a
/// condition of no such query (`unsupportedFilter`); threads have no query, and no condition.
pub fn read_filter(alloc: Global, kind: Kind, tree: &Json) -> Result<Filter, TermFault>
    ensures ok { IfOk result (λ f. f ≡ record { kind = kind; tree = tree_of tree.now }) }
    ensures form { OnOk result (IsFilter kind (tree_of tree.now)) }
    ensures err { IfErr result (λ e. Refuses kind (tree_of tree.now) e) }
{
    if let Some(name) = find_invalid_name(kind, tree) {
        return Err(TermFault::Invalid(Text::from_str(alloc, name)?));
    }
    if let Some(name) = find_unsupported_name(kind, tree) {
        return Err(TermFault::Unsupported(Text::from_str(alloc, name)?));
    }
    let terms = compile(alloc, kind, tree)?;
    let over_thread = is_wide_tree(kind, tree);
    Ok(Filter {
        kind,
        tree: copy(alloc, tree)?,
        terms,
        over_thread,
    })
}

/// Returns whether a filter looks at the other emails of an email's thread.
pub fn is_wide(filter: &Filter) -> bool
    ensures { result ≡ ThreadScope.is_wide filter.now.kind filter.now.tree }
{
    filter.over_thread
}

/// Returns a text that a filter asks for at a place: the one that it looks for, or the first of
/// those that an AND joins with other conditions. Returns `None` if the filter asks for none.
pub fn find_required_text(filter: &Filter, place: Place) -> Option<RequiredText<'_>>
    ensures { IfSome result (λ r. (texts : ℕ → MessageTexts) (s : EmailInThread)
        → IsRequired r.alone (has_text (texts s.email.blob) place r.needle.now)
        (holds filter.now.kind (AnEmail texts s) filter.now.tree)) }
{
    find_text_in_terms(&filter.terms, place)
}

/// Returns whether a filter of emails matches an email of a content, whose messages contain what
/// `texts` says. Its message is opened at most once, and only if the conditions that look at no
/// text leave open whether the filter matches.
pub fn matches_email<T: Texts2>(
    filter: &Filter,
    content: &Content,
    texts: &T,
    email: &Email,
) -> Result<bool, NoMemory>
    ensures { IfOk result (λ b. b ≡ holds filter.now.kind
        (AnEmail (T.texts texts.now) (email_in_thread content.now.content.emails email.now))
        filter.now.tree) }
{
    match_email_terms(&filter.terms, content, texts, email)
}

/// Returns whether a filter of mailboxes matches a mailbox.
pub fn matches_mailbox(filter: &Filter, mailbox: &Mailbox) -> bool
    ensures { result ≡ holds filter.now.kind (AMailbox mailbox.now) filter.now.tree }
{
    match_mailbox_terms(&filter.terms, mailbox)
}

/// Returns whether a filter matches the record of this number, of the filter's kind. It matches no
/// record that is not there.
pub fn matches<T: Texts2>(
    filter: &Filter,
    content: &Content,
    texts: &T,
    number: u64,
) -> Result<bool, NoMemory>
    ensures { IfOk result (λ b. b ≡ matches filter.now.kind filter.now.tree content.now.content
        (T.texts texts.now) number) }
{
    match filter.kind {
        Kind::Mailbox => Ok(matches_mailbox_at(filter, content, number)),
        Kind::Email => matches_email_at(filter, content, texts, number),
        Kind::Thread => Ok(false),
    }
}

fn matches_mailbox_at(filter: &Filter, content: &Content, number: u64) -> bool
    requires { filter.now.kind ≡ OfMailboxes }
    ensures { (texts : ℕ → MessageTexts) → result
        ≡ matches filter.now.kind filter.now.tree content.now.content texts number }
{
    match content.mailbox(number) {
        Some(mailbox) => matches_mailbox(filter, mailbox),
        None => false,
    }
}

fn matches_email_at<T: Texts2>(
    filter: &Filter,
    content: &Content,
    texts: &T,
    number: u64,
) -> Result<bool, NoMemory>
    requires { filter.now.kind ≡ OfEmails }
    ensures { IfOk result (λ b. b ≡ matches filter.now.kind filter.now.tree content.now.content
        (T.texts texts.now) number) }
{
    match content.email(number) {
        Some(email) => matches_email(filter, content, texts, email),
        None => Ok(false),
    }
}
