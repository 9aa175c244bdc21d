// The emails that a call creates, by their links, so that later ones of the same call join their
// threads (RFC 8621, section 3).
ghost use Rattle.std.specs.Prelude.{◌≡◌, ◌+◌, ◌<◌, ◌^◌, IfOk, None, OnOk};
ghost use Rattle.std.specs.Option.{option_or};
ghost use Rattle.mail_records.specs.Contents.{AreNumbered};
ghost use Rattle.mail_records.specs.declared.records.Summary.{Summary as TheSummary};
ghost use Rattle.email_creates.specs.NewEmails.{thread_if_related};
ghost use Rattle.thread_assign.specs.Threads.{joined_thread};

use jm_base::{Kind, NoMemory, Numbers, Text, Texts, UtcDate};
use mail_records::{Content, Edit, Email, Summary, apply};
use std::alloc::Global;

fn copy_links(alloc: Global, links: &[Text]) -> Result<Texts, NoMemory>
    ensures { IfOk result (λ t. t ≡ links.now) }
{
    let mut copies = Vec::with_capacity(alloc, links.len())?;
    for link in links {
        copies.push(link.copy()?)?;
    }
    Ok(Texts::from_vec(copies))
}

// Copies what threads are found by: the links and the subject.
fn copy_summary(alloc: Global, summary: &Summary) -> Result<Summary, NoMemory>
    ensures links { IfOk result (λ s. s.links ≡ summary.now.links) }
    ensures subject { IfOk result (λ s. s.subject ≡ summary.now.subject) }
{
    let links = copy_links(alloc, summary.links.as_slice())?;
    let subject = summary.subject.copy()?;
    Ok(Summary {
        links,
        subject,
        from: Text::from_str(alloc, "")?,
        to: Text::from_str(alloc, "")?,
        sent: None,
        attachment: false,
    })
}

fn build_email(
    alloc: Global,
    number: u64,
    thread: u64,
    summary: &Summary,
) -> Result<Email, NoMemory>
    ensures number { IfOk result (λ e. e.number ≡ number) }
    ensures thread { IfOk result (λ e. e.thread ≡ thread) }
    ensures links { IfOk result (λ e. e.summary.links ≡ summary.now.links) }
    ensures subject { IfOk result (λ e. e.summary.subject ≡ summary.now.subject) }
{
    let summary = copy_summary(alloc, summary)?;
    Ok(Email {
        number,
        thread,
        blob: 0,
        mailboxes: Numbers::new(alloc),
        keywords: Texts::new(alloc),
        size: 0,
        received: UtcDate { seconds: 0 },
        summary,
    })
}

/// Adds an email of a thread with this summary to the emails of a call, under a number of its own.
pub fn add_new_email(
    alloc: Global,
    new_emails: &mut Content,
    thread: u64,
    summary: &Summary,
) -> Result<(), NoMemory>
    requires numbered { AreNumbered new_emails.old.content }
    requires next { new_emails.old.content.next_email + 1 < 2 ^ 64 }
    ensures threads { OnOk result
        ((u : TheSummary) → joined_thread new_emails.new.content.emails u
        ≡ option_or (joined_thread new_emails.old.content.emails u)
        (thread_if_related u thread summary.now)) }
    ensures numbered { OnOk result (AreNumbered new_emails.new.content) }
    ensures next { OnOk result
        (new_emails.new.content.next_email ≡ new_emails.old.content.next_email + 1) }
{
    let item = build_email(alloc, new_emails.next(Kind::Email), thread, summary)?;
    let edit = Edit::PutEmail { item, was: false };
    apply(alloc, new_emails, &edit)
}
