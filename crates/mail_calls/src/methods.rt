// The methods of mail, by their names (RFC 8621): one line a method that is built.
ghost use Rattle.std.specs.Prelude.{◌≡◌};
ghost use Rattle.mail_calls.specs.Methods.{copy_method_named, method_named};

use jm_base::Kind;

/// A method of mail that is built.
#[derive(Clone, Copy, Debug, PartialEq, Eq)]
pub enum Method {
    /// The `/get` of a kind: `Mailbox/get`, `Thread/get` or `Email/get` (RFC 8621, sections 2.1,
    /// 3.1 and 4.2).
    Get(Kind),
    /// The `/changes` of a kind: `Mailbox/changes`, `Thread/changes` or `Email/changes` (RFC 8621,
    /// sections 2.2, 3.2 and 4.3).
    Changes(Kind),
    /// The `/query` of a kind: `Mailbox/query` or `Email/query` (RFC 8621, sections 2.3 and 4.4).
    Query(Kind),
    /// The `/queryChanges` of a kind: `Mailbox/queryChanges` or `Email/queryChanges` (RFC 8621,
    /// sections 2.4 and 4.5).
    QueryChanges(Kind),
    /// `Mailbox/set` (RFC 8621, section 2.5).
    MailboxSet,
    /// `Email/set` (RFC 8621, section 4.6).
    EmailSet,
    /// `Email/import` (RFC 8621, section 4.8).
    EmailImport,
    /// `Email/parse` (RFC 8621, section 4.9).
    EmailParse,
}

/// A method that copies from one account to another. It is asked of both, with
/// `Ask::Fetch` and `Ask::Place`, and is no method of one account.
#[derive(Clone, Copy, Debug, PartialEq, Eq)]
pub enum CopyMethod {
    /// `Email/copy` (RFC 8621, section 4.7).
    Emails,
    /// `Blob/copy` (RFC 8620, section 6.3).
    Blobs,
}

/// Returns the method of a name, or None if no method that is built has the name.
pub(crate) fn read_method(name: &str) -> Option<Method>
    ensures { result ≡ method_named name.now }
{
    if name == "Mailbox/get" {
        return Some(Method::Get(Kind::Mailbox));
    }
    if name == "Thread/get" {
        return Some(Method::Get(Kind::Thread));
    }
    if name == "Email/get" {
        return Some(Method::Get(Kind::Email));
    }
    if name == "Mailbox/changes" {
        return Some(Method::Changes(Kind::Mailbox));
    }
    if name == "Thread/changes" {
        return Some(Method::Changes(Kind::Thread));
    }
    if name == "Email/changes" {
        return Some(Method::Changes(Kind::Email));
    }
    if name == "Mailbox/query" {
        return Some(Method::Query(Kind::Mailbox));
    }
    if name == "Email/query" {
        return Some(Method::Query(Kind::Email));
    }
    if name == "Mailbox/queryChanges" {
        return Some(Method::QueryChanges(Kind::Mailbox));
    }
    if name == "Email/queryChanges" {
        return Some(Method::QueryChanges(Kind::Email));
    }
    if name == "Mailbox/set" {
        return Some(Method::MailboxSet);
    }
    if name == "Email/set" {
        return Some(Method::EmailSet);
    }
    if name == "Email/import" {
        return Some(Method::EmailImport);
    }
    if name == "Email/parse" {
        return Some(Method::EmailParse);
    }
    None
}

/// Returns the method that copies and has this name, or None if none has it.
pub(crate) fn read_copy_method(name: &str) -> Option<CopyMethod>
    ensures { result ≡ copy_method_named name.now }
{
    if name == "Email/copy" {
        return Some(CopyMethod::Emails);
    }
    if name == "Blob/copy" {
        return Some(CopyMethod::Blobs);
    }
    None
}
