// The table of methods, by capability.
ghost use Rattle.std.specs.Prelude.{◌≡◌};
ghost use Rattle.method_batch.specs.Method.{is_capability, is_core_method, is_mailbox_method, is_thread_method, is_email_method, is_mail_method, is_allowed};

pub(crate) const CORE: &str = "urn:ietf:params:jmap:core";

pub(crate) const MAIL: &str = "urn:ietf:params:jmap:mail";

const WEBSOCKET: &str = "urn:ietf:params:jmap:websocket";

pub(crate) fn is_capability(text: &str) -> bool
    ensures { result ≡ is_capability text.now }
{
    text == CORE || text == MAIL || text == WEBSOCKET
}

/// Returns whether the method may be called in a request that uses the capabilities of the core and
/// of mail, or not.
pub(crate) fn is_allowed(core: bool, mail: bool, name: &str) -> bool
    ensures { result ≡ is_allowed core mail name.now }
{
    (core && is_core_method(name)) || (mail && is_mail_method(name))
}

fn is_core_method(name: &str) -> bool
    ensures { result ≡ is_core_method name.now }
{
    name == "Core/echo" || name == "Blob/copy"
}

fn is_mail_method(name: &str) -> bool
    ensures { result ≡ is_mail_method name.now }
{
    is_mailbox_method(name) || is_thread_method(name) || is_email_method(name)
}

fn is_mailbox_method(name: &str) -> bool
    ensures { result ≡ is_mailbox_method name.now }
{
    name == "Mailbox/get"
        || name == "Mailbox/changes"
        || name == "Mailbox/query"
        || name == "Mailbox/queryChanges"
        || name == "Mailbox/set"
}

fn is_thread_method(name: &str) -> bool
    ensures { result ≡ is_thread_method name.now }
{
    name == "Thread/get" || name == "Thread/changes"
}

fn is_email_method(name: &str) -> bool
    ensures { result ≡ is_email_method name.now }
{
    name == "Email/get"
        || name == "Email/changes"
        || name == "Email/query"
        || name == "Email/queryChanges"
        || name == "Email/set"
        || name == "Email/copy"
        || name == "Email/import"
        || name == "Email/parse"
}
