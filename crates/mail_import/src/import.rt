// Performs imports (RFC 8621, section 4.8).
ghost use Rattle.std.specs.Prelude.{◌≡◌, ◌+◌, ◌<◌, ◌^◌, None, OnOk, ℕ, length, map, option_map, unwrap_or};
ghost use Rattle.set_parts.specs.Views.{create_of};
ghost use Rattle.email_creates.specs.Emails.{Progress, after_made, email_of};
ghost use Rattle.email_creates.specs.Views.{Follows, HasNumbersFor, blob_of};
ghost use Rattle.mail_import.specs.Imports.{after_import, after_imports, no_blob};
ghost use Rattle.mail_import.specs.Views.{import_of};

use crate::properties::{Import, collect_invalid, read_import};
use email_creates::{
    NamedBlob, Planner, Setting, count_emails, create_email, find_error, reject_email,
};
use jm_base::{NoMemory, Text};
use set_parts::SentCreate;
use std::alloc::Global;

fn take_blob_or_none<'a>(blob: Option<NamedBlob<'a>>) -> NamedBlob<'a>
    ensures { blob_of result ≡ unwrap_or (option_map blob_of blob.entry) no_blob }
{
    match blob {
        Some(blob) => blob,
        None => NamedBlob {
            number: 0,
            bytes: &[],
        },
    }
}

// Imports an email with these properties, which are valid.
fn import_email<'a>(
    alloc: Global,
    setting: &Setting<'a>,
    planner: &mut Planner<'a>,
    creation: &'a Text,
    import: Import<'a>,
) -> Result<(), NoMemory>
    requires numbers { HasNumbersFor 1 planner.old }
    requires moment { setting.now.moment < 2 ^ 63 }
    ensures follows { OnOk result
        ((s : Progress) → Follows setting.now.content.now.content planner.old s
        → Follows setting.now.content.now.content planner.new
        (after_made s creation.now
        (email_of s setting.now.moment import.entry.sent
        (unwrap_or (import_of import.entry).blob no_blob)) None)) }
    ensures numbers { OnOk result
        ((n : ℕ) → HasNumbersFor (n + 1) planner.old → HasNumbersFor n planner.new) }
{
    let Import { blob, sent } = import;
    create_email(
        alloc,
        setting,
        planner,
        creation,
        sent,
        take_blob_or_none(blob),
    )
}

/// Performs an import: an email is created if all its properties are valid and it is within the
/// limits.
pub fn perform_import<'a>(
    alloc: Global,
    setting: &Setting<'a>,
    planner: &mut Planner<'a>,
    import: &SentCreate<'a>,
) -> Result<(), NoMemory>
    requires numbers { HasNumbersFor 1 planner.old }
    requires moment { setting.now.moment < 2 ^ 63 }
    ensures follows { OnOk result
        ((s : Progress) → Follows setting.now.content.now.content planner.old s
        → Follows setting.now.content.now.content planner.new
        (after_import setting.now.blobs.now.blobs setting.now.moment s (create_of import.now))) }
    ensures numbers { OnOk result
        ((n : ℕ) → HasNumbersFor (n + 1) planner.old → HasNumbersFor n planner.new) }
{
    let read = read_import(
        alloc,
        setting.blobs,
        setting.content,
        &planner.creates.ids,
        import.members,
    )?;
    let invalid = collect_invalid(alloc, &read)?;
    let emails = count_emails(setting.content, planner.creates.edits.as_slice());
    match find_error(invalid, &read.sent, emails, true) {
        Some(error) => reject_email(alloc, planner, import.creation, error),
        None => import_email(alloc, setting, planner, import.creation, read),
    }
}

/// Performs imports, one after the other.
pub fn perform_imports<'a>(
    alloc: Global,
    setting: &Setting<'a>,
    planner: &mut Planner<'a>,
    imports: &[SentCreate<'a>],
) -> Result<(), NoMemory>
    requires numbers { HasNumbersFor (length imports.now) planner.old }
    requires moment { setting.now.moment < 2 ^ 63 }
    ensures { OnOk result
        ((s : Progress) → Follows setting.now.content.now.content planner.old s
        → Follows setting.now.content.now.content planner.new
        (after_imports setting.now.blobs.now.blobs setting.now.moment s
        (map create_of imports.now))) }
{
    for i in 0..imports.len() {
        perform_import(alloc, setting, planner, &imports[i])?;
    }
    Ok(())
}
