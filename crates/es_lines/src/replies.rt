ghost use Rattle.std.specs.Prelude.{◌≡◌, IfOk};
ghost use Rattle.serde_json.specs.Written.{compact_text};
ghost use Rattle.es_lines.specs.Texts as spec;

use crate::aggregates::got_text;
use crate::objects::{begun, ended, put_number, put_text};
use crate::sections::log_text;
use es_model::{Bytes, Fields, Moment, NoMemory, Notifications, Text};
use std::alloc::Global;
use uuid::Uuid;

/// The reply to a line.
#[derive(Debug, Drop)]
pub enum Reply {
    /// The recording's number, the notification ids of its first and last event, and the version of
    /// the command's aggregate after it.
    Accepted {
        recording: u64,
        first: u64,
        last: u64,
        version: u64,
    },
    Refused {
        code: Text,
    },
    /// An aggregate at a version: its class, when its first and its last event until then were decided, and its fields.
    Got {
        id: Uuid,
        version: u64,
        class: Text,
        created_on: Moment,
        modified_on: Moment,
        fields: Fields,
    },
    /// A section of a notification log: the ids of its first and last notification, its
    /// notifications, and the first and last id of the section after it, where they are.
    Log {
        id: Option<(u64, u64)>,
        items: Notifications,
        next: Option<(u64, u64)>,
    },
    /// The id of the leader's last notification that was processed, or 0.
    Tracking {
        position: u64,
    },
    /// A snapshot of the aggregate at this version was taken.
    Snapshot {
        version: u64,
    },
    /// The followers have reached their leaders.
    Sync,
    /// No further line is answered.
    Stop,
    /// The aggregate has no event.
    NotFound,
    /// The text says no section.
    Section,
    /// A snapshot of the aggregate at its latest version, and of its class's version, is there.
    Unchanged {
        version: u64,
    },
    /// The line is no request.
    Syntax,
    /// The application isn't declared, has no such command, or isn't led by such a leader.
    Unknown,
    /// The arguments aren't those of the command, or one doesn't fit.
    Kind,
    /// The line has more bytes than a line may have.
    Long,
    /// The command expects another version than the latest one.
    Conflict {
        latest: u64,
    },
    /// An entry that the answer needs has no meaning.
    Unreadable {
        app: Text,
        id: u64,
    },
}

/// The text of a reply, without a line feed.
pub fn reply_text(alloc: Global, reply: &Reply) -> Result<Bytes, NoMemory>
    ensures { IfOk result (λ text. text ≡ spec.reply_text reply.now) }
{
    match reply {
        Reply::Accepted {
            recording,
            first,
            last,
            version,
        } => accepted_text(alloc, *recording, *first, *last, *version),
        Reply::Refused { code } => refused_text(alloc, code),
        Reply::Got {
            id,
            version,
            class,
            created_on,
            modified_on,
            fields,
        } => got_text(
            alloc,
            id,
            *version,
            class,
            *created_on,
            *modified_on,
            fields,
        ),
        Reply::Log { id, items, next } => log_text(alloc, *id, items, *next),
        Reply::Tracking { position } => tracking_text(alloc, *position),
        Reply::Snapshot { version } => snapshot_text(alloc, *version),
        Reply::Sync => lone_text(alloc, "ok", "sync"),
        Reply::Stop => lone_text(alloc, "ok", "stop"),
        Reply::NotFound => lone_text(alloc, "error", "not-found"),
        Reply::Section => lone_text(alloc, "error", "section"),
        Reply::Unchanged { version } => unchanged_text(alloc, *version),
        Reply::Syntax => lone_text(alloc, "error", "syntax"),
        Reply::Unknown => lone_text(alloc, "error", "unknown"),
        Reply::Kind => lone_text(alloc, "error", "kind"),
        Reply::Long => lone_text(alloc, "error", "long"),
        Reply::Conflict { latest } => conflict_text(alloc, *latest),
        Reply::Unreadable { app, id } => unreadable_text(alloc, app, *id),
    }
}

fn accepted_text(
    alloc: Global,
    recording: u64,
    first: u64,
    last: u64,
    version: u64,
) -> Result<Bytes, NoMemory>
    ensures { IfOk result (λ text. text ≡ spec.reply_text (Reply.Accepted recording first last version)) }
{
    let mut out = begun(alloc)?;
    put_number(&mut out, "first", first)?;
    put_number(&mut out, "last", last)?;
    put_text(&mut out, "ok", "do")?;
    put_number(&mut out, "recording", recording)?;
    put_number(&mut out, "version", version)?;
    ended(out)
}

fn refused_text(alloc: Global, code: &Text) -> Result<Bytes, NoMemory>
    ensures { IfOk result (λ text. text ≡ spec.reply_text (Reply.Refused code.now)) }
{
    let mut out = begun(alloc)?;
    put_text(&mut out, "code", code.as_str())?;
    put_text(&mut out, "error", "refused")?;
    ended(out)
}

fn lone_text(alloc: Global, name: &str, word: &str) -> Result<Bytes, NoMemory>
    ensures { IfOk result (λ text. text ≡ compact_text (spec.lone name.now word.now)) }
{
    let mut out = begun(alloc)?;
    put_text(&mut out, name, word)?;
    ended(out)
}

fn tracking_text(alloc: Global, position: u64) -> Result<Bytes, NoMemory>
    ensures { IfOk result (λ text. text ≡ spec.reply_text (Reply.Tracking position)) }
{
    let mut out = begun(alloc)?;
    put_text(&mut out, "ok", "tracking")?;
    put_number(&mut out, "position", position)?;
    ended(out)
}

fn snapshot_text(alloc: Global, version: u64) -> Result<Bytes, NoMemory>
    ensures { IfOk result (λ text. text ≡ spec.reply_text (Reply.Snapshot version)) }
{
    let mut out = begun(alloc)?;
    put_text(&mut out, "ok", "snapshot")?;
    put_number(&mut out, "version", version)?;
    ended(out)
}

fn unchanged_text(alloc: Global, version: u64) -> Result<Bytes, NoMemory>
    ensures { IfOk result (λ text. text ≡ spec.reply_text (Reply.Unchanged version)) }
{
    let mut out = begun(alloc)?;
    put_text(&mut out, "error", "unchanged")?;
    put_number(&mut out, "version", version)?;
    ended(out)
}

fn conflict_text(alloc: Global, latest: u64) -> Result<Bytes, NoMemory>
    ensures { IfOk result (λ text. text ≡ spec.reply_text (Reply.Conflict latest)) }
{
    let mut out = begun(alloc)?;
    put_text(&mut out, "error", "conflict")?;
    put_number(&mut out, "latest", latest)?;
    ended(out)
}

fn unreadable_text(alloc: Global, app: &Text, id: u64) -> Result<Bytes, NoMemory>
    ensures { IfOk result (λ text. text ≡ spec.reply_text (Reply.Unreadable app.now id)) }
{
    let mut out = begun(alloc)?;
    put_text(&mut out, "app", app.as_str())?;
    put_text(&mut out, "error", "unreadable")?;
    put_number(&mut out, "id", id)?;
    ended(out)
}
