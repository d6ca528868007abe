ghost use Rattle.std.specs.Prelude.{◌≡◌, [], ◌∷◌, ◌++◌, IfOk, IfSome, OnOk, codes, is_some};
ghost use Rattle.json.specs.Tree.{json_tokens, members_tokens};
ghost use Rattle.serde_json.specs.Written.{outline, members_outline};
ghost use Rattle.es_transcode.specs.Written.{Adds};
ghost use Rattle.es_lines.specs.Texts as spec;

use crate::objects::{put_number, put_text};
use es_model::{Bytes, Code, Counts, NoMemory, Text};
use json::Writer;
use std::alloc::{AllocError, Global};

/// How a run ends, as its end line tells it.
#[derive(Debug, Drop)]
pub enum End {
    /// Every line was answered. The recordings that were added, by application, and the number of
    /// lines.
    Ok {
        added: Counts,
        lines: u64,
    },
    Memory,
    /// The words are of no form that there is.
    Usage,
    /// The document is no declaration, for this reason and at this place.
    Declaration {
        code: Code,
        path: Text,
    },
    /// Reading the document failed.
    System,
    /// Reading the lines failed.
    Input,
    /// A recorder or its stores failed.
    Recorder,
    /// The policy of an application with so many recordings refused a notification, by a rule, counted
    /// from 1.
    Refused {
        app: Text,
        leader: Text,
        id: u64,
        recordings: u64,
        code: Text,
        rule: u64,
    },
    /// At the opening a follower tracked a notification of a leader past the leader's last one.
    Ahead {
        app: Text,
        leader: Text,
        tracked: u64,
        last: u64,
    },
    /// An application has recorded as many notifications as it may, and one more is there.
    Turns {
        app: Text,
        turns: u64,
    },
    /// An entry of an application's log has no meaning, and a decision needs it.
    Unreadable {
        app: Text,
        id: u64,
    },
    /// The events of the next recording don't fit after the last one.
    Full {
        app: Text,
        last: u64,
        capacity: u64,
    },
    /// The next line doesn't end within the bytes that lines may have together.
    Over,
}

/// The text of an end line, without a line feed.
pub fn end_text(alloc: Global, end: &End) -> Result<Bytes, NoMemory>
    ensures { IfOk result (λ text. text ≡ spec.end_text end.now) }
{
    let mut out = Writer::new(Vec::with_capacity(alloc, 128)?);
    write_end(&mut out, end)?;
    Ok(Bytes::from_vec(out.into_inner()))
}

/// The end line, with its line feed, of an end that has no member but its word; it takes no memory.
pub fn fixed_end_line(end: &End) -> Option<&'static [u8]>
    ensures fixed { is_some result ≡ spec.is_fixed end.now }
    ensures line { IfSome result (λ line. line.now ≡ spec.end_text end.now ++ 10 ∷ []) }
{
    match end {
        End::Ok { .. } => None,
        End::Memory => Some(b"{\"end\":\"memory\"}\n"),
        End::Usage => Some(b"{\"end\":\"usage\"}\n"),
        End::Declaration { .. } => None,
        End::System => Some(b"{\"end\":\"system\"}\n"),
        End::Input => Some(b"{\"end\":\"input\"}\n"),
        End::Recorder => Some(b"{\"end\":\"recorder\"}\n"),
        End::Refused { .. } => None,
        End::Turns { .. } => None,
        End::Ahead { .. } => None,
        End::Unreadable { .. } => None,
        End::Full { .. } => None,
        End::Over => Some(b"{\"end\":\"over\"}\n"),
    }
}

fn write_end(out: &mut Writer, end: &End) -> Result<(), AllocError>
    ensures { OnOk result (Adds out.old out.new (json_tokens (outline (spec.end_tree end.now)))) }
{
    match end {
        End::Ok { added, lines } => write_ok(out, added, *lines),
        End::Memory => write_lone(out, "memory"),
        End::Usage => write_lone(out, "usage"),
        End::Declaration { code, path } => write_declaration(out, code, path),
        End::System => write_lone(out, "system"),
        End::Input => write_lone(out, "input"),
        End::Recorder => write_lone(out, "recorder"),
        End::Refused {
            app,
            leader,
            id,
            recordings,
            code,
            rule,
        } => write_refused(out, app, leader, *id, *recordings, code, *rule),
        End::Turns { app, turns } => write_turns(out, app, *turns),
        End::Ahead {
            app,
            leader,
            tracked,
            last,
        } => write_ahead(out, app, leader, *tracked, *last),
        End::Unreadable { app, id } => write_unreadable(out, app, *id),
        End::Full {
            app,
            last,
            capacity,
        } => write_full(out, app, *last, *capacity),
        End::Over => write_lone(out, "over"),
    }
}

fn write_lone(out: &mut Writer, word: &str) -> Result<(), AllocError>
    ensures { OnOk result (Adds out.old out.new (json_tokens (outline (spec.lone (codes "end") word.now)))) }
{
    out.begin_object()?;
    put_text(out, "end", word)?;
    out.end_object()
}

// The members of an object, and its end.
fn write_counts(out: &mut Writer, counts: &[(Text, u64)]) -> Result<(), AllocError>
    ensures { OnOk result (Adds out.old out.new (members_tokens (members_outline (spec.counts counts.now)))) }
{
    for count in counts {
        put_number(out, count.0.as_str(), count.1)?;
    }
    out.end_object()
}

fn write_ok(out: &mut Writer, added: &Counts, lines: u64) -> Result<(), AllocError>
    ensures { OnOk result (Adds out.old out.new (json_tokens (outline (spec.end_tree (End.Ok added.now lines))))) }
{
    out.begin_object()?;
    out.key("added")?;
    out.begin_object()?;
    write_counts(out, added.as_slice())?;
    put_text(out, "end", "ok")?;
    put_number(out, "lines", lines)?;
    out.end_object()
}

fn code_text(code: &Code) -> &'static str
    ensures { result.now ≡ spec.code_text code.now }
{
    match code {
        Code::Long => "long",
        Code::Json => "json",
        Code::Form => "form",
        Code::Limit => "limit",
        Code::Name => "name",
        Code::Repeat => "repeat",
        Code::Unknown => "unknown",
        Code::Kind => "kind",
        Code::Fields => "fields",
        Code::Order => "order",
        Code::Pipe => "pipe",
    }
}

fn write_declaration(out: &mut Writer, code: &Code, path: &Text) -> Result<(), AllocError>
    ensures { OnOk result (Adds out.old out.new (json_tokens (outline (spec.end_tree (End.Declaration code.now path.now))))) }
{
    out.begin_object()?;
    put_text(out, "code", code_text(code))?;
    put_text(out, "end", "declaration")?;
    put_text(out, "path", path.as_str())?;
    out.end_object()
}

fn write_refused(
    out: &mut Writer,
    app: &Text,
    leader: &Text,
    id: u64,
    recordings: u64,
    code: &Text,
    rule: u64,
) -> Result<(), AllocError>
    ensures { OnOk result (Adds out.old out.new (json_tokens (outline (spec.end_tree (End.Refused app.now leader.now id recordings code.now rule))))) }
{
    out.begin_object()?;
    put_text(out, "app", app.as_str())?;
    put_text(out, "code", code.as_str())?;
    put_text(out, "end", "refused")?;
    put_number(out, "id", id)?;
    put_text(out, "leader", leader.as_str())?;
    put_number(out, "recordings", recordings)?;
    put_number(out, "rule", rule)?;
    out.end_object()
}

fn write_turns(out: &mut Writer, app: &Text, turns: u64) -> Result<(), AllocError>
    ensures { OnOk result (Adds out.old out.new (json_tokens (outline (spec.end_tree (End.Turns app.now turns))))) }
{
    out.begin_object()?;
    put_text(out, "app", app.as_str())?;
    put_text(out, "end", "turns")?;
    put_number(out, "turns", turns)?;
    out.end_object()
}

fn write_ahead(
    out: &mut Writer,
    app: &Text,
    leader: &Text,
    tracked: u64,
    last: u64,
) -> Result<(), AllocError>
    ensures { OnOk result (Adds out.old out.new (json_tokens (outline (spec.end_tree (End.Ahead app.now leader.now tracked last))))) }
{
    out.begin_object()?;
    put_text(out, "app", app.as_str())?;
    put_text(out, "end", "ahead")?;
    put_number(out, "last", last)?;
    put_text(out, "leader", leader.as_str())?;
    put_number(out, "tracked", tracked)?;
    out.end_object()
}

fn write_unreadable(out: &mut Writer, app: &Text, id: u64) -> Result<(), AllocError>
    ensures { OnOk result (Adds out.old out.new (json_tokens (outline (spec.end_tree (End.Unreadable app.now id))))) }
{
    out.begin_object()?;
    put_text(out, "app", app.as_str())?;
    put_text(out, "end", "unreadable")?;
    put_number(out, "id", id)?;
    out.end_object()
}

fn write_full(out: &mut Writer, app: &Text, last: u64, capacity: u64) -> Result<(), AllocError>
    ensures { OnOk result (Adds out.old out.new (json_tokens (outline (spec.end_tree (End.Full app.now last capacity))))) }
{
    out.begin_object()?;
    put_text(out, "app", app.as_str())?;
    put_number(out, "capacity", capacity)?;
    put_text(out, "end", "full")?;
    put_number(out, "last", last)?;
    out.end_object()
}
