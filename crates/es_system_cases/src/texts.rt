//! Cases of the texts of replies and end lines.

use anyhow::Context;
use es_lines::{End, Reply, end_text, fixed_end_line, reply_text};
use es_model::{Code, Counts, Duplicate, Notification, Notifications, Text};
use es_suite::{given, told};
use serde_json::Value;
use std::alloc::Global;

// A reply without members, by its name.
fn bare_reply(name: &str) -> Option<Reply> {
    match name {
        "syntax" => Some(Reply::Syntax),
        "unknown" => Some(Reply::Unknown),
        "kind" => Some(Reply::Kind),
        "long" => Some(Reply::Long),
        "not-found" => Some(Reply::NotFound),
        "section" => Some(Reply::Section),
        "sync" => Some(Reply::Sync),
        "stop" => Some(Reply::Stop),
        _ => None,
    }
}

fn accepted(case: &Value) -> anyhow::Result<Reply> {
    Ok(Reply::Accepted {
        recording: given::number(case, "recording")?,
        first: given::number(case, "first")?,
        last: given::number(case, "last")?,
        version: given::number(case, "version")?,
    })
}

fn unreadable_reply(alloc: Global, case: &Value) -> anyhow::Result<Reply> {
    let id = given::number(case, "id")?;
    let app = given::owned(alloc, case, "app")?;
    Ok(Reply::Unreadable { app, id })
}

fn got(alloc: Global, case: &Value) -> anyhow::Result<Reply> {
    let id = given::id(case, "id")?;
    let version = given::number(case, "version")?;
    let created_on = given::moment(case, "created_on")?;
    let modified_on = given::moment(case, "modified_on")?;
    let class = given::owned(alloc, case, "class")?;
    let fields = given::fields(alloc, case, "fields")?;
    Ok(Reply::Got {
        id,
        version,
        class,
        created_on,
        modified_on,
        fields,
    })
}

// The first and the last id of a section, which null has none of.
fn span(case: &Value, name: &str) -> anyhow::Result<Option<(u64, u64)>> {
    match given::member(case, name)? {
        Value::Null => Ok(None),
        span => Ok(Some((given::number(span, "first")?, given::number(span, "last")?))),
    }
}

fn notifications(alloc: Global, rows: &[Value]) -> anyhow::Result<Notifications> {
    let mut items = Notifications::new(alloc);
    for row in rows {
        let id = given::number(row, "position")?;
        let event = given::stored(alloc, row)?;
        items.push(Notification { id, event })?;
    }
    Ok(items)
}

fn log(alloc: Global, case: &Value) -> anyhow::Result<Reply> {
    let id = span(case, "id")?;
    let next = span(case, "next")?;
    let items = notifications(alloc, given::items(case, "items")?)?;
    Ok(Reply::Log { id, items, next })
}

// A reply by its name, with its members.
fn reply(alloc: Global, name: &str, case: &Value) -> anyhow::Result<Reply> {
    match name {
        "accepted" => accepted(case),
        "refused" => Ok(Reply::Refused {
            code: given::owned(alloc, case, "code")?,
        }),
        "conflict" => Ok(Reply::Conflict {
            latest: given::number(case, "latest")?,
        }),
        "unreadable" => unreadable_reply(alloc, case),
        "get" => got(alloc, case),
        "log" => log(alloc, case),
        "tracking" => Ok(Reply::Tracking {
            position: given::number(case, "position")?,
        }),
        "snapshot" => Ok(Reply::Snapshot {
            version: given::number(case, "version")?,
        }),
        "unchanged" => Ok(Reply::Unchanged {
            version: given::number(case, "version")?,
        }),
        _ => bare_reply(name).context("no such reply"),
    }
}

// The code of a word.
fn code(word: &str) -> Option<Code> {
    match word {
        "long" => Some(Code::Long),
        "json" => Some(Code::Json),
        "form" => Some(Code::Form),
        "limit" => Some(Code::Limit),
        "name" => Some(Code::Name),
        "repeat" => Some(Code::Repeat),
        "unknown" => Some(Code::Unknown),
        "kind" => Some(Code::Kind),
        "fields" => Some(Code::Fields),
        "order" => Some(Code::Order),
        "pipe" => Some(Code::Pipe),
        _ => None,
    }
}

// Gives a name its number.
fn put_count(alloc: Global, counts: &mut Counts, name: &str, number: &Value) -> anyhow::Result<()> {
    let number = number.as_u64().context("no number")?;
    counts.put(Text::from_str(alloc, name)?, number)?;
    Ok(())
}

// How many recordings were added, by application.
fn counts(alloc: Global, tree: &Value) -> anyhow::Result<Counts> {
    let mut counts = Counts::new(alloc);
    for (name, number) in tree.as_object().context("no counts")?.iter() {
        put_count(alloc, &mut counts, name.as_str(), number)?;
    }
    Ok(counts.copy()?)
}

// An end without members, by its name.
fn bare_end(name: &str) -> Option<End> {
    match name {
        "memory" => Some(End::Memory),
        "usage" => Some(End::Usage),
        "system" => Some(End::System),
        "input" => Some(End::Input),
        "recorder" => Some(End::Recorder),
        "over" => Some(End::Over),
        _ => None,
    }
}

fn refused(alloc: Global, case: &Value) -> anyhow::Result<End> {
    let id = given::number(case, "id")?;
    let recordings = given::number(case, "recordings")?;
    let rule = given::number(case, "rule")?;
    let app = given::owned(alloc, case, "app")?;
    let leader = given::owned(alloc, case, "leader")?;
    let code = given::owned(alloc, case, "code")?;
    Ok(End::Refused {
        app,
        leader,
        id,
        recordings,
        code,
        rule,
    })
}

fn ok(alloc: Global, case: &Value) -> anyhow::Result<End> {
    let lines = given::number(case, "lines")?;
    let added = counts(alloc, given::member(case, "added")?)?;
    Ok(End::Ok { added, lines })
}

fn declaration(alloc: Global, case: &Value) -> anyhow::Result<End> {
    let code = code(given::text(case, "code")?).context("no such code")?;
    let path = given::owned(alloc, case, "path")?;
    Ok(End::Declaration { code, path })
}

fn turns(alloc: Global, case: &Value) -> anyhow::Result<End> {
    let turns = given::number(case, "turns")?;
    let app = given::owned(alloc, case, "app")?;
    Ok(End::Turns { app, turns })
}

fn ahead(alloc: Global, case: &Value) -> anyhow::Result<End> {
    let tracked = given::number(case, "tracked")?;
    let last = given::number(case, "last")?;
    let app = given::owned(alloc, case, "app")?;
    let leader = given::owned(alloc, case, "leader")?;
    Ok(End::Ahead {
        app,
        leader,
        tracked,
        last,
    })
}

fn unreadable(alloc: Global, case: &Value) -> anyhow::Result<End> {
    let id = given::number(case, "id")?;
    let app = given::owned(alloc, case, "app")?;
    Ok(End::Unreadable { app, id })
}

fn full(alloc: Global, case: &Value) -> anyhow::Result<End> {
    let last = given::number(case, "last")?;
    let capacity = given::number(case, "capacity")?;
    let app = given::owned(alloc, case, "app")?;
    Ok(End::Full {
        app,
        last,
        capacity,
    })
}

// An end by its name, with its members.
fn end(alloc: Global, name: &str, case: &Value) -> anyhow::Result<End> {
    match name {
        "ok" => ok(alloc, case),
        "declaration" => declaration(alloc, case),
        "refused" => refused(alloc, case),
        "turns" => turns(alloc, case),
        "ahead" => ahead(alloc, case),
        "unreadable" => unreadable(alloc, case),
        "full" => full(alloc, case),
        _ => bare_end(name).context("no such end"),
    }
}

// The line of an end that takes no memory, none of another.
fn fixed_line(alloc: Global, end: &End) -> anyhow::Result<Value> {
    match fixed_end_line(end) {
        Some(line) => told::bytes(alloc, line),
        None => Ok(Value::Null),
    }
}

// The text of the reply of a name.
fn of_reply(alloc: Global, name: &str, case: &Value) -> anyhow::Result<Value> {
    let reply = reply(alloc, name, case)?;
    let text = reply_text(alloc, &reply)?;
    told::bytes(alloc, text.as_slice())
}

// The text of an end line.
fn of_end(alloc: Global, end: &End) -> anyhow::Result<Value> {
    let text = end_text(alloc, end)?;
    told::bytes(alloc, text.as_slice())
}

// The line of an end, or the one that takes no memory.
fn line_of(alloc: Global, end: &End, case: &Value) -> anyhow::Result<Value> {
    if case.get("fixed").is_some() {
        fixed_line(alloc, end)
    } else {
        of_end(alloc, end)
    }
}

/// The answer of a case.
pub(crate) fn answer(alloc: Global, case: &Value) -> anyhow::Result<Value> {
    if let Some(name) = case.get("reply").and_then(Value::as_str) {
        of_reply(alloc, name, case)
    } else {
        let end = end(alloc, given::text(case, "end")?, case)?;
        line_of(alloc, &end, case)
    }
}
