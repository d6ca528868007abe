//! The texts of a notification log's sections.
ghost use Rattle.std.specs.Prelude.{◌≡◌, ◌++◌, IfOk, OnOk, codes, decimal, string_bytes};
ghost use Rattle.json.specs.Tree.{json_tokens, items_tokens};
ghost use Rattle.serde_json.specs.Written.{outline, items_outline};
ghost use Rattle.es_transcode.specs.Written.{Adds};
ghost use Rattle.es_lines.specs.declared.replies.Reply.TheVariants as replies;
ghost use Rattle.es_lines.specs.inner.Objects.{text_tokens};
ghost use Rattle.es_lines.specs.Texts as spec;

use crate::objects::{begun, ended, put_number, put_text};
use es_model::{Bytes, NoMemory, Notification, Notifications};
use es_transcode::id_text;
use json::Writer;
use std::alloc::Global;

fn span_text(alloc: Global, first: u64, last: u64) -> Result<String, NoMemory>
    ensures { IfOk result (λ s. string_bytes s ≡ decimal first ++ codes "," ++ decimal last) }
{
    Ok(format!(in alloc; "{first},{last}")?)
}

fn write_span(out: &mut Writer, alloc: Global, span: Option<(u64, u64)>) -> Result<(), NoMemory>
    ensures { OnOk result (Adds out.old out.new (json_tokens (outline (spec.span_tree span)))) }
{
    match span {
        Some((first, last)) => {
            let text = span_text(alloc, first, last)?;
            Ok(out.string(text.as_str())?)
        }
        None => Ok(out.null()?),
    }
}

// A state as it is, or its bytes in hexadecimal digits where it is no UTF-8.
fn put_state(out: &mut Writer, alloc: Global, bytes: &[u8]) -> Result<(), NoMemory>
    ensures { OnOk result (Adds out.old out.new (text_tokens (spec.state_name bytes.now) (spec.state_text bytes.now))) }
{
    match str::from_utf8(bytes) {
        Ok(text) => Ok(put_text(out, "state", text)?),
        Err(_) => {
            let digits = hex::encode(alloc, bytes)?;
            Ok(put_text(out, "state_hex", digits.as_str())?)
        }
    }
}

fn write_entry(out: &mut Writer, alloc: Global, entry: &Notification) -> Result<(), NoMemory>
    ensures { OnOk result (Adds out.old out.new (json_tokens (outline (spec.entry_tree entry.now)))) }
{
    let event = &entry.event;
    let id = id_text(alloc, &event.originator_id)?;
    out.begin_object()?;
    put_number(out, "id", entry.id)?;
    put_text(out, "originator_id", id.as_str())?;
    put_number(out, "originator_version", event.originator_version)?;
    put_state(out, alloc, event.state.as_slice())?;
    put_text(out, "topic", event.topic.as_str())?;
    Ok(out.end_object()?)
}

// The items of an array, and its end.
fn write_entries(out: &mut Writer, alloc: Global, entries: &[Notification]) -> Result<(), NoMemory>
    ensures { OnOk result (Adds out.old out.new (items_tokens (items_outline (spec.entry_trees entries.now)))) }
{
    for entry in entries {
        write_entry(out, alloc, entry)?;
    }
    Ok(out.end_array()?)
}

/// The text of a section: its ids, its notifications, and the ids of the section after it.
pub(crate) fn log_text(
    alloc: Global,
    id: Option<(u64, u64)>,
    items: &Notifications,
    next: Option<(u64, u64)>,
) -> Result<Bytes, NoMemory>
    ensures { IfOk result (λ text. text ≡ spec.reply_text (replies.Log id items.now next)) }
{
    let mut out = begun(alloc)?;
    out.key("id")?;
    write_span(&mut out, alloc, id)?;
    out.key("items")?;
    out.begin_array()?;
    write_entries(&mut out, alloc, items.as_slice())?;
    out.key("next")?;
    write_span(&mut out, alloc, next)?;
    put_text(&mut out, "ok", "log")?;
    ended(out)
}
