//! The texts of aggregates.
ghost use Rattle.std.specs.Prelude.{◌≡◌, IfOk};
ghost use Rattle.es_transcode.specs.MomentText.{moment_text};
ghost use Rattle.es_lines.specs.declared.replies.Reply.TheVariants as replies;
ghost use Rattle.es_lines.specs.Texts as spec;

use crate::objects::{begun, ended, put_number, put_text};
use es_model::{Atom, Bytes, Fields, Moment, NoMemory, Text};
use es_transcode::{DatetimeAsIso, Transcoding, id_text, write_record};
use std::alloc::Global;
use uuid::Uuid;

fn iso_text(alloc: Global, moment: Moment) -> Result<Text, NoMemory>
    ensures { IfOk result (λ text. text ≡ moment_text moment) }
{
    DatetimeAsIso.encode(alloc, &Atom::Moment(moment))
}

/// The text of an aggregate at a version.
pub(crate) fn got_text(
    alloc: Global,
    id: &Uuid,
    version: u64,
    class: &Text,
    created_on: Moment,
    modified_on: Moment,
    fields: &Fields,
) -> Result<Bytes, NoMemory>
    ensures { IfOk result (λ text. text ≡ spec.reply_text (replies.Got id.now version class.now created_on modified_on fields.now)) }
{
    let created = iso_text(alloc, created_on)?;
    let modified = iso_text(alloc, modified_on)?;
    let id = id_text(alloc, id)?;
    let mut out = begun(alloc)?;
    put_text(&mut out, "class", class.as_str())?;
    put_text(&mut out, "created_on", created.as_str())?;
    out.key("fields")?;
    write_record(&mut out, alloc, fields)?;
    put_text(&mut out, "id", id.as_str())?;
    put_text(&mut out, "modified_on", modified.as_str())?;
    put_text(&mut out, "ok", "get")?;
    put_number(&mut out, "version", version)?;
    ended(out)
}
