ghost use Rattle.std.specs.Prelude.{◌≡◌, IfOk, OnOk, Some};
ghost use Rattle.uuid.specs.Text.{simple_text, lower, parsed};
ghost use Rattle.json.specs.Tree.{json_tokens};
ghost use Rattle.serde_json.specs.Read.{of_json};
ghost use Rattle.serde_json.specs.Written.{outline};
ghost use Rattle.es_model.specs.declared.declaration.System.{System};
ghost use Rattle.es_transcode.specs.CanonicalText.{record_tree};
ghost use Rattle.es_transcode.specs.RecordText.{IsRecordTree};
ghost use Rattle.es_transcode.specs.Written.{Adds};
ghost use Rattle.es_lines.specs.CommandText.{command_tree, CanBeAsked};
ghost use Rattle.es_lines.specs.CommandText as spec;
ghost use Rattle.es_lines.specs.inner.Parts.{expected_tokens};
ghost use Rattle.es_lines.specs.Requests.{request_in, asks};
ghost use Rattle.es_lines.specs.declared.request.Request.TheVariants as requests;

use crate::objects::{put_number, put_text};
use es_domain::Command;
use es_model::names::topic_of;
use es_model::{Bytes, NoMemory, Text};
use es_transcode::{id_text, write_record};
use json::Writer;
use std::alloc::{AllocError, Global};

// Adds the version that is expected, if there is one.
fn put_expected(out: &mut Writer, expect: Option<u64>) -> Result<(), AllocError>
    ensures { OnOk result (Adds out.old out.new (expected_tokens expect)) }
{
    if let Some(version) = expect {
        put_number(out, "expect", version)?;
    }
    Ok(())
}

// Writes a command, whose arguments and id are read back as they are.
fn write_command(
    out: &mut Writer,
    alloc: Global,
    app: &Text,
    command: &Command,
) -> Result<(), NoMemory>
    ensures tokens { OnOk result (Adds out.old out.new (json_tokens (outline (command_tree app.now command.now)))) }
    ensures args { OnOk result (IsRecordTree command.now.args (record_tree command.now.args)) }
    ensures args_read { OnOk result (of_json (outline (record_tree command.now.args)) ≡ Some (record_tree command.now.args)) }
    ensures id { OnOk result (parsed (simple_text lower command.now.id) ≡ Some command.now.id) }
{
    let name = topic_of(alloc, command.class.as_str(), command.name.as_str())?;
    let id = id_text(alloc, &command.id)?;
    out.begin_object()?;
    put_text(out, "app", app.as_str())?;
    out.key("args")?;
    write_record(out, alloc, &command.args)?;
    put_text(out, "do", name.as_str())?;
    put_expected(out, command.expect)?;
    put_text(out, "id", id.as_str())?;
    Ok(out.end_object()?)
}

/// The canonical text of a command of an application, which a recording keeps as its cause.
pub fn command_text(alloc: Global, app: &Text, command: &Command) -> Result<Bytes, NoMemory>
    ensures text { IfOk result (λ t. t ≡ spec.command_text app.now command.now) }
    ensures reads_back { IfOk result (λ t. (sys : System) → CanBeAsked sys app.now command.now → request_in sys t ≡ asks (requests.Do app.now command.now)) }
{
    let mut out = Writer::new(Vec::with_capacity(alloc, 192)?);
    write_command(&mut out, alloc, app, command)?;
    Ok(Bytes::from_vec(out.into_inner()))
}
