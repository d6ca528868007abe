ghost use Rattle.std.specs.Prelude.{◌≡◌, IfOk, OnOk, Some};
ghost use Rattle.json.specs.Tree.{json_tokens, items_tokens, members_tokens};
ghost use Rattle.serde_json.specs.Read.{of_json};
ghost use Rattle.serde_json.specs.Written.{outline, items_outline, members_outline};
ghost use Rattle.es_transcode.specs.CanonicalText.{atom_tree, item_trees, value_tree, member_trees, record_tree, record_text};
ghost use Rattle.es_transcode.specs.RecordText.{tagged, IsAtomTree, AreAtomTrees, IsValueTree, AreMembers, IsRecordTree, IsRecordText};
ghost use Rattle.es_transcode.specs.Written.{Adds};

use crate::transcoding::{DatetimeAsIso, DecimalAsStr, Transcoding, UuidAsHex};
use es_model::{Atom, Bytes, Fields, NoMemory, Text, Value};
use json::Writer;
use std::alloc::{AllocError, Global};

// A text beside the word of its kind.
fn write_tagged(out: &mut Writer, word: &str, text: &str) -> Result<(), AllocError>
    ensures { OnOk result (Adds out.old out.new (json_tokens (outline (tagged word.now text.now)))) }
{
    out.begin_object()?;
    out.key("_data_")?;
    out.string(text)?;
    out.key("_type_")?;
    out.string(word)?;
    out.end_object()
}

fn write_atom(out: &mut Writer, alloc: Global, atom: &Atom) -> Result<(), NoMemory>
    ensures tokens { OnOk result (Adds out.old out.new (json_tokens (outline (atom_tree atom.now)))) }
    ensures tree { OnOk result (IsAtomTree atom.now (atom_tree atom.now)) }
{
    match atom {
        Atom::Null => Ok(out.null()?),
        Atom::Bool(truth) => Ok(out.boolean(*truth)?),
        Atom::Int(number) => Ok(out.i64(*number)?),
        Atom::Text(text) => Ok(out.string(text.as_str())?),
        Atom::Uuid(_) => {
            let text = UuidAsHex.encode(alloc, atom)?;
            Ok(write_tagged(out, "uuid_hex", text.as_str())?)
        }
        Atom::Moment(_) => {
            let text = DatetimeAsIso.encode(alloc, atom)?;
            Ok(write_tagged(out, "datetime_iso", text.as_str())?)
        }
        Atom::Decimal(_) => {
            let text = DecimalAsStr.encode(alloc, atom)?;
            Ok(write_tagged(out, "decimal_str", text.as_str())?)
        }
    }
}

// The items of an array, and its end.
fn write_atoms(out: &mut Writer, alloc: Global, atoms: &[Atom]) -> Result<(), NoMemory>
    ensures tokens { OnOk result (Adds out.old out.new (items_tokens (items_outline (item_trees atoms.now)))) }
    ensures trees { OnOk result (AreAtomTrees atoms.now (item_trees atoms.now)) }
{
    for atom in atoms {
        write_atom(out, alloc, atom)?;
    }
    Ok(out.end_array()?)
}

fn write_value(out: &mut Writer, alloc: Global, value: &Value) -> Result<(), NoMemory>
    ensures tokens { OnOk result (Adds out.old out.new (json_tokens (outline (value_tree value.now)))) }
    ensures tree { OnOk result (IsValueTree value.now (value_tree value.now)) }
{
    match value {
        Value::One(atom) => write_atom(out, alloc, atom),
        Value::List(atoms) => {
            out.begin_array()?;
            write_atoms(out, alloc, atoms.as_slice())
        }
    }
}

// The members of an object, and its end.
fn write_members(out: &mut Writer, alloc: Global, fields: &[(Text, Value)]) -> Result<(), NoMemory>
    ensures tokens { OnOk result (Adds out.old out.new (members_tokens (members_outline (member_trees fields.now)))) }
    ensures trees { OnOk result (AreMembers fields.now (member_trees fields.now)) }
{
    for (name, value) in fields {
        out.key(name.as_str())?;
        write_value(out, alloc, value)?;
    }
    Ok(out.end_object()?)
}

/// Writes a record: the tokens of its tree, which is read back as it is.
pub fn write_record(out: &mut Writer, alloc: Global, fields: &Fields) -> Result<(), NoMemory>
    ensures tokens { OnOk result (Adds out.old out.new (json_tokens (outline (record_tree fields.now)))) }
    ensures tree { OnOk result (IsRecordTree fields.now (record_tree fields.now)) }
    ensures reads_back { OnOk result (of_json (outline (record_tree fields.now)) ≡ Some (record_tree fields.now)) }
{
    out.begin_object()?;
    write_members(out, alloc, fields.as_slice())
}

/// The canonical text of a record.
pub fn encode_record(alloc: Global, fields: &Fields) -> Result<Bytes, NoMemory>
    ensures record { IfOk result (IsRecordText fields.now) }
    ensures text { IfOk result (λ t. t ≡ record_text fields.now) }
{
    let mut out = Writer::new(Vec::with_capacity(alloc, 128)?);
    write_record(&mut out, alloc, fields)?;
    Ok(Bytes::from_vec(out.into_inner()))
}
