ghost use Rattle.std.specs.Prelude.{◌≡◌, ◌≤◌, ◌≤ℤ◌, pos, IfOk, IfSome, FitsSigned, codes, option_and_then};
ghost use Rattle.std.specs.Int.{w64};
ghost use Rattle.serde_json.specs.View.{view};
ghost use Rattle.es_model.specs.declared.declaration.Code.TheVariants.{Limit};
ghost use Rattle.es_decl.specs.Kinds as kinds;
ghost use Rattle.es_decl.specs.Paths.{member_step};
ghost use Rattle.es_decl.specs.Readings.{Reads, under};
ghost use Rattle.es_decl.specs.Readings as readings;
ghost use Rattle.es_decl.specs.Expressions as spec;
ghost use Rattle.es_decl.specs.inner.Atoms as atoms;
ghost use Rattle.es_transcode.specs.Spelled as spelled;

use crate::DeclFault;
use crate::fault::{here, in_member};
use crate::kinds::atom_kind;
use es_model::limits::MOST_TEXT_BYTES;
use es_model::{Atom, AtomKind, Code, Decimal, Expr, Moment, NoMemory, Text};
use es_transcode::{DatetimeAsIso, DecimalAsStr, Transcoding, id_of};
use serde_json::Value;
use std::alloc::Global;
use uuid::Uuid;

fn bool_literal(alloc: Global, body: &Value) -> Result<Expr, DeclFault>
    ensures { Reads (spec.bool_literal (view body.now)) result }
{
    match body {
        Value::Bool(truth) => Ok(Expr::Bool(*truth)),
        _ => here(alloc, Code::Form),
    }
}

fn int_literal(alloc: Global, body: &Value) -> Result<Expr, DeclFault>
    ensures { Reads (spec.int_literal (view body.now)) result }
{
    match body {
        Value::Number(number) => match number.as_i64() {
            Some(number) => Ok(Expr::Int(number)),
            None => here(alloc, Code::Form),
        },
        _ => here(alloc, Code::Form),
    }
}

fn long_text(alloc: Global) -> Result<Expr, DeclFault>
    ensures { Reads (under (member_step (codes "text")) (readings.here Limit)) result }
{
    in_member(alloc, "text", here(alloc, Code::Limit))
}

fn text_literal(alloc: Global, body: &Value) -> Result<Expr, DeclFault>
    ensures { Reads (spec.text_literal (view body.now)) result }
{
    match body {
        Value::String(text) => {
            if text.as_str().len() > MOST_TEXT_BYTES {
                long_text(alloc)
            } else {
                Ok(Expr::Text(Text::from_str(alloc, text.as_str())?))
            }
        }
        _ => here(alloc, Code::Form),
    }
}

fn uuid_in(text: &str) -> Option<Uuid>
    ensures { result ≡ spec.id_in text.now }
{
    id_of(text)
}

fn uuid_literal(alloc: Global, body: &Value) -> Result<Expr, DeclFault>
    ensures { Reads (spec.uuid_literal (view body.now)) result }
{
    match body {
        Value::String(text) => match uuid_in(text.as_str()) {
            Some(id) => Ok(Expr::Uuid(id)),
            None => here(alloc, Code::Form),
        },
        _ => here(alloc, Code::Form),
    }
}

fn moment_of(atom: &Option<Atom>) -> Option<Moment>
    ensures moment { result ≡ option_and_then atoms.moment_of atom.now }
    ensures range { IfSome result (λ m. (pos 0 ≤ℤ m) × (m ≤ℤ pos 253402300799999999)) }
{
    match atom {
        Some(Atom::Moment(moment)) => Moment::new(moment.micros()),
        _ => None,
    }
}

// The moment that a text spells.
fn moment_in(alloc: Global, text: &str) -> Result<Option<Moment>, NoMemory>
    ensures { IfOk result (λ o. o ≡ spelled.moment_in text.now) }
{
    let text = Text::from_str(alloc, text)?;
    let atom = DatetimeAsIso.decode(alloc, &text)?;
    Ok(moment_of(&atom))
}

fn moment_literal(alloc: Global, body: &Value) -> Result<Expr, DeclFault>
    ensures { Reads (spec.moment_literal (view body.now)) result }
{
    match body {
        Value::String(text) => match moment_in(alloc, text.as_str())? {
            Some(moment) => Ok(Expr::Moment(moment)),
            None => here(alloc, Code::Form),
        },
        _ => here(alloc, Code::Form),
    }
}

fn decimal_of(atom: &Option<Atom>) -> Option<Decimal>
    ensures decimal { result ≡ option_and_then atoms.decimal_of atom.now }
    ensures range { IfSome result (λ d. FitsSigned w64 d.digits × (d.scale ≤ 6)) }
{
    match atom {
        Some(Atom::Decimal(decimal)) => Decimal::new(decimal.digits(), decimal.scale()),
        _ => None,
    }
}

// The decimal that a text spells.
fn decimal_in(alloc: Global, text: &str) -> Result<Option<Decimal>, NoMemory>
    ensures { IfOk result (λ o. o ≡ spelled.decimal_in text.now) }
{
    let text = Text::from_str(alloc, text)?;
    let atom = DecimalAsStr.decode(alloc, &text)?;
    Ok(decimal_of(&atom))
}

fn decimal_literal(alloc: Global, body: &Value) -> Result<Expr, DeclFault>
    ensures { Reads (spec.decimal_literal (view body.now)) result }
{
    match body {
        Value::String(text) => match decimal_in(alloc, text.as_str())? {
            Some(decimal) => Ok(Expr::Decimal(decimal)),
            None => here(alloc, Code::Form),
        },
        _ => here(alloc, Code::Form),
    }
}

fn empty_kind(alloc: Global, body: &Value) -> Result<AtomKind, DeclFault>
    ensures { Reads (under (member_step (codes "none")) (kinds.atom_kind (view body.now))) result }
{
    in_member(alloc, "none", atom_kind(alloc, body))
}

fn empty_literal(alloc: Global, body: &Value) -> Result<Expr, DeclFault>
    ensures { Reads (spec.empty_literal (view body.now)) result }
{
    let kind = empty_kind(alloc, body)?;
    Ok(Expr::None(kind))
}

fn get_literal(alloc: Global, body: &Value) -> Result<Expr, DeclFault>
    ensures { Reads (spec.get_literal (view body.now)) result }
{
    match body {
        Value::String(name) => Ok(Expr::Get(Text::from_str(alloc, name.as_str())?)),
        _ => here(alloc, Code::Form),
    }
}

/// A literal, an empty list, or a name.
pub(crate) fn literal(alloc: Global, word: &str, body: &Value) -> Result<Expr, DeclFault>
    ensures { Reads (spec.literal word.now (view body.now)) result }
{
    match word {
        "bool" => bool_literal(alloc, body),
        "int" => int_literal(alloc, body),
        "text" => text_literal(alloc, body),
        "uuid" => uuid_literal(alloc, body),
        "moment" => moment_literal(alloc, body),
        "decimal" => decimal_literal(alloc, body),
        "none" => empty_literal(alloc, body),
        "get" => get_literal(alloc, body),
        _ => here(alloc, Code::Form),
    }
}
