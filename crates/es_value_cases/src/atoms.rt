//! Cases of atoms: the text of a moment, a decimal or an id, and what is read from a text.

use anyhow::Context;
use es_model::{Atom, AtomKind, Decimal, Moment, Text};
use es_suite::given;
use es_suite::told::{self, Members};
use es_transcode::{DatetimeAsIso, DecimalAsStr, Transcoding, UuidAsHex};
use serde_json::Value;
use std::alloc::Global;
use uuid::Uuid;

// The text of a moment, where there is one at so many microseconds.
fn moment(alloc: Global, micros: i64) -> anyhow::Result<Value> {
    match Moment::new(micros) {
        Some(moment) => {
            let text = DatetimeAsIso.encode(alloc, &Atom::Moment(moment))?;
            told::text(alloc, text.as_str())
        }
        None => Ok(Value::Null),
    }
}

// The text of a decimal, where there is one with such digits and places.
fn decimal(alloc: Global, digits: i64, scale: u8) -> anyhow::Result<Value> {
    match Decimal::new(digits, scale) {
        Some(decimal) => {
            let text = DecimalAsStr.encode(alloc, &Atom::Decimal(decimal))?;
            told::text(alloc, text.as_str())
        }
        None => Ok(Value::Null),
    }
}

// The text of an id.
fn id(alloc: Global, id: Uuid) -> anyhow::Result<Value> {
    let text = UuidAsHex.encode(alloc, &Atom::Uuid(id))?;
    told::text(alloc, text.as_str())
}

// The number of an atom, or its digits and places, or its id.
fn told_of(alloc: Global, atom: &Atom) -> anyhow::Result<Value> {
    match atom {
        Atom::Moment(moment) => Ok(Value::from(moment.micros())),
        Atom::Decimal(decimal) => {
            let mut told = Members::new(alloc);
            told.put("digits", decimal.digits());
            told.put("scale", decimal.scale());
            told.end()
        }
        Atom::Uuid(id) => told::id(alloc, *id),
        _ => Err(anyhow::anyhow!("an atom of another kind")),
    }
}

// What a transcoding reads from a text, if it is an atom's.
fn decoded<T: Transcoding>(alloc: Global, transcoding: &T, text: &Text) -> anyhow::Result<Value> {
    match transcoding.decode(alloc, text)? {
        Some(atom) => told_of(alloc, &atom),
        None => Ok(Value::Null),
    }
}

// What is read from a text by the transcoding of a kind.
fn read(alloc: Global, kind: &str, text: &Text) -> anyhow::Result<Value> {
    match kind {
        "moment" => decoded(alloc, &DatetimeAsIso, text),
        "decimal" => decoded(alloc, &DecimalAsStr, text),
        "uuid" => decoded(alloc, &UuidAsHex, text),
        _ => Err(anyhow::anyhow!("no such kind")),
    }
}

// The word of a kind of atoms.
fn word(kind: AtomKind) -> &'static str {
    match kind {
        AtomKind::Bool => "bool",
        AtomKind::Int => "int",
        AtomKind::Text => "text",
        AtomKind::Uuid => "uuid",
        AtomKind::Moment => "moment",
        AtomKind::Decimal => "decimal",
    }
}

// The kind of a transcoding under its name.
fn put_transcoding<T: Transcoding>(told: &mut Members, transcoding: &T) {
    if let Ok(name) = str::from_utf8(transcoding.name()) {
        told.put(name, word(transcoding.kind()));
    }
}

fn transcodings(alloc: Global) -> anyhow::Result<Value> {
    let mut told = Members::new(alloc);
    put_transcoding(&mut told, &DatetimeAsIso);
    put_transcoding(&mut told, &DecimalAsStr);
    put_transcoding(&mut told, &UuidAsHex);
    told.end()
}

// The text of a decimal with such digits.
fn of_digits(alloc: Global, case: &Value, digits: i64) -> anyhow::Result<Value> {
    let scale = u8::try_from(given::number(case, "scale")?).ok();
    decimal(alloc, digits, scale.context("no scale")?)
}

// What is read from the text of a case.
fn of_text(alloc: Global, case: &Value, kind: &str) -> anyhow::Result<Value> {
    let text = given::owned(alloc, case, "text")?;
    read(alloc, kind, &text)
}

/// The answer of a case.
pub(crate) fn answer(alloc: Global, case: &Value) -> anyhow::Result<Value> {
    if let Some(micros) = case.get("moment").and_then(Value::as_i64) {
        moment(alloc, micros)
    } else if let Some(digits) = case.get("digits").and_then(Value::as_i64) {
        of_digits(alloc, case, digits)
    } else if case.get("id").is_some() {
        id(alloc, given::id(case, "id")?)
    } else if let Some(micros) = case.get("nearest").and_then(Value::as_i64) {
        Ok(Value::from(Moment::nearest(micros).micros()))
    } else if let Some(kind) = case.get("read").and_then(Value::as_str) {
        of_text(alloc, case, kind)
    } else {
        transcodings(alloc)
    }
}
