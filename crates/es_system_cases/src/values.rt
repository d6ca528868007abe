//! Cases of values: which of them fit their kinds.

use anyhow::Context;
use es_expr::fit;
use es_model::{AtomKind, Fields, Kind, Kinds, Text, are_of_kinds, fits};
use es_suite::given;
use es_suite::told::{Items, Members};
use es_transcode::{encode_record, read_tree};
use serde_json::Value;
use std::alloc::Global;

// The kind of atoms that a word is for.
fn atom_kind(word: &str) -> Option<AtomKind> {
    match word {
        "bool" => Some(AtomKind::Bool),
        "int" => Some(AtomKind::Int),
        "text" => Some(AtomKind::Text),
        "uuid" => Some(AtomKind::Uuid),
        "moment" => Some(AtomKind::Moment),
        "decimal" => Some(AtomKind::Decimal),
        _ => None,
    }
}

// The kind of values that a word is for.
fn kind(word: &str) -> Option<Kind> {
    match word.strip_prefix("list:") {
        Some(word) => Some(Kind::List(atom_kind(word)?)),
        None => Some(Kind::One(atom_kind(word)?)),
    }
}

// Gives a name the kind of a word.
fn put_kind(alloc: Global, kinds: &mut Kinds, name: &str, word: &Value) -> anyhow::Result<()> {
    let word = word.as_str().context("no word of a kind")?;
    let kind = kind(word).context("no such kind")?;
    kinds.put(Text::from_str(alloc, name)?, kind)?;
    Ok(())
}

/// The kinds of names.
pub(crate) fn kinds(alloc: Global, tree: &Value) -> anyhow::Result<Kinds> {
    let mut kinds = Kinds::new(alloc);
    for (name, word) in tree.as_object().context("no kinds")?.iter() {
        put_kind(alloc, &mut kinds, name.as_str(), word)?;
    }
    Ok(kinds)
}

/// A record, as the tree that its text is read as.
pub(crate) fn record(alloc: Global, fields: &Fields) -> anyhow::Result<Value> {
    let text = encode_record(alloc, fields)?;
    match read_tree(alloc, text.as_slice())? {
        Some(tree) => Ok(tree),
        None => Err(anyhow::anyhow!("the text of a record is no JSON")),
    }
}

// Whether each value fits its kind, none where there is no value.
fn each(alloc: Global, fields: &Fields, kinds: &Kinds) -> Items {
    let mut answers = Items::new(alloc);
    for (name, kind) in kinds.as_slice() {
        match fields.get(name.as_str()) {
            Some(value) => answers.put(fits(value, kind)),
            None => answers.put(Value::Null),
        }
    }
    answers
}

// Which of some values fit, and whether they do together.
fn judged(alloc: Global, fields: &Fields, kinds: &Kinds) -> anyhow::Result<Value> {
    let mut told = Members::new(alloc);
    told.put("at_least", fit(fields, kinds));
    told.put("exactly", are_of_kinds(fields, kinds));
    told.put_items("each", each(alloc, fields, kinds));
    told.end()
}

/// The answer of a case.
pub(crate) fn answer(alloc: Global, case: &Value) -> anyhow::Result<Value> {
    let fields = given::fields(alloc, case, "fields")?;
    let kinds = kinds(alloc, given::member(case, "kinds")?)?;
    judged(alloc, &fields, &kinds)
}
