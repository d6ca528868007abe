ghost use Rattle.std.specs.Prelude.{◌≡◌};
ghost use Rattle.serde_json.specs.View.{view};
ghost use Rattle.es_decl.specs.Readings.{Reads};
ghost use Rattle.es_decl.specs.Kinds as spec;

use crate::DeclFault;
use crate::fault::here;
use crate::parts::Part;
use es_model::{AtomKind, Code, Kind};
use serde_json::Value;
use std::alloc::Global;

fn atom_kind_named(word: &str) -> Option<AtomKind>
    ensures { result ≡ spec.atom_kind_named word.now }
{
    match word {
        "bool" => Some(AtomKind::Bool),
        "int" => Some(AtomKind::Int),
        "text" => Some(AtomKind::Text),
        "uuid" => Some(AtomKind::Uuid),
        "moment" => Some(AtomKind::Moment),
        "decimal" => Some(AtomKind::Decimal),
        _ => None,
    }
}

fn item_kind_named(word: &str) -> Option<AtomKind>
    ensures { result ≡ spec.item_kind_named word.now }
{
    match word {
        "list:bool" => Some(AtomKind::Bool),
        "list:int" => Some(AtomKind::Int),
        "list:text" => Some(AtomKind::Text),
        "list:uuid" => Some(AtomKind::Uuid),
        "list:moment" => Some(AtomKind::Moment),
        "list:decimal" => Some(AtomKind::Decimal),
        _ => None,
    }
}

fn kind_named(word: &str) -> Option<Kind>
    ensures { result ≡ spec.kind_named word.now }
{
    match atom_kind_named(word) {
        Some(kind) => Some(Kind::One(kind)),
        None => match item_kind_named(word) {
            Some(kind) => Some(Kind::List(kind)),
            None => None,
        },
    }
}

/// The kind of an atom.
pub(crate) fn atom_kind(alloc: Global, tree: &Value) -> Result<AtomKind, DeclFault>
    ensures { Reads (spec.atom_kind (view tree.now)) result }
{
    match tree {
        Value::String(word) => match atom_kind_named(word.as_str()) {
            Some(kind) => Ok(kind),
            None => here(alloc, Code::Form),
        },
        _ => here(alloc, Code::Form),
    }
}

/// A kind.
#[derive(Drop)]
pub(crate) struct KindWord;

impl Part for KindWord {
    type Read = Kind;

    ghost meaning = { λ _. spec.kind };

    fn read(&self, alloc: Global, tree: &Value) -> Result<Kind, DeclFault> {
        match tree {
            Value::String(word) => match kind_named(word.as_str()) {
                Some(kind) => Ok(kind),
                None => here(alloc, Code::Form),
            },
            _ => here(alloc, Code::Form),
        }
    }
}
