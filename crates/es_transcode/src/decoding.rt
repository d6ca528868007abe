ghost use Rattle.std.specs.Prelude.{◌≡◌, ◌≢◌, IfOk, IfErr, IfSome, IfNone, option_map, Some, List, ℕ};
ghost use Rattle.serde_json.specs.Data.{string, object};
ghost use Rattle.serde_json.specs.View.{view, items_view, members_view};
ghost use Rattle.es_model.specs.Values.{Record};
ghost use Rattle.es_transcode.specs.declared.fault.DecodeFault.TheVariants as faults;
ghost use Rattle.es_transcode.specs.Texts.{kind_of, HasText};
ghost use Rattle.es_transcode.specs.RecordText.{IsAtomTree, AreAtomTrees, IsValueTree, AreMembers, IsRecordTree};
ghost use Rattle.es_transcode.specs.inner.Pairs.{AreTwo, IsPairOrNone};
ghost use Rattle.es_transcode.specs.Decoding.{kind_named, IsTextOfKind, IsTagFault, IsAtomFault, IsItemsFault, IsValueFault, IsMembersFault, IsRecordFault, IsDecoded, Decodes};

use crate::tree::read_tree;
use crate::{DecodeFault, datetime, decimal, hex};
use es_model::{Atom, AtomKind, Atoms, Fields, List, NoMemory, Text, Value};
use serde_json::Value as Tree;
use std::alloc::Global;
use std::collections::BTreeMap;

fn named_kind(word: &str) -> Option<AtomKind>
    ensures { result ≡ kind_named word.now }
{
    match word {
        "uuid_hex" => Some(AtomKind::Uuid),
        "datetime_iso" => Some(AtomKind::Moment),
        "decimal_str" => Some(AtomKind::Decimal),
        _ => None,
    }
}

fn two_members(members: &BTreeMap<String, Tree>) -> Option<((&str, &Tree), (&str, &Tree))>
    ensures { AreTwo (option_map (λ p. ((p.0.0.now, view p.0.1.now), (p.1.0.now, view p.1.1.now))) result) (members_view members.now.entries) }
{
    if members.len() != 2 {
        return None;
    }
    let mut entries = members.iter();
    match entries.next() {
        Some((first, data)) => match entries.next() {
            Some((second, word)) => Some(((first.as_str(), data), (second.as_str(), word))),
            None => None,
        },
        None => None,
    }
}

// What stands for an atom: its data and the word of its kind.
fn tagged(members: &BTreeMap<String, Tree>) -> Option<(&Tree, &str)>
    ensures { IsPairOrNone (option_map (λ p. (view p.0.now, p.1.now)) result) (members_view members.now.entries) }
{
    match two_members(members) {
        Some((("_data_", data), ("_type_", Tree::String(word)))) => Some((data, word.as_str())),
        _ => None,
    }
}

// The atom of a kind that has a text.
fn atom_with(alloc: Global, kind: AtomKind, text: &str) -> Result<Option<Atom>, NoMemory>
    ensures text { IfOk result (λ o. IfSome o (λ a. (kind_of a ≡ Some kind) × HasText a text.now)) }
    ensures none { IfOk result (λ o. IfNone o (¬ IsTextOfKind kind (string text.now))) }
{
    match kind {
        AtomKind::Uuid => match hex::id_in(text) {
            Some(id) => Ok(Some(Atom::Uuid(id))),
            None => Ok(None),
        },
        AtomKind::Moment => match datetime::moment_in(alloc, text)? {
            Some(moment) => Ok(Some(Atom::Moment(moment))),
            None => Ok(None),
        },
        AtomKind::Decimal => match decimal::decimal_of(alloc, text)? {
            Some(decimal) => Ok(Some(Atom::Decimal(decimal))),
            None => Ok(None),
        },
        _ => Ok(None),
    }
}

fn tagged_atom(alloc: Global, members: &BTreeMap<String, Tree>) -> Result<Atom, DecodeFault>
    ensures { Decodes (λ a. IsAtomTree a (object (members_view members.now.entries))) (IsTagFault (members_view members.now.entries)) result }
{
    let Some((data, word)) = tagged(members) else {
        return Err(DecodeFault::Shape);
    };
    let Some(kind) = named_kind(word) else {
        return Err(DecodeFault::UnknownType);
    };
    match data {
        Tree::String(text) => match atom_with(alloc, kind, text.as_str())? {
            Some(atom) => Ok(atom),
            None => Err(DecodeFault::BadData),
        },
        _ => Err(DecodeFault::BadData),
    }
}

fn atom_of(alloc: Global, tree: &Tree) -> Result<Atom, DecodeFault>
    ensures { Decodes (λ a. IsAtomTree a (view tree.now)) (IsAtomFault (view tree.now)) result }
{
    match tree {
        Tree::Null => Ok(Atom::Null),
        Tree::Bool(truth) => Ok(Atom::Bool(*truth)),
        Tree::Number(number) => match number.as_i64() {
            Some(number) => Ok(Atom::Int(number)),
            None => Err(DecodeFault::Number),
        },
        Tree::String(text) => Ok(Atom::Text(Text::from_str(alloc, text.as_str())?)),
        Tree::Array(_) => Err(DecodeFault::Deep),
        Tree::Object(members) => tagged_atom(alloc, members),
    }
}

fn atoms_of(alloc: Global, trees: &[Tree]) -> Result<Atoms, DecodeFault>
    ensures { Decodes (λ items. AreAtomTrees items (items_view trees.now)) (IsItemsFault (items_view trees.now)) result }
{
    let mut atoms = List::new(alloc);
    for tree in trees {
        match atom_of(alloc, tree) {
            Ok(atom) => atoms.push(atom)?,
            Err(fault) => return Err(fault),
        }
    }
    Ok(atoms)
}

fn value_of(alloc: Global, tree: &Tree) -> Result<Value, DecodeFault>
    ensures { Decodes (λ v. IsValueTree v (view tree.now)) (IsValueFault (view tree.now)) result }
{
    match tree {
        Tree::Array(trees) => Ok(Value::List(atoms_of(alloc, trees.as_slice())?)),
        _ => Ok(Value::One(atom_of(alloc, tree)?)),
    }
}

fn fields_of(alloc: Global, members: &BTreeMap<String, Tree>) -> Result<Fields, DecodeFault>
    ensures { Decodes (λ r. AreMembers r (members_view members.now.entries)) (IsMembersFault (members_view members.now.entries)) result }
{
    let mut fields = Fields::new(alloc);
    for (name, tree) in members.iter() {
        match value_of(alloc, tree) {
            Ok(value) => fields.push((Text::from_str(alloc, name.as_str())?, value))?,
            Err(fault) => return Err(fault),
        }
    }
    Ok(fields)
}

/// The record of a tree.
pub fn decode_tree(alloc: Global, tree: &Tree) -> Result<Fields, DecodeFault>
    ensures { Decodes (λ r. IsRecordTree r (view tree.now)) (IsRecordFault (view tree.now)) result }
{
    match tree {
        Tree::Object(members) => fields_of(alloc, members),
        _ => Err(DecodeFault::NotRecord),
    }
}

/// The record of a text.
pub fn decode_record(alloc: Global, bytes: &[u8]) -> Result<Fields, DecodeFault>
    ensures decoded { IsDecoded bytes.now result }
    ensures one { IfOk result (λ r. (s : Record) → IsDecoded bytes.now (Ok s) → r ≡ s) }
    ensures none { IfErr result (λ f. f ≢ faults.NoMemory → (r : Record) → ¬ IsDecoded bytes.now (Ok r)) }
{
    match read_tree(alloc, bytes)? {
        Some(tree) => decode_tree(alloc, &tree),
        None => Err(DecodeFault::NotJson),
    }
}
