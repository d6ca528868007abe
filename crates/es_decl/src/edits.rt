ghost use Rattle.std.specs.Prelude.{codes};
ghost use Rattle.serde_json.specs.View.{view};
ghost use Rattle.es_decl.specs.Names.{name_test};
ghost use Rattle.es_decl.specs.Paths.{item_step, member_step};
ghost use Rattle.es_decl.specs.Readings.{Reads, under};
ghost use Rattle.es_decl.specs.Edits as spec;

use crate::DeclFault;
use crate::expressions::{only, pair};
use crate::fault::{here, in_item, in_member};
use crate::literals::literal;
use crate::names::test_name;
use crate::parts::Part;
use es_model::names::NameForm;
use es_model::{Atom, Code, Edit as Change, Expr, List, Text, Value};
use serde_json::Value as Tree;
use std::alloc::Global;

// The value of a literal.
fn value_of(alloc: Global, literal: Expr) -> Result<Value, DeclFault>
    ensures { Reads (spec.value_of literal) result }
{
    match literal {
        Expr::Bool(truth) => Ok(Value::One(Atom::Bool(truth))),
        Expr::Int(number) => Ok(Value::One(Atom::Int(number))),
        Expr::Text(text) => Ok(Value::One(Atom::Text(text))),
        Expr::Uuid(id) => Ok(Value::One(Atom::Uuid(id))),
        Expr::Moment(moment) => Ok(Value::One(Atom::Moment(moment))),
        Expr::Decimal(decimal) => Ok(Value::One(Atom::Decimal(decimal))),
        Expr::None(_) => Ok(Value::List(List::new(alloc))),
        _ => here(alloc, Code::Form),
    }
}

fn constant(alloc: Global, tree: &Tree) -> Result<Value, DeclFault>
    ensures { Reads (spec.constant (view tree.now)) result }
{
    match tree {
        Tree::Object(members) => match only(members) {
            Some((word, body)) => {
                let literal = literal(alloc, word, body)?;
                value_of(alloc, literal)
            }
            None => here(alloc, Code::Form),
        },
        _ => here(alloc, Code::Form),
    }
}

fn test_item(alloc: Global, place: usize, name: &str) -> Result<(), DeclFault>
    ensures { Reads (under (item_step place) (name_test NameForm.Field name.now)) result }
{
    in_item(alloc, place, test_name(alloc, NameForm::Field, name))
}

fn constant_item(alloc: Global, place: usize, tree: &Tree) -> Result<Value, DeclFault>
    ensures { Reads (under (item_step place) (spec.constant (view tree.now))) result }
{
    in_item(alloc, place, constant(alloc, tree))
}

// A field's name and a literal.
fn add(alloc: Global, name: &str, tree: &Tree) -> Result<Change, DeclFault>
    ensures { Reads (spec.add_of name.now (view tree.now)) result }
{
    test_item(alloc, 0, name)?;
    let value = constant_item(alloc, 1, tree)?;
    let name = Text::from_str(alloc, name)?;
    Ok(Change::Add { name, value })
}

fn rename(alloc: Global, from: &str, to: &str) -> Result<Change, DeclFault>
    ensures { Reads (spec.rename_of from.now to.now) result }
{
    test_item(alloc, 0, from)?;
    test_item(alloc, 1, to)?;
    let from = Text::from_str(alloc, from)?;
    let to = Text::from_str(alloc, to)?;
    Ok(Change::Rename { from, to })
}

fn drop_of(alloc: Global, name: &str) -> Result<Change, DeclFault>
    ensures { Reads (spec.drop_of name.now) result }
{
    test_name(alloc, NameForm::Field, name)?;
    let name = Text::from_str(alloc, name)?;
    Ok(Change::Drop { name })
}

fn add_member(alloc: Global, name: &str, tree: &Tree) -> Result<Change, DeclFault>
    ensures { Reads (under (member_step (codes "add")) (spec.add_of name.now (view tree.now))) result }
{
    in_member(alloc, "add", add(alloc, name, tree))
}

fn rename_member(alloc: Global, from: &str, to: &str) -> Result<Change, DeclFault>
    ensures { Reads (under (member_step (codes "rename")) (spec.rename_of from.now to.now)) result }
{
    in_member(alloc, "rename", rename(alloc, from, to))
}

fn drop_member(alloc: Global, name: &str) -> Result<Change, DeclFault>
    ensures { Reads (under (member_step (codes "drop")) (spec.drop_of name.now)) result }
{
    in_member(alloc, "drop", drop_of(alloc, name))
}

fn added_pair(alloc: Global, name: &Tree, tree: &Tree) -> Result<Change, DeclFault>
    ensures { Reads (spec.added_pair (view name.now) (view tree.now)) result }
{
    match name {
        Tree::String(name) => add_member(alloc, name.as_str(), tree),
        _ => here(alloc, Code::Form),
    }
}

fn renamed_pair(alloc: Global, from: &Tree, to: &Tree) -> Result<Change, DeclFault>
    ensures { Reads (spec.renamed_pair (view from.now) (view to.now)) result }
{
    match from {
        Tree::String(from) => match to {
            Tree::String(to) => rename_member(alloc, from.as_str(), to.as_str()),
            _ => here(alloc, Code::Form),
        },
        _ => here(alloc, Code::Form),
    }
}

fn added(alloc: Global, body: &Tree) -> Result<Change, DeclFault>
    ensures { Reads (spec.added (view body.now)) result }
{
    match body {
        Tree::Array(items) => match pair(items.as_slice()) {
            Some((name, tree)) => added_pair(alloc, name, tree),
            None => here(alloc, Code::Form),
        },
        _ => here(alloc, Code::Form),
    }
}

fn renamed(alloc: Global, body: &Tree) -> Result<Change, DeclFault>
    ensures { Reads (spec.renamed (view body.now)) result }
{
    match body {
        Tree::Array(items) => match pair(items.as_slice()) {
            Some((from, to)) => renamed_pair(alloc, from, to),
            None => here(alloc, Code::Form),
        },
        _ => here(alloc, Code::Form),
    }
}

fn dropped(alloc: Global, body: &Tree) -> Result<Change, DeclFault>
    ensures { Reads (spec.dropped (view body.now)) result }
{
    match body {
        Tree::String(name) => drop_member(alloc, name.as_str()),
        _ => here(alloc, Code::Form),
    }
}

fn edit_by(alloc: Global, word: &str, body: &Tree) -> Result<Change, DeclFault>
    ensures { Reads (spec.edit_by word.now (view body.now)) result }
{
    match word {
        "add" => added(alloc, body),
        "rename" => renamed(alloc, body),
        "drop" => dropped(alloc, body),
        _ => here(alloc, Code::Form),
    }
}

/// An edit of the fields of an event.
#[derive(Drop)]
pub(crate) struct EditObject;

impl Part for EditObject {
    type Read = Change;

    ghost meaning = { λ _. spec.edit };

    fn read(&self, alloc: Global, tree: &Tree) -> Result<Change, DeclFault> {
        match tree {
            Tree::Object(members) => match only(members) {
                Some((word, body)) => edit_by(alloc, word, body),
                None => here(alloc, Code::Form),
            },
            _ => here(alloc, Code::Form),
        }
    }
}
