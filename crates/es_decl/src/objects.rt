ghost use Rattle.std.specs.Prelude.{◌≡◌, option_map, is_some};
ghost use Rattle.serde_json.specs.Find.{get};
ghost use Rattle.serde_json.specs.View.{view, members_view};
ghost use Rattle.es_model.specs.declared.declaration.Code.TheVariants as code;
ghost use Rattle.es_decl.specs.Paths.{member_step};
ghost use Rattle.es_decl.specs.Readings.{Reads, under};
ghost use Rattle.es_decl.specs.Readings as readings;
ghost use Rattle.es_decl.specs.Objects as spec;

use crate::DeclFault;
use crate::fault::{here, in_member};
use es_model::Code;
use serde_json::Value;
use std::alloc::Global;
use std::collections::BTreeMap;

/// The objects of the document that have members of their own.
#[derive(Clone, Copy, Debug, PartialEq, Eq, Drop)]
pub(crate) enum Object {
    Document,
    Class,
    Event,
    Command,
    Guard,
    Trigger,
    App,
    Rule,
}

fn class_has(name: &str) -> bool
    ensures { result ≡ spec.has_member Object.Class name.now }
{
    name == "name"
        || name == "fields"
        || name == "created"
        || name == "version"
        || name == "interval"
        || name == "events"
        || name == "commands"
}

fn rule_has(name: &str) -> bool
    ensures { result ≡ spec.has_member Object.Rule name.now }
{
    name == "on"
        || name == "target"
        || name == "do"
        || name == "args"
        || name == "leader"
        || name == "when"
        || name == "otherwise"
}

fn has_member(object: Object, name: &str) -> bool
    ensures { result ≡ spec.has_member object name.now }
{
    match object {
        Object::Document => name == "classes" || name == "apps" || name == "pipes",
        Object::Class => class_has(name),
        Object::Event => {
            name == "name" || name == "fields" || name == "set" || name == "upcasts"
        }
        Object::Command => {
            name == "name" || name == "params" || name == "trigger" || name == "require"
        }
        Object::Guard => name == "that" || name == "code",
        Object::Trigger => name == "event" || name == "fields",
        Object::App => {
            name == "name" || name == "classes" || name == "policy" || name == "section"
        }
        Object::Rule => rule_has(name),
    }
}

fn is_there(tree: &Value, name: &str) -> bool
    ensures { result ≡ is_some (get name.now (view tree.now)) }
{
    tree.get(name).is_some()
}

// Whether an object has all members that it needs.
fn is_whole(object: Object, tree: &Value) -> bool
    ensures { result ≡ spec.is_whole object (view tree.now) }
{
    match object {
        Object::Document => {
            is_there(tree, "classes") && is_there(tree, "apps") && is_there(tree, "pipes")
        }
        Object::Class => {
            is_there(tree, "name") && is_there(tree, "fields") && is_there(tree, "created")
        }
        Object::Event => {
            is_there(tree, "name") && is_there(tree, "fields") && is_there(tree, "set")
        }
        Object::Command => {
            is_there(tree, "name") && is_there(tree, "params") && is_there(tree, "trigger")
        }
        Object::Guard => is_there(tree, "that") && is_there(tree, "code"),
        Object::Trigger => is_there(tree, "event") && is_there(tree, "fields"),
        Object::App => is_there(tree, "name") && is_there(tree, "classes"),
        Object::Rule => {
            is_there(tree, "on")
                && is_there(tree, "target")
                && is_there(tree, "do")
                && is_there(tree, "args")
        }
    }
}

// The first member that an object doesn't have.
fn first_unknown(object: Object, members: &BTreeMap<String, Value>) -> Option<&str>
    ensures { option_map (λ n. n.now) result ≡ spec.unknown object (members_view members.now.entries) }
{
    for (name, _) in members.iter() {
        let name = name.as_str();
        if !has_member(object, name) {
            return Some(name);
        }
    }
    None
}

fn unknown_member(alloc: Global, name: &str) -> Result<(), DeclFault>
    ensures { Reads (under (member_step name.now) (readings.here code.Form)) result }
{
    in_member(alloc, name, here(alloc, Code::Form))
}

/// Finds what is wrong with the members of an object.
pub(crate) fn test_shape(alloc: Global, object: Object, tree: &Value) -> Result<(), DeclFault>
    ensures { Reads (spec.shape_test object (view tree.now)) result }
{
    let Value::Object(members) = tree else {
        return here(alloc, Code::Form);
    };
    if let Some(name) = first_unknown(object, members) {
        return unknown_member(alloc, name);
    }
    if !is_whole(object, tree) {
        return here(alloc, Code::Form);
    }
    Ok(())
}
