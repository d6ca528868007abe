//! Cases of documents: how many applications, classes and pipes one has, or its first fault; whether a
//! system is one that a document may declare; and who follows whom.

ghost use Rattle.std.specs.Prelude.{IfOk};
ghost use Rattle.es_expr.specs.Checked.{IsCheckedSystem};

use anyhow::Context;
use es_decl::{
    DeclFault, followers, followers_of, leaders, leaders_only, pairs, processors, read_system,
    sample,
};
use es_expr::{first_misfit, is_checked};
use es_model::{Class, Classes, CommandDefs, Expr, Guard, List, Names, System, Text};
use es_suite::given;
use es_suite::told::{self, Items, Members};
use serde_json::Value;
use std::alloc::Global;
use std::mem;

/// The system that a document declares.
pub(crate) fn system(alloc: Global, document: &Value) -> anyhow::Result<System>
    ensures { IfOk result IsCheckedSystem }
{
    let text = document.to_string(alloc)?;
    match read_system(alloc, text.as_str().as_bytes()) {
        Ok(sys) => Ok(sys),
        Err(fault) => Err(fault.into()),
    }
}

/// A fault of a document or of a part of one, as it is told.
pub(crate) fn faulty(alloc: Global, fault: &DeclFault) -> anyhow::Result<Value> {
    match fault {
        DeclFault::At { code, path } => told::place(alloc, told::code(*code), path.as_str()),
        DeclFault::NoMemory => told::no_memory(),
    }
}

// How many parts a system has.
fn parts(alloc: Global, sys: &System) -> anyhow::Result<Value> {
    let mut told = Members::new(alloc);
    told.put("apps", sys.apps.len() as u64);
    told.put("classes", sys.classes.len() as u64);
    told.put("pipes", sys.pipes.len() as u64);
    told.end()
}

// What is read of a document.
fn read(alloc: Global, document: &[u8]) -> anyhow::Result<Value> {
    match read_system(alloc, document) {
        Ok(sys) => parts(alloc, &sys),
        Err(fault) => faulty(alloc, &fault),
    }
}

// Gives the object at a path some members.
fn put(alloc: Global, tree: &mut Value, path: &str, members: &Value) -> anyhow::Result<()> {
    let object = tree.pointer_mut(path).context("no such path")?;
    let object = object.as_object_mut().context("no object there")?;
    for (name, member) in members.as_object().context("no members")?.iter() {
        serde_json::put(object, alloc, name.as_str(), member.clone()?)?;
    }
    Ok(())
}

// What is read of the base, with some members put into the object at a path.
fn changed(alloc: Global, base: &Value, path: &str, members: &Value) -> anyhow::Result<Value> {
    let mut tree = base.clone()?;
    put(alloc, &mut tree, path, members)?;
    let text = tree.to_string(alloc)?;
    read(alloc, text.as_str().as_bytes())
}

// Names one after the other.
fn names(alloc: Global, names: &Names) -> Items {
    let mut items = Items::new(alloc);
    for name in names.as_slice() {
        items.put(name.as_str());
    }
    items
}

// The leader and the follower of each pair, one after the other.
fn pairs_of(alloc: Global, sys: &System) -> anyhow::Result<Items> {
    let pairs = pairs(alloc, sys)?;
    let mut items = Items::new(alloc);
    for (leader, follower) in pairs.as_slice() {
        items.put(leader.as_str());
        items.put(follower.as_str());
    }
    Ok(items)
}

// Tells the lists of who leads and who follows.
fn put_lists(alloc: Global, told: &mut Members, sys: &System, leader: &Text) -> anyhow::Result<()> {
    told.put_items("pairs", pairs_of(alloc, sys)?);
    told.put_items(
        "followers_of",
        names(alloc, &followers_of(alloc, sys, leader)?),
    );
    told.put_items("followers", names(alloc, &followers(alloc, sys)?));
    told.put_items("leaders", names(alloc, &leaders(alloc, sys)?));
    told.put_items("leaders_only", names(alloc, &leaders_only(alloc, sys)?));
    told.put_items("processors", names(alloc, &processors(alloc, sys)?));
    Ok(())
}

// The lists of who leads and who follows.
fn lists(alloc: Global, sys: &System, leader: &Text) -> anyhow::Result<Value> {
    let mut told = Members::new(alloc);
    put_lists(alloc, &mut told, sys, leader)?;
    told.end()
}

// Commands, the first with one more guard, which has a code and lets all pass.
fn with_guard(alloc: Global, commands: CommandDefs, code: &str) -> anyhow::Result<CommandDefs> {
    let code = Text::from_str(alloc, code)?;
    let mut commands = commands.into_vec();
    let command = commands.first_mut().context("no command")?;
    let that = Expr::Bool(true);
    command.guards.push(Guard { that, code })?;
    Ok(List::from_vec(commands))
}

// Gives a class what a case says: a version, a guard with a code, or a name that is assigned.
fn change(alloc: Global, class: &mut Class, case: &Value) -> anyhow::Result<()> {
    if let Some(version) = case.get("version").and_then(Value::as_u64) {
        class.version = version;
    } else if let Some(code) = case.get("code").and_then(Value::as_str) {
        let commands = mem::replace(&mut class.commands, List::new(alloc));
        class.commands = with_guard(alloc, commands, code)?;
    } else if let Some(name) = case.get("assign").and_then(Value::as_str) {
        let name = Text::from_str(alloc, name)?;
        class.created.assigns.put(name, Expr::Int(0))?;
    }
    Ok(())
}

// The classes, with a change of the first one.
fn with_first(alloc: Global, classes: Classes, case: &Value) -> anyhow::Result<Classes> {
    let mut classes = classes.into_vec();
    change(alloc, classes.first_mut().context("no class")?, case)?;
    Ok(List::from_vec(classes))
}

// Whether a system is one that a document may declare, and what doesn't fit in it.
fn judged(alloc: Global, sys: &System) -> anyhow::Result<Value> {
    let is_checked = is_checked(alloc, sys)?;
    let misfit = first_misfit(alloc, sys)?;
    let mut told = Members::new(alloc);
    told.put("checked", is_checked);
    if let Some(misfit) = &misfit {
        told.put("code", told::code(misfit.code));
        told.put("path", misfit.path.as_str());
    }
    told.end()
}

// The base with another first class.
fn with_class(alloc: Global, base: &Value, case: &Value) -> anyhow::Result<System> {
    let System {
        apps,
        classes,
        pipes,
    } = system(alloc, base)?;
    let classes = with_first(alloc, classes, case)?;
    Ok(System {
        apps,
        classes,
        pipes,
    })
}

// Who follows whom in a system, and whether it is checked.
fn followed(alloc: Global, sys: &System) -> anyhow::Result<Value> {
    let is_checked = is_checked(alloc, sys)?;
    let pairs = pairs_of(alloc, sys)?;
    let mut told = Members::new(alloc);
    told.put("checked", is_checked);
    told.put_items("pairs", pairs);
    told.end()
}

// The same of the sample.
fn of_sample(alloc: Global) -> anyhow::Result<Value> {
    let sys = sample(alloc)?;
    followed(alloc, &sys)
}

// What is read of the bytes of a document.
fn of_bytes(alloc: Global, document: &Value) -> anyhow::Result<Value> {
    let bytes = given::bytes(alloc, document)?;
    read(alloc, bytes.as_slice())
}

// The lists of the base.
fn of_lists(alloc: Global, base: &Value, case: &Value) -> anyhow::Result<Value> {
    let leader = given::owned(alloc, case, "lists_of")?;
    let sys = system(alloc, base)?;
    lists(alloc, &sys, &leader)
}

// What the base with another first class is judged.
fn of_class(alloc: Global, base: &Value, case: &Value) -> anyhow::Result<Value> {
    let sys = with_class(alloc, base, case)?;
    judged(alloc, &sys)
}

/// The answer of a case.
pub(crate) fn answer(alloc: Global, base: &Value, case: &Value) -> anyhow::Result<Value> {
    if let Some(document) = case.get("document") {
        of_bytes(alloc, document)
    } else if let Some(path) = case.get("in").and_then(Value::as_str) {
        changed(alloc, base, path, given::member(case, "put")?)
    } else if case.get("lists_of").is_some() {
        of_lists(alloc, base, case)
    } else if case.get("sample").is_some() {
        of_sample(alloc)
    } else {
        of_class(alloc, base, case)
    }
}
