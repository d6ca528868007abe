ghost use Rattle.std.specs.Prelude.{◌≡◌, ◌&&◌, [], ◌∷◌, map, Some, IfOk, option_map, codes};
ghost use Rattle.std.specs.Option.{option_copied};
ghost use Rattle.serde_json.specs.Find.{get};
ghost use Rattle.serde_json.specs.View.{view, members_view};
ghost use Rattle.es_model.specs.Declaration.{app_named};
ghost use Rattle.es_model.specs.Names.{is_one_of};
ghost use Rattle.es_model.specs.Values.{Name};
ghost use Rattle.es_domain.specs.Effect.{command_named};
ghost use Rattle.es_transcode.specs.Decoded.{tree_in, record_in};
ghost use Rattle.es_lines.specs.Requests.{Answers, IsOfSystem, request_in};
ghost use Rattle.es_lines.specs.inner.Parts.{Reads, Tests};
ghost use Rattle.es_lines.specs.Requests as spec;
ghost use Rattle.es_lines.specs.inner.Parts as parts;
ghost use Rattle.es_lines.specs.declared.fault.LineFault.TheVariants as faults;
ghost use Rattle.es_lines.specs.declared.request.Request.{Request};
ghost use Rattle.es_lines.specs.declared.request.Request.TheVariants as requests;
ghost use Rattle.es_expr.specs.Misfits as misfits;

use crate::{LineFault, Request};
use es_domain::Command;
use es_model::limits::MOST_EXPECTED;
use es_model::names::halves;
use es_model::{App, CommandDef, Fields, System, Text, are_of_kinds};
use es_transcode::{DecodeFault, decode_tree, id_of, read_tree};
use serde_json::Value;
use std::alloc::Global;
use std::collections::BTreeMap;
use uuid::Uuid;

fn is_among(names: &[&str], name: &str) -> bool
    ensures { result ≡ is_one_of (map (λ n. n.now) names.now) name.now }
{
    match names {
        [] => false,
        [first, rest @ ..] => name == *first || is_among(rest, name),
    }
}

fn are_members(members: &BTreeMap<String, Value>, names: &[&str]) -> bool
    ensures { result ≡ spec.are_members (map (λ n. n.now) names.now) (members_view members.now.entries) }
{
    for (name, _) in members.iter() {
        if !is_among(names, name.as_str()) {
            return false;
        }
    }
    true
}

// Whether a tree is an object with no member but these.
fn has_only(tree: &Value, names: &[&str]) -> bool
    ensures { result ≡ spec.has_only (map (λ n. n.now) names.now) (view tree.now) }
{
    match tree {
        Value::Object(members) => are_members(members, names),
        _ => false,
    }
}

fn has(tree: &Value, name: &str) -> bool
    ensures { result ≡ spec.has name.now (view tree.now) }
{
    tree.get(name).is_some()
}

// The text of a member.
fn text_in<'a>(tree: &'a Value, name: &str) -> Option<&'a str>
    ensures { option_map (λ s. s.now) result ≡ spec.text_of name.now (view tree.now) }
{
    tree.get(name)?.as_str()
}

fn names_in(tree: &Value) -> Option<(&str, &str)>
    ensures { option_map (λ h. (h.0.now, h.1.now)) result ≡ spec.names (view tree.now) }
{
    halves(text_in(tree, "do")?)
}

fn id_in(tree: &Value, name: &str) -> Option<Uuid>
    ensures { result ≡ spec.id_of name.now (view tree.now) }
{
    id_of(text_in(tree, name)?)
}

fn number_in(tree: &Value, least: u64) -> Option<u64>
    ensures { result ≡ spec.number_in (parts.is_from least) (view tree.now) }
{
    let number = tree.as_u64()?;
    if least <= number && number <= MOST_EXPECTED {
        Some(number)
    } else {
        None
    }
}

// The number of a member that may be absent, from a least one to the greatest version.
fn optional(tree: &Value, name: &str, least: u64) -> Option<Option<u64>>
    ensures { result ≡ spec.optional (parts.is_from least) (get name.now (view tree.now)) }
{
    match tree.get(name) {
        Some(number) => Some(Some(number_in(number, least)?)),
        None => Some(None),
    }
}

fn fault_of(fault: DecodeFault) -> LineFault
    ensures { result ≡ parts.fault_of fault }
{
    match fault {
        DecodeFault::NoMemory => LineFault::NoMemory,
        _ => LineFault::Syntax,
    }
}

fn record_of(alloc: Global, tree: &Value) -> Result<Fields, LineFault>
    ensures { Reads (record_in (view tree.now)) result }
{
    match decode_tree(alloc, tree) {
        Ok(fields) => Ok(fields),
        Err(fault) => Err(fault_of(fault)),
    }
}

fn args_in(alloc: Global, tree: &Value) -> Result<Fields, LineFault>
    ensures { Reads (spec.args (view tree.now)) result }
{
    match tree.get("args") {
        Some(args) => record_of(alloc, args),
        None => Err(LineFault::Syntax),
    }
}

// The command of a class for an aggregate, if both are there.
fn target(tree: &Value) -> Option<((&str, &str), Uuid)>
    ensures { option_map (λ t. ((t.0.0.now, t.0.1.now), t.1)) result ≡ spec.target (view tree.now) }
{
    let names = names_in(tree)?;
    let id = id_in(tree, "id")?;
    Some((names, id))
}

fn command(alloc: Global, tree: &Value) -> Result<Command, LineFault>
    ensures { Reads (spec.command (view tree.now)) result }
{
    let Some(((class, name), id)) = target(tree) else {
        return Err(LineFault::Syntax);
    };
    let args = args_in(alloc, tree)?;
    let Some(expect) = optional(tree, "expect", 0) else {
        return Err(LineFault::Syntax);
    };
    Ok(Command {
        class: Text::from_str(alloc, class)?,
        name: Text::from_str(alloc, name)?,
        id,
        args,
        expect,
    })
}

fn do_line(alloc: Global, tree: &Value) -> Result<Request, LineFault>
    ensures { Reads (spec.do_line (view tree.now)) result }
{
    if !has_only(tree, &["app", "args", "do", "expect", "id"]) {
        return Err(LineFault::Syntax);
    }
    let Some(app) = text_in(tree, "app") else {
        return Err(LineFault::Syntax);
    };
    let command = command(alloc, tree)?;
    Ok(Request::Do {
        app: Text::from_str(alloc, app)?,
        command,
    })
}

// The aggregate that is asked for, and at which version.
fn aggregate(tree: &Value) -> Option<(Uuid, Option<u64>)>
    ensures { result ≡ spec.aggregate (view tree.now) }
{
    let id = id_in(tree, "get")?;
    let version = optional(tree, "version", 1)?;
    Some((id, version))
}

fn get_line(alloc: Global, tree: &Value) -> Result<Request, LineFault>
    ensures { Reads (spec.get_line (view tree.now)) result }
{
    if !has_only(tree, &["app", "get", "version"]) {
        return Err(LineFault::Syntax);
    }
    let Some(app) = text_in(tree, "app") else {
        return Err(LineFault::Syntax);
    };
    let Some((id, version)) = aggregate(tree) else {
        return Err(LineFault::Syntax);
    };
    Ok(Request::Get {
        app: Text::from_str(alloc, app)?,
        id,
        version,
    })
}

// The application and another text of a line, if both are there.
fn app_and<'a>(tree: &'a Value, name: &str) -> Option<(&'a str, &'a str)>
    ensures { option_map (λ t. (t.0.now, t.1.now)) result ≡ spec.app_and name.now (view tree.now) }
{
    let app = text_in(tree, "app")?;
    let other = text_in(tree, name)?;
    Some((app, other))
}

fn log_line(alloc: Global, tree: &Value) -> Result<Request, LineFault>
    ensures { Reads (spec.log_line (view tree.now)) result }
{
    if !has_only(tree, &["app", "log"]) {
        return Err(LineFault::Syntax);
    }
    let Some((app, section)) = app_and(tree, "log") else {
        return Err(LineFault::Syntax);
    };
    Ok(Request::Log {
        app: Text::from_str(alloc, app)?,
        section: Text::from_str(alloc, section)?,
    })
}

fn tracking_line(alloc: Global, tree: &Value) -> Result<Request, LineFault>
    ensures { Reads (spec.tracking_line (view tree.now)) result }
{
    if !has_only(tree, &["app", "tracking"]) {
        return Err(LineFault::Syntax);
    }
    let Some((app, leader)) = app_and(tree, "tracking") else {
        return Err(LineFault::Syntax);
    };
    Ok(Request::Tracking {
        app: Text::from_str(alloc, app)?,
        leader: Text::from_str(alloc, leader)?,
    })
}

fn snapshot_line(alloc: Global, tree: &Value) -> Result<Request, LineFault>
    ensures { Reads (spec.snapshot_line (view tree.now)) result }
{
    if !has_only(tree, &["app", "snapshot"]) {
        return Err(LineFault::Syntax);
    }
    let Some(app) = text_in(tree, "app") else {
        return Err(LineFault::Syntax);
    };
    let Some(id) = id_in(tree, "snapshot") else {
        return Err(LineFault::Syntax);
    };
    Ok(Request::Snapshot {
        app: Text::from_str(alloc, app)?,
        id,
    })
}

fn is_true(tree: Option<&Value>) -> bool
    ensures { result ≡ spec.is_true (option_map (λ v. view v.now) tree.entry) }
{
    match tree {
        Some(Value::Bool(truth)) => *truth,
        _ => false,
    }
}

// Whether a word, which is true, is all that a line has.
fn is_word(tree: &Value, word: &str) -> bool
    ensures { result ≡ (spec.has_only (word.now ∷ []) (view tree.now) && spec.is_true (get word.now (view tree.now))) }
{
    has_only(tree, &[word]) && is_true(tree.get(word))
}

fn word_line(tree: &Value, word: &str, request: Request) -> Result<Request, LineFault>
    ensures { Reads (spec.word_line word.now request (view tree.now)) result }
{
    if is_word(tree, word) {
        Ok(request)
    } else {
        Err(LineFault::Syntax)
    }
}

fn spelled(alloc: Global, tree: &Value) -> Result<Request, LineFault>
    ensures { Reads (spec.spelled (view tree.now)) result }
{
    if has(tree, "do") {
        do_line(alloc, tree)
    } else if has(tree, "get") {
        get_line(alloc, tree)
    } else if has(tree, "log") {
        log_line(alloc, tree)
    } else if has(tree, "tracking") {
        tracking_line(alloc, tree)
    } else if has(tree, "snapshot") {
        snapshot_line(alloc, tree)
    } else if has(tree, "sync") {
        word_line(tree, "sync", Request::Sync)
    } else {
        word_line(tree, "stop", Request::Stop)
    }
}

fn spelled_in(alloc: Global, bytes: &[u8]) -> Result<Request, LineFault>
    ensures { Reads (spec.and_then (tree_in bytes.now) spec.spelled) result }
{
    match read_tree(alloc, bytes)? {
        Some(tree) => spelled(alloc, &tree),
        None => Err(LineFault::Syntax),
    }
}

fn has_class(app: &App, class: &str) -> bool
    ensures { result ≡ is_one_of app.now.classes class.now }
{
    app.classes
        .as_slice()
        .iter()
        .any(|name| name.as_str() == class)
}

// Whether the application has the command's class.
fn is_listed(sys: &System, app: &Text, command: &Command) -> bool
    ensures { result ≡ spec.has_class (app_named sys.now.apps app.now) command.now.class }
{
    match sys.app(app.as_str()) {
        Some(app) => has_class(app, command.class.as_str()),
        None => false,
    }
}

fn definition<'a>(sys: &'a System, command: &Command) -> Option<&'a CommandDef>
    ensures { option_copied result ≡ option_map (λ p. p.1) (command_named sys.now command.now.class command.now.name) }
{
    sys.class(command.class.as_str())?
        .command(command.name.as_str())
}

fn test_arguments(sys: &System, command: &Command) -> Result<(), LineFault>
    ensures { (app : Name) → Tests (spec.of_definition (command_named sys.now command.now.class command.now.name) app command.now) (requests.Do app command.now) result }
{
    match definition(sys, command) {
        Some(definition) => {
            if are_of_kinds(&command.args, &definition.params) {
                Ok(())
            } else {
                Err(LineFault::Kind)
            }
        }
        None => Err(LineFault::Unknown),
    }
}

// Finds why a command isn't one of an application.
fn test_fitting(sys: &System, app: &Text, command: &Command) -> Result<(), LineFault>
    ensures { Tests (spec.fitting sys.now app.now command.now) (requests.Do app.now command.now) result }
{
    if is_listed(sys, app, command) {
        test_arguments(sys, command)
    } else {
        Err(LineFault::Unknown)
    }
}

fn test_app(sys: &System, app: &Text) -> Result<(), LineFault>
    ensures { (request : Request) → Tests (spec.of_app sys.now app.now request) request result }
{
    match sys.app(app.as_str()) {
        Some(_) => Ok(()),
        None => Err(LineFault::Unknown),
    }
}

// Whether the first of some names is a name.
fn is_first(names: &[Text], name: &str) -> bool
    ensures { result ≡ misfits.is_first names.now name.now }
{
    match names {
        [] => false,
        [first, ..] => first.as_str() == name,
    }
}

// Whether a name comes right before another.
fn is_next(leader: &str, follower: &str, names: &[Text]) -> bool
    ensures { result ≡ misfits.is_next leader.now follower.now names.now }
{
    match names {
        [] => false,
        [first, rest @ ..] => {
            (first.as_str() == leader && is_first(rest, follower))
                || is_next(leader, follower, rest)
        }
    }
}

// Whether an application leads another in some pipe.
fn leads(sys: &System, leader: &str, follower: &str) -> bool
    ensures { result ≡ misfits.leads sys.now leader.now follower.now }
{
    sys.pipes
        .as_slice()
        .iter()
        .any(|pipe| is_next(leader, follower, pipe.as_slice()))
}

fn test_leader(sys: &System, app: &Text, leader: &Text) -> Result<(), LineFault>
    ensures { Tests (spec.asked_of sys.now (Some (requests.Tracking app.now leader.now))) (requests.Tracking app.now leader.now) result }
{
    if leads(sys, leader.as_str(), app.as_str()) {
        test_app(sys, app)
    } else {
        Err(LineFault::Unknown)
    }
}

// Finds why a request names what isn't declared.
fn test(sys: &System, request: &Request) -> Result<(), LineFault>
    ensures { Tests (spec.asked_of sys.now (Some request.now)) request.now result }
{
    match request {
        Request::Do { app, command } => test_fitting(sys, app, command),
        Request::Get { app, .. } => test_app(sys, app),
        Request::Log { app, .. } => test_app(sys, app),
        Request::Tracking { app, leader } => test_leader(sys, app, leader),
        Request::Snapshot { app, .. } => test_app(sys, app),
        Request::Sync => Ok(()),
        Request::Stop => Ok(()),
    }
}

/// What a line asks of a system.
pub fn read_line(alloc: Global, sys: &System, bytes: &[u8]) -> Result<Request, LineFault>
    ensures request { Answers (request_in sys.now bytes.now) result }
    ensures declared { IfOk result (IsOfSystem sys.now) }
{
    let request = spelled_in(alloc, bytes)?;
    test(sys, &request)?;
    Ok(request)
}
