//! The faults of applications, with their classes and rules.
ghost use Rattle.std.specs.Prelude.{◌≡◌, IfOk, Some};
ghost use Rattle.std.specs.List.{list_any};
ghost use Rattle.std.specs.Option.{option_copied, option_map};
ghost use Rattle.std.specs.Str.{bytes_eq};
ghost use Rattle.es_expr.specs.inner.Walks.{Finds};
ghost use Rattle.es_expr.specs.Misfits as spec;
ghost use Rattle.es_expr.specs.Misfits.{each, app_misfits, app_part_misfits, listed_misfits, leader_misfits, when_misfits, do_misfits, condition_misfits, target_misfits, call_misfits, applied_misfits, on_misfits, rule_misfits};

use crate::environments::rule_env;
use crate::misfit::Halt;
use crate::walk::expressions::{all_members, expression};
use crate::walk::paths::{before, halt, halt_unless, item_path, joined};
use es_model::names::halves_at_first;
use es_model::{
    App, AtomKind, Class, Code, CommandDef, EventClass, Expr, Kind, Kinds, NoMemory, Rule, System,
    Text,
};
use std::alloc::Global;

fn is_among(names: &[Text], name: &str) -> bool
    ensures { result ≡ list_any (λ n. bytes_eq n name.now) names.now }
{
    names.iter().any(|other| other.as_str() == name)
}

// Whether the first of some names is a name.
fn is_first(names: &[Text], name: &str) -> bool
    ensures { result ≡ spec.is_first names.now name.now }
{
    match names {
        [] => false,
        [first, ..] => first.as_str() == name,
    }
}

// Whether a name comes right before another.
fn is_next(leader: &str, follower: &str, names: &[Text]) -> bool
    ensures { result ≡ spec.is_next leader.now follower.now names.now }
{
    match names {
        [] => false,
        [first, rest @ ..] => {
            (first.as_str() == leader && is_first(rest, follower))
                || is_next(leader, follower, rest)
        }
    }
}

// Whether an application leads another in some pipe.
fn leads(sys: &System, leader: &str, follower: &str) -> bool
    ensures { result ≡ spec.leads sys.now leader.now follower.now }
{
    sys.pipes
        .as_slice()
        .iter()
        .any(|pipe| is_next(leader, follower, pipe.as_slice()))
}

// Whether a name is that of an application which leads another.
fn is_leader(sys: &System, leader: &str, follower: &str) -> bool
    ensures { result ≡ spec.is_leader sys.now leader.now follower.now }
{
    sys.app(leader).is_some() && leads(sys, leader, follower)
}

fn named_leader(
    alloc: Global,
    sys: &System,
    app: &App,
    path: &str,
    leader: &str,
) -> Result<(), Halt>
    ensures { Finds (leader_misfits sys.now app.now path.now (Some leader.now)) result }
{
    let is_leader = is_leader(sys, leader, app.name.as_str());
    halt_unless(alloc, is_leader, Code::Unknown, path, "")
}

// A rule's leader is declared and leads the application.
fn leader(
    alloc: Global,
    sys: &System,
    app: &App,
    path: &str,
    leader: Option<&Text>,
) -> Result<(), Halt>
    ensures { Finds (leader_misfits sys.now app.now path.now (option_copied leader.entry)) result }
{
    match leader {
        Some(leader) => named_leader(alloc, sys, app, path, leader.as_str()),
        None => Ok(()),
    }
}

fn when(alloc: Global, env: &Kinds, path: &str, when: Option<&Expr>) -> Result<(), Halt>
    ensures { Finds (when_misfits env.now path.now (option_copied when.entry)) result }
{
    match when {
        Some(expr) => expression(alloc, Kind::One(AtomKind::Bool), env, path, expr),
        None => Ok(()),
    }
}

// The command of a class, where the class is in a list.
fn listed_command<'a>(class: &'a Class, names: &[Text], name: &str) -> Option<&'a CommandDef>
    ensures { option_copied result ≡ spec.listed_command class.now names.now name.now }
{
    if is_among(names, class.name.as_str()) {
        class.command(name)
    } else {
        None
    }
}

fn command_of<'a>(class: Option<&'a Class>, names: &[Text], name: &str) -> Option<&'a CommandDef>
    ensures { option_copied result ≡ spec.command_of (option_copied class.entry) names.now name.now }
{
    match class {
        Some(class) => listed_command(class, names, name),
        None => None,
    }
}

fn rule_command<'a>(sys: &'a System, app: &App, command: &str) -> Option<&'a CommandDef>
    ensures { option_copied result ≡ spec.rule_command sys.now app.now command.now }
{
    let (class, name) = halves_at_first(command);
    command_of(sys.class(class), app.classes.as_slice(), name)
}

// A rule's arguments are all of the command's parameters.
fn arguments(
    alloc: Global,
    env: &Kinds,
    path: &str,
    rule: &Rule,
    command: Option<&CommandDef>,
) -> Result<(), Halt>
    ensures { Finds (do_misfits env.now path.now rule.now (option_copied command.entry)) result }
{
    match command {
        Some(command) => {
            let path = joined(alloc, path, "/args")?;
            all_members(alloc, &command.params, env, path.as_str(), &rule.args)
        }
        None => halt(alloc, Code::Unknown, path, "/do"),
    }
}

// When a rule applies.
fn condition(
    alloc: Global,
    sys: &System,
    app: &App,
    env: &Kinds,
    path: &str,
    rule: &Rule,
) -> Result<(), Halt>
    ensures { Finds (condition_misfits sys.now app.now env.now path.now rule.now) result }
{
    let leader_path = joined(alloc, path, "/leader")?;
    leader(alloc, sys, app, leader_path.as_str(), rule.leader.as_ref())?;
    let when_path = joined(alloc, path, "/when")?;
    when(alloc, env, when_path.as_str(), rule.when.as_ref())
}

fn target(alloc: Global, env: &Kinds, path: &str, expr: &Expr) -> Result<(), Halt>
    ensures { Finds (target_misfits env.now path.now expr.now) result }
{
    let path = joined(alloc, path, "/target")?;
    expression(alloc, Kind::One(AtomKind::Uuid), env, path.as_str(), expr)
}

// What a rule runs.
fn call(
    alloc: Global,
    sys: &System,
    app: &App,
    env: &Kinds,
    path: &str,
    rule: &Rule,
) -> Result<(), Halt>
    ensures { Finds (call_misfits sys.now app.now env.now path.now rule.now) result }
{
    target(alloc, env, path, &rule.target)?;
    let command = rule_command(sys, app, rule.command.as_str());
    arguments(alloc, env, path, rule, command)
}

// The members of a rule after its topic.
fn applied(
    alloc: Global,
    sys: &System,
    app: &App,
    env: &Kinds,
    path: &str,
    rule: &Rule,
) -> Result<(), Halt>
    ensures { Finds (applied_misfits sys.now app.now env.now path.now rule.now) result }
{
    condition(alloc, sys, app, env, path, rule)?;
    call(alloc, sys, app, env, path, rule)
}

// What a rule on an event sees.
fn on_env(alloc: Global, event: &EventClass) -> Result<Kinds, NoMemory>
    ensures { IfOk result (λ e. e ≡ spec.on_env event.now) }
{
    rule_env(
        alloc,
        event.fields.as_slice(),
        Kind::One(AtomKind::Uuid),
        Kind::One(AtomKind::Moment),
        Kind::One(AtomKind::Text),
        Kind::One(AtomKind::Int),
        Kind::One(AtomKind::Int),
    )
}

// A rule, by the event of its topic.
fn on_event(
    alloc: Global,
    sys: &System,
    app: &App,
    path: &str,
    rule: &Rule,
    on: Option<(&Class, &EventClass)>,
) -> Result<(), Halt>
    ensures { Finds (on_misfits sys.now app.now path.now rule.now (option_map (λ p. (p.0.now, p.1.now)) on.entry)) result }
{
    match on {
        Some((_, event)) => {
            let env = on_env(alloc, event)?;
            applied(alloc, sys, app, &env, path, rule)
        }
        None => halt(alloc, Code::Unknown, path, "/on"),
    }
}

fn rule(
    alloc: Global,
    sys: &System,
    app: &App,
    path: &str,
    place: usize,
    rule: &Rule,
) -> Result<(), Halt>
    ensures { Finds (rule_misfits sys.now app.now path.now place rule.now) result }
{
    let path = item_path(alloc, path, place)?;
    let event = sys.event(rule.topic.as_str());
    on_event(alloc, sys, app, path.as_str(), rule, event)
}

fn rules(alloc: Global, sys: &System, app: &App, path: &str, rules: &[Rule]) -> Result<(), Halt>
    ensures { Finds (each (rule_misfits sys.now app.now path.now) 0 rules.now) result }
{
    for (place, each) in rules.iter().enumerate() {
        rule(alloc, sys, app, path, place, each)?;
    }
    Ok(())
}

fn listed_class(
    alloc: Global,
    sys: &System,
    app: &App,
    path: &str,
    place: usize,
    name: &Text,
) -> Result<(), Halt>
    ensures { Finds (listed_misfits sys.now app.now path.now place name.now) result }
{
    let path = item_path(alloc, path, place)?;
    let is_new = !is_among(before(app.classes.as_slice(), place), name.as_str());
    halt_unless(alloc, is_new, Code::Repeat, path.as_str(), "")?;
    let is_declared = sys.class(name.as_str()).is_some();
    halt_unless(alloc, is_declared, Code::Unknown, path.as_str(), "")
}

// The classes of an application's list.
fn listed(alloc: Global, sys: &System, app: &App, path: &str, names: &[Text]) -> Result<(), Halt>
    ensures { Finds (each (listed_misfits sys.now app.now path.now) 0 names.now) result }
{
    for (place, each) in names.iter().enumerate() {
        listed_class(alloc, sys, app, path, place, each)?;
    }
    Ok(())
}

fn is_among_apps(apps: &[App], name: &str) -> bool
    ensures { result ≡ list_any (λ a. bytes_eq a.name name.now) apps.now }
{
    apps.iter().any(|app| app.name.as_str() == name)
}

// The classes and the rules of an application.
fn app_parts(alloc: Global, sys: &System, path: &str, app: &App) -> Result<(), Halt>
    ensures { Finds (app_part_misfits sys.now path.now app.now) result }
{
    let classes_path = joined(alloc, path, "/classes")?;
    listed(
        alloc,
        sys,
        app,
        classes_path.as_str(),
        app.classes.as_slice(),
    )?;
    let policy_path = joined(alloc, path, "/policy")?;
    rules(
        alloc,
        sys,
        app,
        policy_path.as_str(),
        app.policies.as_slice(),
    )
}

fn app(alloc: Global, sys: &System, path: &str, place: usize, app: &App) -> Result<(), Halt>
    ensures { Finds (app_misfits sys.now path.now place app.now) result }
{
    let path = item_path(alloc, path, place)?;
    let is_new = !is_among_apps(before(sys.apps.as_slice(), place), app.name.as_str());
    halt_unless(alloc, is_new, Code::Repeat, path.as_str(), "/name")?;
    app_parts(alloc, sys, path.as_str(), app)
}

pub(crate) fn apps(alloc: Global, sys: &System, path: &str, apps: &[App]) -> Result<(), Halt>
    ensures { Finds (each (app_misfits sys.now path.now) 0 apps.now) result }
{
    for (place, each) in apps.iter().enumerate() {
        app(alloc, sys, path, place, each)?;
    }
    Ok(())
}
