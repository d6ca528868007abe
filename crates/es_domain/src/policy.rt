//! What the rules of a policy ask on a notification.
ghost use Rattle.std.specs.Prelude.{◌≡◌, ◌<◌, ◌^◌, ◌&&◌, true, IfOk};
ghost use Rattle.std.specs.List.{before_first, after_first};
ghost use Rattle.std.specs.Option.{option_copied};
ghost use Rattle.std.specs.Str.{bytes_eq};
ghost use Rattle.es_model.specs.Declaration.{class_named};
ghost use Rattle.es_model.specs.Values.{fits};
ghost use Rattle.es_model.specs.declared.value.AtomKind.TheVariants as atom_kind;
ghost use Rattle.es_model.specs.declared.value.Kind.TheVariants as kind;
ghost use Rattle.es_model.specs.Names.{is_dot};
ghost use Rattle.es_expr.specs.Meaning.{den};
ghost use Rattle.es_expr.specs.Sound.{IsCheckedAs};
ghost use Rattle.es_domain.specs.inner.Asking.{CanBeTested, CanBeAsked, MayBeAsked, HoldsAs, Targets, GivesCommand, IsAsked, definition_in};
ghost use Rattle.es_domain.specs.Decision.{shown, is_true_of, is_absent_or, command_for, asked_where, asked, notice, IsOfCommand};
ghost use Rattle.es_domain.specs.Effect.{command_named};
ghost use Rattle.es_domain.specs.Fold.{values_of, id_value};

use crate::environment::rule_env;
use crate::fold::{id_value, moment_value, rises, version_value};
use crate::values::values_of;
use crate::{Command, TriggerFault};
use es_expr::{eval, test};
use es_model::{
    Atom, CommandDef, DomainEvent, Duplicate, Expr, Fields, NoMemory, Rule, System, Text, Value,
};
use std::alloc::Global;
use uuid::Uuid;

/// What a rule asks: nothing, where it doesn't apply; too much, where a limit is passed; or a command.
#[derive(Debug, Drop)]
pub(crate) enum Asked {
    Nothing,
    Overflows,
    Asks(Command),
}

// What the expressions of a rule see.
fn shown(alloc: Global, leader: &Text, id: u64, event: &DomainEvent) -> Result<Fields, NoMemory>
    requires id { id < 2 ^ 63 }
    requires version { event.now.originator_version < 2 ^ 63 }
    ensures { IfOk result (λ env. env ≡ shown (notice leader.now id event.now)) }
{
    let aggregate = id_value(event.originator_id);
    let at = moment_value(event.timestamp);
    let leader = Value::One(Atom::Text(leader.copy()?));
    let position = version_value(id);
    let version = version_value(event.originator_version);
    rule_env(
        alloc,
        &event.fields,
        aggregate,
        at,
        leader,
        position,
        version,
    )
}

// Whether a rule is for a leader's events of a topic.
fn is_for(rule: &Rule, topic: &Text, leader: &Text) -> bool
    ensures { result ≡ (bytes_eq rule.now.topic topic.now && is_absent_or rule.now.leader leader.now) }
{
    if rule.topic.as_str() != topic.as_str() {
        return false;
    }
    match &rule.leader {
        Some(wanted) => wanted.as_str() == leader.as_str(),
        None => true,
    }
}

// Whether a condition is true, where it is there.
fn holds(alloc: Global, when: &Option<Expr>, env: &Fields) -> Result<bool, TriggerFault>
    requires { CanBeTested when.now env.now }
    ensures { HoldsAs (is_true_of when.now env.now) result }
{
    match when {
        Some(expr) => match test(alloc, expr, env) {
            Ok(holds) => Ok(holds),
            Err(fault) => Err(fault.into()),
        },
        None => Ok(true),
    }
}

// The id that a value is.
fn id_of(value: &Value) -> Uuid
    requires { fits value.now (kind.One atom_kind.Uuid) ≡ true }
    ensures { value.now ≡ id_value result }
{
    match value {
        Value::One(Atom::Uuid(id)) => *id,
        _ => unreachable!(),
    }
}

// The id of the aggregate that a rule's command is for.
fn target_of(alloc: Global, target: &Expr, env: &Fields) -> Result<Uuid, TriggerFault>
    requires { IsCheckedAs (kind.One atom_kind.Uuid) target.now env.now }
    ensures { Targets (den target.now env.now) result }
{
    match eval(alloc, target, env) {
        Ok(value) => Ok(id_of(&value)),
        Err(fault) => Err(fault.into()),
    }
}

// What a class declares of a command.
fn definition<'a>(sys: &'a System, class: &str, name: &str) -> Option<&'a CommandDef>
    ensures { option_copied result ≡ definition_in (class_named sys.now.classes class.now) name.now }
{
    sys.class(class)?.command(name)
}

// The class and the name of a command.
fn class_and_name(command: &Text) -> (&str, &str)
    ensures class { result.0.now ≡ before_first is_dot command.now }
    ensures name { result.1.now ≡ after_first is_dot command.now }
{
    match command.as_str().split_once('.') {
        Some((class, name)) => (class, name),
        None => (command.as_str(), ""),
    }
}

// The command that a rule asks for, with its arguments.
fn command_asked(
    alloc: Global,
    sys: &System,
    rule: &Rule,
    id: Uuid,
    env: &Fields,
) -> Result<Command, TriggerFault>
    requires { CanBeAsked sys.now rule.now env.now }
    ensures command { GivesCommand rule.now id (values_of rule.now.args env.now) result }
    ensures declared { IfOk result (λ c. IsOfCommand (command_named sys.now c.class c.name) c.args) }
{
    let (class, name) = class_and_name(&rule.command);
    let Some(definition) = definition(sys, class, name) else {
        unreachable!()
    };
    rises(&definition.params);
    rises(&rule.args);
    let args = values_of(alloc, &rule.args, env)?;
    Ok(Command {
        class: Text::from_str(alloc, class)?,
        name: Text::from_str(alloc, name)?,
        id,
        args,
        expect: None,
    })
}

// What a rule asks where its condition is true.
fn requested(alloc: Global, sys: &System, rule: &Rule, env: &Fields) -> Result<Asked, NoMemory>
    requires { CanBeAsked sys.now rule.now env.now }
    ensures asked { IfOk result (λ a. a ≡ command_for rule.now (den rule.now.target env.now) (values_of rule.now.args env.now)) }
    ensures declared { IfOk result (IsAsked sys.now) }
{
    let id = match target_of(alloc, &rule.target, env) {
        Ok(id) => id,
        Err(TriggerFault::Overflow) => return Ok(Asked::Overflows),
        Err(TriggerFault::NoMemory) => return Err(NoMemory),
    };
    match command_asked(alloc, sys, rule, id, env) {
        Ok(command) => Ok(Asked::Asks(command)),
        Err(TriggerFault::Overflow) => Ok(Asked::Overflows),
        Err(TriggerFault::NoMemory) => Err(NoMemory),
    }
}

// What a rule for this topic and leader asks.
fn asked_of(alloc: Global, sys: &System, rule: &Rule, env: &Fields) -> Result<Asked, NoMemory>
    requires { CanBeAsked sys.now rule.now env.now }
    ensures asked { IfOk result (λ a. a ≡ asked_where (is_true_of rule.now.when env.now) (command_for rule.now (den rule.now.target env.now) (values_of rule.now.args env.now))) }
    ensures declared { IfOk result (IsAsked sys.now) }
{
    let applies = match holds(alloc, &rule.when, env) {
        Ok(applies) => applies,
        Err(TriggerFault::Overflow) => return Ok(Asked::Overflows),
        Err(TriggerFault::NoMemory) => return Err(NoMemory),
    };
    if applies {
        requested(alloc, sys, rule, env)
    } else {
        Ok(Asked::Nothing)
    }
}

/// What a rule asks of a notification.
pub(crate) fn ask(
    alloc: Global,
    sys: &System,
    rule: &Rule,
    leader: &Text,
    id: u64,
    event: &DomainEvent,
) -> Result<Asked, NoMemory>
    requires id { id < 2 ^ 63 }
    requires version { event.now.originator_version < 2 ^ 63 }
    requires rule { MayBeAsked sys.now (notice leader.now id event.now) rule.now }
    ensures asked { IfOk result (λ a. a ≡ asked rule.now (notice leader.now id event.now)) }
    ensures declared { IfOk result (IsAsked sys.now) }
{
    if !is_for(rule, &event.topic, leader) {
        return Ok(Asked::Nothing);
    }
    let env = shown(alloc, leader, id, event)?;
    asked_of(alloc, sys, rule, &env)
}
