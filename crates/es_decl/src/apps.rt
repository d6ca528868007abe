ghost use Rattle.std.specs.Prelude.{◌≡◌};
ghost use Rattle.serde_json.specs.View.{view};
ghost use Rattle.es_decl.specs.Readings.{Reads};
ghost use Rattle.es_decl.specs.Declaration as spec;

use crate::DeclFault;
use crate::classes::AssignsOf;
use crate::expressions::Expression;
use crate::objects::{Object, test_shape};
use crate::parts::{Number, Part, Several, given_up, member, optional, or_else};
use crate::words::{OtherwiseWord, Topic};
use es_model::limits::{MOST_CLASSES, MOST_RULES, MOST_SECTION};
use es_model::names::NameForm;
use es_model::{App, Assigns, Expr, List, Otherwise, Rule, Text};
use serde_json::Value;
use std::alloc::Global;

// When a rule applies: its topic, its leader, and what has to be true.
fn condition(alloc: Global, tree: &Value) -> Result<(Text, Option<Text>, Option<Expr>), DeclFault>
    ensures { Reads (spec.condition (view tree.now)) result }
{
    let topic = member(alloc, tree, "on", &Topic)?;
    let leader = optional(alloc, tree, "leader", &NameForm::Plain)?;
    let when = optional(alloc, tree, "when", &Expression)?;
    Ok((topic, leader, when))
}

// What a rule runs: its target, the command, and the arguments.
fn call(alloc: Global, tree: &Value) -> Result<(Expr, Text, Assigns), DeclFault>
    ensures { Reads (spec.call (view tree.now)) result }
{
    let target = member(alloc, tree, "target", &Expression)?;
    let command = match member(alloc, tree, "do", &Topic) {
        Ok(command) => command,
        Err(fault) => return given_up(target, fault),
    };
    match member(alloc, tree, "args", &AssignsOf(NameForm::Plain)) {
        Ok(args) => Ok((target, command, args)),
        Err(fault) => given_up((target, command), fault),
    }
}

// A rule that applies so, and runs so.
fn rule(
    applies: (Text, Option<Text>, Option<Expr>),
    runs: (Expr, Text, Assigns),
    otherwise: Otherwise,
) -> Rule
    ensures { result ≡ record {
      topic = applies.0;
      leader = applies.1;
      when = applies.2;
      target = runs.0;
      command = runs.1;
      args = runs.2;
      otherwise = otherwise;
    } }
{
    let (topic, leader, when) = applies;
    let (target, command, args) = runs;
    Rule {
        topic,
        leader,
        when,
        target,
        command,
        args,
        otherwise,
    }
}

/// A rule of an application.
#[derive(Drop)]
pub(crate) struct RuleObject;

impl Part for RuleObject {
    type Read = Rule;

    ghost meaning = { λ _. spec.rule };

    fn read(&self, alloc: Global, tree: &Value) -> Result<Rule, DeclFault> {
        test_shape(alloc, Object::Rule, tree)?;
        let condition = condition(alloc, tree)?;
        let call = match call(alloc, tree) {
            Ok(call) => call,
            Err(fault) => return given_up(condition, fault),
        };
        match optional(alloc, tree, "otherwise", &OtherwiseWord) {
            Ok(otherwise) => Ok(rule(condition, call, or_else(Otherwise::Refuse, otherwise))),
            Err(fault) => given_up((condition, call), fault),
        }
    }
}

/// An application.
#[derive(Drop)]
pub(crate) struct AppObject;

impl Part for AppObject {
    type Read = App;

    ghost meaning = { λ _. spec.app };

    fn read(&self, alloc: Global, tree: &Value) -> Result<App, DeclFault> {
        let classes = Several {
            least: 0,
            most: Some(MOST_CLASSES),
            part: NameForm::Class,
        };
        let policy = Several {
            least: 0,
            most: Some(MOST_RULES),
            part: RuleObject,
        };
        let section = Number {
            least: 1,
            most: MOST_SECTION,
        };
        test_shape(alloc, Object::App, tree)?;
        let name = member(alloc, tree, "name", &NameForm::Plain)?;
        let classes = member(alloc, tree, "classes", &classes)?;
        let policies = optional(alloc, tree, "policy", &policy)?;
        let section_size = optional(alloc, tree, "section", &section)?;
        Ok(App {
            name,
            classes,
            policies: or_else(List::new(alloc), policies),
            section_size,
        })
    }
}
