ghost use Rattle.serde_json.specs.View.{view};
ghost use Rattle.es_decl.specs.Readings.{Reads};
ghost use Rattle.es_model.specs.Names.{halves};
ghost use Rattle.es_decl.specs.Words as spec;

use crate::DeclFault;
use crate::fault::here;
use crate::parts::Part;
use es_model::names::{NameForm, halves, has_name_length, is_spelled};
use es_model::{Code, Otherwise, Text};
use serde_json::Value;
use std::alloc::Global;

fn test_both(alloc: Global, a: &str, b: &str) -> Result<(), DeclFault>
    ensures { Reads (spec.both_test a.now b.now) result }
{
    if !has_name_length(a) || !has_name_length(b) {
        return here(alloc, Code::Limit);
    }
    if !is_spelled(NameForm::Class, a) || !is_spelled(NameForm::Class, b) {
        return here(alloc, Code::Name);
    }
    Ok(())
}

fn test_halves(alloc: Global, text: &str) -> Result<(), DeclFault>
    ensures { Reads (spec.halves_test (halves text.now)) result }
{
    match halves(text) {
        Some((a, b)) => test_both(alloc, a, b),
        None => here(alloc, Code::Form),
    }
}

/// A class name, a point, and the name of an event or a command.
#[derive(Drop)]
pub(crate) struct Topic;

impl Part for Topic {
    type Read = Text;

    ghost meaning = { λ _. spec.topic };

    fn read(&self, alloc: Global, tree: &Value) -> Result<Text, DeclFault> {
        match tree {
            Value::String(text) => {
                test_halves(alloc, text.as_str())?;
                Ok(Text::from_str(alloc, text.as_str())?)
            }
            _ => here(alloc, Code::Form),
        }
    }
}

/// What a refused rule does.
#[derive(Drop)]
pub(crate) struct OtherwiseWord;

impl Part for OtherwiseWord {
    type Read = Otherwise;

    ghost meaning = { λ _. spec.otherwise };

    fn read(&self, alloc: Global, tree: &Value) -> Result<Otherwise, DeclFault> {
        match tree {
            Value::String(word) => match word.as_str() {
                "skip" => Ok(Otherwise::Skip),
                "refuse" => Ok(Otherwise::Refuse),
                _ => here(alloc, Code::Form),
            },
            _ => here(alloc, Code::Form),
        }
    }
}
