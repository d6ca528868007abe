ghost use Rattle.serde_json.specs.View.{view};
ghost use Rattle.es_decl.specs.Readings.{Reads};
ghost use Rattle.es_decl.specs.Expressions as spec;
ghost use Rattle.es_decl.specs.inner.Operands as operands;
ghost use Rattle.es_decl.specs.inner.Sizes.{IsOnly, IsSingle, IsPair, IsTriple, Spent};

use crate::DeclFault;
use crate::fault::{around, here, in_item, in_member};
use crate::literals::literal;
use crate::parts::Part;
use es_model::limits::{MOST_LEVELS, MOST_NODES};
use es_model::operators::{Binary, Operator, Unary};
use es_model::{Boxed, Code, Expr};
use serde_json::Value;
use std::alloc::Global;
use std::collections::BTreeMap;

/// The one member of an object.
pub(crate) fn only(members: &BTreeMap<String, Value>) -> Option<(&str, &Value)>
    ensures { IsOnly result members.now.entries }
{
    if members.len() != 1 {
        return None;
    }
    match members.iter().next() {
        Some((name, value)) => Some((name.as_str(), value)),
        None => None,
    }
}

fn single(items: &[Value]) -> Option<&Value>
    ensures { IsSingle result items.now }
{
    match items {
        [a] => Some(a),
        _ => None,
    }
}

/// Exactly two items.
pub(crate) fn pair(items: &[Value]) -> Option<(&Value, &Value)>
    ensures { IsPair result items.now }
{
    match items {
        [a, b] => Some((a, b)),
        _ => None,
    }
}

fn triple(items: &[Value]) -> Option<(&Value, &Value, &Value)>
    ensures { IsTriple result items.now }
{
    match items {
        [a, b, c] => Some((a, b, c)),
        _ => None,
    }
}

#[cycle(reading)]
fn spelled_operand(alloc: Global, word: &str, place: usize, tree: &Value) -> Result<Expr, DeclFault>
    ensures { Reads (spec.operand word.now place (spec.spells (view tree.now))) result }
{
    in_member(alloc, word, in_item(alloc, place, spelled(alloc, tree)))
}

#[cycle(reading)]
fn operand(alloc: Global, word: &str, place: usize, tree: &Value) -> Result<Boxed<Expr>, DeclFault>
    ensures { Reads (spec.operand word.now place (spec.spells (view tree.now))) result }
{
    let read = spelled_operand(alloc, word, place, tree)?;
    Ok(Boxed::new(alloc, read)?)
}

#[cycle(reading)]
fn of_one(alloc: Global, word: &str, operator: Unary, items: &[Value]) -> Result<Expr, DeclFault>
    ensures { Reads (spec.operation (Operator.One operator) word.now (operands.spelled_items items.now)) result }
{
    match single(items) {
        Some(a) => {
            let a = operand(alloc, word, 0, a)?;
            Ok(operator.over(a))
        }
        None => here(alloc, Code::Form),
    }
}

#[cycle(reading)]
fn of_two(alloc: Global, word: &str, operator: Binary, items: &[Value]) -> Result<Expr, DeclFault>
    ensures { Reads (spec.operation (Operator.Two operator) word.now (operands.spelled_items items.now)) result }
{
    match pair(items) {
        Some((a, b)) => {
            let a = operand(alloc, word, 0, a)?;
            let b = operand(alloc, word, 1, b)?;
            Ok(operator.over(a, b))
        }
        None => here(alloc, Code::Form),
    }
}

#[cycle(reading)]
fn of_three(alloc: Global, word: &str, items: &[Value]) -> Result<Expr, DeclFault>
    ensures { Reads (spec.operation Operator.Choice word.now (operands.spelled_items items.now)) result }
{
    match triple(items) {
        Some((a, b, c)) => {
            let a = operand(alloc, word, 0, a)?;
            let b = operand(alloc, word, 1, b)?;
            let c = operand(alloc, word, 2, c)?;
            Ok(Expr::If(a, b, c))
        }
        None => here(alloc, Code::Form),
    }
}

// An operator over the items of its body.
#[cycle(reading)]
fn operation(
    alloc: Global,
    word: &str,
    operator: Operator,
    items: &[Value],
) -> Result<Expr, DeclFault>
    ensures { Reads (spec.operation operator word.now (operands.spelled_items items.now)) result }
{
    match operator {
        Operator::One(operator) => of_one(alloc, word, operator, items),
        Operator::Two(operator) => of_two(alloc, word, operator, items),
        Operator::Choice => of_three(alloc, word, items),
    }
}

#[cycle(reading)]
fn operated(alloc: Global, word: &str, operator: Operator, body: &Value) -> Result<Expr, DeclFault>
    ensures { Reads (spec.operation operator word.now (operands.spelled_operands (view body.now))) result }
{
    match body {
        Value::Array(items) => operation(alloc, word, operator, items.as_slice()),
        _ => here(alloc, Code::Form),
    }
}

#[cycle(reading)]
fn worded(alloc: Global, word: &str, body: &Value) -> Result<Expr, DeclFault>
    ensures { Reads (spec.spelled word.now (view body.now) (operands.spelled_operands (view body.now))) result }
{
    match Operator::of_word(word) {
        Some(operator) => operated(alloc, word, operator, body),
        None => literal(alloc, word, body),
    }
}

#[cycle(reading)]
fn spelled(alloc: Global, tree: &Value) -> Result<Expr, DeclFault>
    ensures { Reads (spec.spells (view tree.now)) result }
{
    match tree {
        Value::Object(members) => match only(members) {
            Some((word, body)) => worded(alloc, word, body),
            None => here(alloc, Code::Form),
        },
        _ => here(alloc, Code::Form),
    }
}

// What the operands leave of a budget.
#[cycle(spending)]
fn spend_operands(
    operator: Operator,
    items: &[Value],
    levels: usize,
    budget: usize,
) -> Option<usize>
    ensures { Spent (spec.greatest (spec.children operator (operands.item_depths items.now))) (spec.total (spec.children operator (operands.item_nodes items.now))) levels budget result }
{
    match operator {
        Operator::One(_) => match single(items) {
            Some(a) => spend(a, levels, budget),
            None => Some(budget),
        },
        Operator::Two(_) => match pair(items) {
            Some((a, b)) => spend(b, levels, spend(a, levels, budget)?),
            None => Some(budget),
        },
        Operator::Choice => match triple(items) {
            Some((a, b, c)) => spend(c, levels, spend(b, levels, spend(a, levels, budget)?)?),
            None => Some(budget),
        },
    }
}

// The same of the operands in the body of a word.
#[cycle(spending)]
fn spend_body(word: &str, body: &Value, levels: usize, budget: usize) -> Option<usize>
    ensures { Spent (spec.greatest (spec.counted word.now (operands.operand_depths (view body.now)))) (spec.total (spec.counted word.now (operands.operand_nodes (view body.now)))) levels budget result }
{
    match Operator::of_word(word) {
        Some(operator) => match body {
            Value::Array(items) => spend_operands(operator, items.as_slice(), levels, budget),
            _ => Some(budget),
        },
        None => Some(budget),
    }
}

// What an expression leaves of a budget of levels and nodes, if it suffices.
#[cycle(spending)]
fn spend(tree: &Value, levels: usize, budget: usize) -> Option<usize>
    ensures { Spent (spec.depth (view tree.now)) (spec.nodes (view tree.now)) levels budget result }
{
    if levels == 0 || budget == 0 {
        return None;
    }
    match tree {
        Value::Object(members) => match only(members) {
            Some((word, body)) => spend_body(word, body, levels - 1, budget - 1),
            None => Some(budget - 1),
        },
        _ => Some(budget - 1),
    }
}

// Finds whether an expression is too deep, or has too many nodes.
fn test_size(alloc: Global, tree: &Value) -> Result<(), DeclFault>
    ensures { Reads (spec.size_test (view tree.now)) result }
{
    match spend(tree, MOST_LEVELS, MOST_NODES) {
        Some(_) => Ok(()),
        None => here(alloc, Code::Limit),
    }
}

/// An expression.
#[derive(Drop)]
pub(crate) struct Expression;

impl Part for Expression {
    type Read = Expr;

    ghost meaning = { λ _. spec.expression };

    fn read(&self, alloc: Global, tree: &Value) -> Result<Expr, DeclFault> {
        around(spelled(alloc, tree), test_size(alloc, tree))
    }
}

/// Reads an expression from its tree, as one that stands in a document.
pub fn read_expr(alloc: Global, tree: &Value) -> Result<Expr, DeclFault>
    ensures { Reads (spec.expression (view tree.now)) result }
{
    Expression.read(alloc, tree)
}
