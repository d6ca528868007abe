ghost use Rattle.std.specs.Prelude.{◌≡◌, true, IfOk};
ghost use Rattle.es_model.specs.Rising.{item_of};
ghost use Rattle.es_model.specs.Values.{fits};
ghost use Rattle.es_model.specs.declared.value.AtomKind.TheVariants as atom_kind;
ghost use Rattle.es_model.specs.declared.value.Kind.TheVariants as kind;
ghost use Rattle.es_model.specs.declared.value.Kind.{Kind};
ghost use Rattle.es_expr.specs.inner.Evaluates.{Evaluates};
ghost use Rattle.es_expr.specs.Meaning.{Gives, Tells, den, found as meant_found, of_choice, of_one as meant_of_one, of_two as meant_of_two};
ghost use Rattle.es_expr.specs.Operators.{truth};
ghost use Rattle.es_expr.specs.Outcome.{is};
ghost use Rattle.es_expr.specs.Sound.{IsChecked, IsCheckedAs, IsTest};

use crate::EvalFault;
use crate::fault::Trouble;
use crate::operators::{decision, limited, of_one, of_two};
use crate::shape::by_shape;
use es_model::operators::{Binary, Unary};
use es_model::{Atom, Atoms, Duplicate, Expr, Fields, Text, Value};
use std::alloc::Global;

fn found(name: &Text, env: &Fields) -> Result<Value, Trouble>
    ensures { Evaluates (meant_found (item_of env.now name.now)) result }
{
    match env.get(name.as_str()) {
        Some(value) => limited(value.copy()?),
        None => Err(Trouble::Stuck),
    }
}

#[cycle(evaluation)]
fn one(alloc: Global, op: Unary, a: &Expr, env: &Fields) -> Result<Value, Trouble>
    ensures { Evaluates (meant_of_one op (den a.now env.now)) result }
{
    of_one(alloc, op, &value_of(alloc, a, env)?)
}

#[cycle(evaluation)]
fn two(alloc: Global, op: Binary, a: &Expr, b: &Expr, env: &Fields) -> Result<Value, Trouble>
    ensures { Evaluates (meant_of_two op (den a.now env.now) (den b.now env.now)) result }
{
    let left = value_of(alloc, a, env)?;
    match decision(op, &left) {
        Some(truth) => Ok(Value::One(Atom::Bool(truth))),
        None => of_two(alloc, op, &left, &value_of(alloc, b, env)?),
    }
}

#[cycle(evaluation)]
fn choice(alloc: Global, a: &Expr, b: &Expr, c: &Expr, env: &Fields) -> Result<Value, Trouble>
    ensures { Evaluates (of_choice (den a.now env.now) (den b.now env.now) (den c.now env.now)) result }
{
    match value_of(alloc, a, env)? {
        Value::One(Atom::Bool(true)) => value_of(alloc, b, env),
        Value::One(Atom::Bool(false)) => value_of(alloc, c, env),
        _ => Err(Trouble::Stuck),
    }
}

// The value of any expression, also of one that is not checked.
#[cycle(evaluation)]
fn value_of(alloc: Global, expr: &Expr, env: &Fields) -> Result<Value, Trouble>
    ensures { Evaluates (den expr.now env.now) result }
{
    by_shape!(alloc, expr, env, {
        Expr::Bool(truth) => limited(Value::One(Atom::Bool(*truth))),
        Expr::Int(number) => limited(Value::One(Atom::Int(*number))),
        Expr::Text(text) => limited(Value::One(Atom::Text(text.copy()?))),
        Expr::Uuid(id) => limited(Value::One(Atom::Uuid(*id))),
        Expr::Moment(moment) => limited(Value::One(Atom::Moment(*moment))),
        Expr::Decimal(decimal) => limited(Value::One(Atom::Decimal(*decimal))),
        Expr::None(_) => Ok(Value::List(Atoms::new(alloc))),
        Expr::Get(name) => found(name, env),
    }, one, two, choice)
}

/// The value of an expression over the values of some names.
pub fn eval(alloc: Global, expr: &Expr, env: &Fields) -> Result<Value, EvalFault>
    requires { IsChecked expr.now env.now }
    ensures value { Gives (den expr.now env.now) result }
    ensures kind { (k : Kind) → IsCheckedAs k expr.now env.now → IfOk result (λ v. fits v k ≡ true) }
{
    match value_of(alloc, expr, env) {
        Ok(value) => Ok(value),
        Err(Trouble::Over) => Err(EvalFault::Overflow),
        Err(Trouble::NoMemory) => Err(EvalFault::NoMemory),
        Err(Trouble::Stuck) => unreachable!(),
    }
}

fn truth_of(value: &Value) -> bool
    requires { fits value.now (kind.One atom_kind.Bool) ≡ true }
    ensures { is value.now ≡ truth result }
{
    match value {
        Value::One(Atom::Bool(truth)) => *truth,
        _ => unreachable!(),
    }
}

/// Whether an expression is true over the values of some names.
pub fn test(alloc: Global, expr: &Expr, env: &Fields) -> Result<bool, EvalFault>
    requires { IsTest expr.now env.now }
    ensures { Tells (den expr.now env.now) result }
{
    Ok(truth_of(&eval(alloc, expr, env)?))
}
