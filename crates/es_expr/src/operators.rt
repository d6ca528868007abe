ghost use Rattle.std.specs.Prelude.{◌≡◌, ◌++◌, ◌∷◌, [], IfOk, pos};
ghost use Rattle.std.specs.Bool.{Decides};
ghost use Rattle.std.specs.Fmt.{signed_decimal};
ghost use Rattle.std.specs.List.{list_any};
ghost use Rattle.uuid.specs.Text.{simple_text, lower};
ghost use Rattle.es_model.specs.declared.value.Atom.TheVariants as meant_atom;
ghost use Rattle.es_model.specs.declared.value.Value.TheVariants as meant_value;
ghost use Rattle.es_expr.specs.inner.Evaluates.{Evaluates};
ghost use Rattle.es_expr.specs.Operators as meant;
ghost use Rattle.es_expr.specs.Outcome.{bind, within, is_within as within_limits};

use crate::fault::Trouble;
use es_model::limits::{MOST_ITEMS, MOST_TEXT_BYTES};
use es_model::operators::{Binary, Unary};
use es_model::{Atom, Atoms, Decimal, Duplicate, NoMemory, Text, Value};
use std::alloc::Global;
use uuid::Uuid;

fn is_within(value: &Value) -> bool
    ensures { result ≡ within_limits value.now }
{
    match value {
        Value::One(Atom::Text(text)) => text.as_str().len() <= MOST_TEXT_BYTES,
        // Any number is in range: it is read so that its range is known.
        Value::One(Atom::Int(number)) => (i64::MIN..=i64::MAX).contains(number),
        Value::One(_) => true,
        Value::List(items) => items.len() <= MOST_ITEMS,
    }
}

/// A value that is within its limit.
pub(crate) fn limited(value: Value) -> Result<Value, Trouble>
    ensures { Evaluates (within value) result }
{
    if is_within(&value) {
        Ok(value)
    } else {
        Err(Trouble::Over)
    }
}

fn sum(a: &Value, b: &Value) -> Result<Value, Trouble>
    ensures { Evaluates (bind (meant.sum a.now b.now) within) result }
{
    match (a, b) {
        (Value::One(Atom::Int(x)), Value::One(Atom::Int(y))) => match x.checked_add(*y) {
            Some(z) => Ok(Value::One(Atom::Int(z))),
            None => Err(Trouble::Over),
        },
        _ => Err(Trouble::Stuck),
    }
}

fn difference(a: &Value, b: &Value) -> Result<Value, Trouble>
    ensures { Evaluates (bind (meant.difference a.now b.now) within) result }
{
    match (a, b) {
        (Value::One(Atom::Int(x)), Value::One(Atom::Int(y))) => match x.checked_sub(*y) {
            Some(z) => Ok(Value::One(Atom::Int(z))),
            None => Err(Trouble::Over),
        },
        _ => Err(Trouble::Stuck),
    }
}

fn product(a: &Value, b: &Value) -> Result<Value, Trouble>
    ensures { Evaluates (bind (meant.product a.now b.now) within) result }
{
    match (a, b) {
        (Value::One(Atom::Int(x)), Value::One(Atom::Int(y))) => match x.checked_mul(*y) {
            Some(z) => Ok(Value::One(Atom::Int(z))),
            None => Err(Trouble::Over),
        },
        _ => Err(Trouble::Stuck),
    }
}

fn is_equal_decimal(a: Decimal, b: Decimal) -> bool
    ensures { result ≡ meant.is_equal_scaled a b }
{
    a.digits() == b.digits() && a.scale() == b.scale()
}

fn is_equal_atom(a: &Atom, b: &Atom) -> bool
    ensures { result ≡ meant.is_equal_atom a.now b.now }
{
    match (a, b) {
        (Atom::Null, Atom::Null) => true,
        (Atom::Bool(x), Atom::Bool(y)) => *x == *y,
        (Atom::Int(x), Atom::Int(y)) => *x == *y,
        (Atom::Text(x), Atom::Text(y)) => x.as_str() == y.as_str(),
        (Atom::Uuid(x), Atom::Uuid(y)) => *x == *y,
        (Atom::Moment(x), Atom::Moment(y)) => x.micros() == y.micros(),
        (Atom::Decimal(x), Atom::Decimal(y)) => is_equal_decimal(*x, *y),
        _ => false,
    }
}

fn are_equal(xs: &[Atom], ys: &[Atom]) -> bool
    ensures { result ≡ meant.are_equal xs.now ys.now }
{
    match xs {
        [] => ys.is_empty(),
        [x, xs @ ..] => match ys {
            [] => false,
            [y, ys @ ..] => is_equal_atom(x, y) && are_equal(xs, ys),
        },
    }
}

fn is_equal(a: &Value, b: &Value) -> bool
    ensures value { result ≡ meant.is_equal a.now b.now }
    ensures equality { Decides result (a.now ≡ b.now) }
{
    match (a, b) {
        (Value::One(x), Value::One(y)) => is_equal_atom(x, y),
        (Value::List(xs), Value::List(ys)) => are_equal(xs.as_slice(), ys.as_slice()),
        _ => false,
    }
}

fn truth(truth: bool) -> Result<Value, Trouble>
    ensures { Evaluates (meant.truth truth) result }
{
    Ok(Value::One(Atom::Bool(truth)))
}

// Whether one value is before another, where they are ordered.
fn precedes(a: &Value, b: &Value) -> Option<bool>
    ensures { result ≡ meant.precedes a.now b.now }
{
    match (a, b) {
        (Value::One(Atom::Int(x)), Value::One(Atom::Int(y))) => Some(*x < *y),
        (Value::One(Atom::Moment(x)), Value::One(Atom::Moment(y))) => {
            Some(x.micros() < y.micros())
        }
        (Value::One(Atom::Text(x)), Value::One(Atom::Text(y))) => Some(x.as_str() < y.as_str()),
        _ => None,
    }
}

fn less(a: &Value, b: &Value) -> Result<Value, Trouble>
    ensures { Evaluates (bind (meant.less a.now b.now) within) result }
{
    match precedes(a, b) {
        Some(is_before) => truth(is_before),
        None => Err(Trouble::Stuck),
    }
}

fn at_most(a: &Value, b: &Value) -> Result<Value, Trouble>
    ensures { Evaluates (bind (meant.at_most a.now b.now) within) result }
{
    match precedes(b, a) {
        Some(is_after) => truth(!is_after),
        None => Err(Trouble::Stuck),
    }
}

fn negation(a: &Value) -> Result<Value, Trouble>
    ensures { Evaluates (bind (meant.negation a.now) within) result }
{
    match a {
        Value::One(Atom::Bool(x)) => truth(!*x),
        _ => Err(Trouble::Stuck),
    }
}

fn conjunction(a: &Value, b: &Value) -> Result<Value, Trouble>
    ensures { Evaluates (bind (meant.conjunction a.now b.now) within) result }
{
    match (a, b) {
        (Value::One(Atom::Bool(x)), Value::One(Atom::Bool(y))) => truth(*x && *y),
        _ => Err(Trouble::Stuck),
    }
}

fn disjunction(a: &Value, b: &Value) -> Result<Value, Trouble>
    ensures { Evaluates (bind (meant.disjunction a.now b.now) within) result }
{
    match (a, b) {
        (Value::One(Atom::Bool(x)), Value::One(Atom::Bool(y))) => truth(*x || *y),
        _ => Err(Trouble::Stuck),
    }
}

/// What the left operand decides alone.
pub(crate) fn decision(op: Binary, a: &Value) -> Option<bool>
    ensures { result ≡ meant.decided op a.now }
{
    match (op, a) {
        (Binary::And, Value::One(Atom::Bool(false))) => Some(false),
        (Binary::Or, Value::One(Atom::Bool(true))) => Some(true),
        _ => None,
    }
}

fn both(alloc: Global, a: &Text, b: &Text) -> Result<Text, NoMemory>
    ensures { IfOk result (λ t. t ≡ a.now ++ b.now) }
{
    let mut both = String::from_str(alloc, a.as_str())?;
    both.push_str(b.as_str())?;
    Text::from_str(alloc, both.as_str())
}

fn joined(alloc: Global, a: &Value, b: &Value) -> Result<Value, Trouble>
    ensures { Evaluates (bind (meant.joined a.now b.now) within) result }
{
    match (a, b) {
        (Value::One(Atom::Text(x)), Value::One(Atom::Text(y))) => {
            limited(Value::One(Atom::Text(both(alloc, x, y)?)))
        }
        _ => Err(Trouble::Stuck),
    }
}

// The items of a list, and one more.
fn with_one_more(items: &Atoms, item: &Atom) -> Result<Atoms, NoMemory>
    ensures { IfOk result (λ all. all ≡ items.now ++ item.now ∷ []) }
{
    let mut all = items.copy()?;
    all.push(item.copy()?)?;
    Ok(all)
}

fn appended(a: &Value, b: &Value) -> Result<Value, Trouble>
    ensures { Evaluates (bind (meant.appended a.now b.now) within) result }
{
    match (a, b) {
        (Value::List(items), Value::One(item)) => {
            limited(Value::List(with_one_more(items, item)?))
        }
        _ => Err(Trouble::Stuck),
    }
}

fn has(items: &[Atom], item: &Atom) -> bool
    ensures { result ≡ list_any (λ x. meant.is_equal_atom x item.now) items.now }
{
    items.iter().any(|x| is_equal_atom(x, item))
}

fn contained(a: &Value, b: &Value) -> Result<Value, Trouble>
    ensures { Evaluates (bind (meant.contained a.now b.now) within) result }
{
    match (a, b) {
        (Value::List(items), Value::One(item)) => truth(has(items.as_slice(), item)),
        _ => Err(Trouble::Stuck),
    }
}

// A number of items or bytes.
fn count(size: usize) -> Result<Value, Trouble>
    ensures { Evaluates (within (meant_value.One (meant_atom.Int (pos size)))) result }
{
    match i64::try_from(size) {
        Ok(size) => Ok(Value::One(Atom::Int(size))),
        Err(_) => Err(Trouble::Over),
    }
}

fn size(a: &Value) -> Result<Value, Trouble>
    ensures { Evaluates (bind (meant.size a.now) within) result }
{
    match a {
        Value::One(Atom::Text(text)) => count(text.as_str().len()),
        Value::List(items) => count(items.len()),
        _ => Err(Trouble::Stuck),
    }
}

fn text_of_number(alloc: Global, number: i64) -> Result<Text, NoMemory>
    ensures { IfOk result (λ t. t ≡ signed_decimal number) }
{
    Text::from_str(alloc, number.to_string(alloc)?.as_str())
}

fn text_of_id(alloc: Global, id: &Uuid) -> Result<Text, NoMemory>
    ensures { IfOk result (λ t. t ≡ simple_text lower id.now) }
{
    let mut buffer = Uuid::encode_buffer();
    Text::from_str(alloc, id.simple().encode_lower(&mut buffer))
}

fn shown(alloc: Global, a: &Value) -> Result<Value, Trouble>
    ensures { Evaluates (bind (meant.shown a.now) within) result }
{
    match a {
        Value::One(Atom::Int(number)) => {
            limited(Value::One(Atom::Text(text_of_number(alloc, *number)?)))
        }
        Value::One(Atom::Uuid(id)) => limited(Value::One(Atom::Text(text_of_id(alloc, id)?))),
        _ => Err(Trouble::Stuck),
    }
}

fn derived(a: &Value, b: &Value) -> Result<Value, Trouble>
    ensures { Evaluates (bind (meant.derived a.now b.now) within) result }
{
    match (a, b) {
        (Value::One(Atom::Uuid(namespace)), Value::One(Atom::Text(name))) => {
            let id = Uuid::new_v5(namespace, name.as_str().as_bytes());
            Ok(Value::One(Atom::Uuid(id)))
        }
        _ => Err(Trouble::Stuck),
    }
}

pub(crate) fn of_one(alloc: Global, op: Unary, a: &Value) -> Result<Value, Trouble>
    ensures { Evaluates (bind (meant.apply_one op a.now) within) result }
{
    match op {
        Unary::Not => negation(a),
        Unary::Len => size(a),
        Unary::Show => shown(alloc, a),
    }
}

pub(crate) fn of_two(alloc: Global, op: Binary, a: &Value, b: &Value) -> Result<Value, Trouble>
    ensures { Evaluates (bind (meant.apply op a.now b.now) within) result }
{
    match op {
        Binary::Add => sum(a, b),
        Binary::Sub => difference(a, b),
        Binary::Mul => product(a, b),
        Binary::Eq => truth(is_equal(a, b)),
        Binary::Ne => truth(!is_equal(a, b)),
        Binary::Lt => less(a, b),
        Binary::Le => at_most(a, b),
        Binary::And => conjunction(a, b),
        Binary::Or => disjunction(a, b),
        Binary::Concat => joined(alloc, a, b),
        Binary::Append => appended(a, b),
        Binary::Contains => contained(a, b),
        Binary::Uuid5 => derived(a, b),
    }
}
