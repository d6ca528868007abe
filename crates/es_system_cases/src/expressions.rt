//! Cases of expressions: the kind and the value of one over the values of some names, or why it has none.

ghost use Rattle.es_expr.specs.Sound.{IsChecked};

use crate::documents;
use crate::values::{kinds, record};
use es_decl::read_expr;
use es_expr::{EvalFault, ExprFault, check, eval, fit};
use es_model::{AtomKind, Boxed, Duplicate, Expr, Fields, Kind, Kinds, Text};
use es_suite::given;
use es_suite::told::{self, Members};
use serde_json::Value;
use std::alloc::Global;

// The word of a kind of atoms.
fn atom_word(kind: AtomKind) -> &'static str {
    match kind {
        AtomKind::Bool => "bool",
        AtomKind::Int => "int",
        AtomKind::Text => "text",
        AtomKind::Uuid => "uuid",
        AtomKind::Moment => "moment",
        AtomKind::Decimal => "decimal",
    }
}

// The name of the member that a value of a kind is told as.
fn word(alloc: Global, kind: Kind) -> anyhow::Result<Text> {
    match kind {
        Kind::One(kind) => Ok(Text::from_str(alloc, atom_word(kind))?),
        Kind::List(kind) => {
            let word = atom_word(kind);
            let word = format!(in alloc; "list:{word}")?;
            Ok(Text::from_str(alloc, word.as_str())?)
        }
    }
}

// A value under the word of its kind.
fn tree_of(alloc: Global, kind: Kind, value: es_model::Value) -> anyhow::Result<Value> {
    let mut fields = Fields::new(alloc);
    fields.put(word(alloc, kind)?, value)?;
    record(alloc, &fields)
}

// The value of an expression of a kind.
fn valued(alloc: Global, expr: &Expr, env: &Fields, kind: Kind) -> anyhow::Result<Value>
    requires { IsChecked expr.now env.now }
{
    match eval(alloc, expr, env) {
        Ok(value) => tree_of(alloc, kind, value),
        Err(EvalFault::Overflow) => told::fault(alloc, "overflow"),
        Err(EvalFault::NoMemory) => told::no_memory(),
    }
}

fn faulty(alloc: Global, fault: &ExprFault) -> anyhow::Result<Value> {
    match fault {
        ExprFault::Unknown { path } => told::place(alloc, "unknown", path.as_str()),
        ExprFault::Kind { path } => told::place(alloc, "kind", path.as_str()),
        ExprFault::NoMemory => told::no_memory(),
    }
}

// What an expression comes to over values of some kinds.
fn judged(alloc: Global, expr: &Expr, kinds: &Kinds, env: &Fields) -> anyhow::Result<Value> {
    match check(alloc, expr, kinds) {
        Ok(kind) => {
            if fit(env, kinds) {
                valued(alloc, expr, env, kind)
            } else {
                Err(anyhow::anyhow!("values that do not fit"))
            }
        }
        Err(fault) => faulty(alloc, &fault),
    }
}

// A text of so many letters: no document holds the longest ones.
fn long(alloc: Global, letters: u64) -> anyhow::Result<Expr> {
    let mut text = String::new(alloc);
    for _ in 0..letters {
        text.push('a')?;
    }
    Ok(Expr::Text(Text::from_str(alloc, text.as_str())?))
}

// What an expression that was read comes to.
fn evaluated(alloc: Global, case: &Value, expr: &Expr) -> anyhow::Result<Value> {
    let kinds = match case.get("kinds") {
        Some(tree) => kinds(alloc, tree)?,
        None => Kinds::new(alloc),
    };
    let env = match case.get("env") {
        Some(_) => given::fields(alloc, case, "env")?,
        None => Fields::new(alloc),
    };
    judged(alloc, expr, &kinds, &env)
}

// What a text of so many letters comes to.
fn of_letters(alloc: Global, case: &Value, letters: u64) -> anyhow::Result<Value> {
    let text = long(alloc, letters)?;
    evaluated(alloc, case, &text)
}

// What the length of such a text comes to.
fn of_length(alloc: Global, case: &Value, letters: u64) -> anyhow::Result<Value> {
    let length = Expr::Len(Boxed::new(alloc, long(alloc, letters)?)?);
    evaluated(alloc, case, &length)
}

// What a copy of an expression comes to.
fn of_copy(alloc: Global, case: &Value, expr: &Expr) -> anyhow::Result<Value> {
    let copy = expr.copy()?;
    evaluated(alloc, case, &copy)
}

// What the expression of a tree comes to.
fn of_tree(alloc: Global, case: &Value, tree: &Value) -> anyhow::Result<Value> {
    match read_expr(alloc, tree) {
        Ok(expr) => of_copy(alloc, case, &expr),
        Err(fault) => documents::faulty(alloc, &fault),
    }
}

/// The answer of a case.
pub(crate) fn answer(alloc: Global, case: &Value) -> anyhow::Result<Value> {
    if let Some(letters) = case.get("letters").and_then(Value::as_u64) {
        return of_letters(alloc, case, letters);
    }
    if let Some(letters) = case.get("length_of").and_then(Value::as_u64) {
        return of_length(alloc, case, letters);
    }
    of_tree(alloc, case, given::member(case, "eval")?)
}
