ghost use Rattle.std.specs.Prelude.{◌≡◌, ◌++◌, [], codes, IfOk, Err};
ghost use Rattle.es_expr.specs.Kinds.{kind_of, kind_of_one, kind_of_two, kind_of_choice, Judges, under, operand_path, known as known_kind};
ghost use Rattle.es_model.specs.Rising.{item_of};
ghost use Rattle.es_expr.specs.declared.fault.ExprFault.TheVariants.{Kind as Wrong, Unknown};

use crate::ExprFault;
use crate::kinds::{follows, gives, is_same, takes, unary_gives, unary_takes};
use crate::shape::by_shape;
use es_model::operators::{Binary, Unary};
use es_model::{AtomKind, Expr, Kind, Kinds, NoMemory, Text};
use std::alloc::Global;

fn path_of(alloc: Global, word: &str, place: &str, rest: &str) -> Result<Text, NoMemory>
    ensures { IfOk result (λ t. t ≡ operand_path word.now place.now ++ rest.now) }
{
    let mut path = String::from_str(alloc, "/")?;
    path.push_str(word)?;
    path.push_str("/")?;
    path.push_str(place)?;
    path.push_str(rest)?;
    Text::from_str(alloc, path.as_str())
}

fn wrong(alloc: Global, word: &str, place: &str) -> Result<Kind, ExprFault>
    ensures { Judges (Err (Wrong (operand_path word.now place.now))) result }
{
    let path = path_of(alloc, word, place, "")?;
    Err(ExprFault::Kind { path })
}

// The fault of an operand, from the expression round it.
fn placed(alloc: Global, word: &str, place: &str, fault: ExprFault) -> Result<Kind, ExprFault>
    ensures { Judges (under (operand_path word.now place.now) (Err fault)) result }
{
    match fault {
        ExprFault::Unknown { path } => {
            let path = path_of(alloc, word, place, path.as_str())?;
            Err(ExprFault::Unknown { path })
        }
        ExprFault::Kind { path } => {
            let path = path_of(alloc, word, place, path.as_str())?;
            Err(ExprFault::Kind { path })
        }
        ExprFault::NoMemory => Err(ExprFault::NoMemory),
    }
}

#[cycle(check)]
fn operand(
    alloc: Global,
    expr: &Expr,
    env: &Kinds,
    word: &str,
    place: &str,
) -> Result<Kind, ExprFault>
    ensures { Judges (under (operand_path word.now place.now) (kind_of expr.now env.now)) result }
{
    match check(alloc, expr, env) {
        Ok(kind) => Ok(kind),
        Err(fault) => placed(alloc, word, place, fault),
    }
}

#[cycle(check)]
fn one(alloc: Global, op: Unary, a: &Expr, env: &Kinds) -> Result<Kind, ExprFault>
    ensures { Judges (kind_of_one op (kind_of a.now env.now)) result }
{
    let kind = operand(alloc, a, env, op.word(), "0")?;
    if !unary_takes(op, kind) {
        return wrong(alloc, op.word(), "0");
    }
    Ok(unary_gives(op))
}

#[cycle(check)]
fn two(alloc: Global, op: Binary, a: &Expr, b: &Expr, env: &Kinds) -> Result<Kind, ExprFault>
    ensures { Judges (kind_of_two op (kind_of a.now env.now) (kind_of b.now env.now)) result }
{
    let left = operand(alloc, a, env, op.word(), "0")?;
    if !takes(op, left) {
        return wrong(alloc, op.word(), "0");
    }
    let right = operand(alloc, b, env, op.word(), "1")?;
    if !follows(op, left, right) {
        return wrong(alloc, op.word(), "1");
    }
    Ok(gives(op, left))
}

#[cycle(check)]
fn choice(alloc: Global, a: &Expr, b: &Expr, c: &Expr, env: &Kinds) -> Result<Kind, ExprFault>
    ensures { Judges (kind_of_choice (kind_of a.now env.now) (kind_of b.now env.now) (kind_of c.now env.now)) result }
{
    let test = operand(alloc, a, env, "if", "0")?;
    if !is_same(Kind::One(AtomKind::Bool), test) {
        return wrong(alloc, "if", "0");
    }
    let yes = operand(alloc, b, env, "if", "1")?;
    let no = operand(alloc, c, env, "if", "2")?;
    if !is_same(yes, no) {
        return wrong(alloc, "if", "2");
    }
    Ok(no)
}

fn known(alloc: Global, name: &Text, env: &Kinds) -> Result<Kind, ExprFault>
    ensures { Judges (known_kind (item_of env.now name.now)) result }
{
    match env.get(name.as_str()) {
        Some(kind) => Ok(*kind),
        None => Err(ExprFault::Unknown {
            path: Text::from_str(alloc, "")?,
        }),
    }
}

/// The kind of an expression, over the kinds of some names.
#[cycle(check)]
pub fn check(alloc: Global, expr: &Expr, env: &Kinds) -> Result<Kind, ExprFault>
    ensures { Judges (kind_of expr.now env.now) result }
{
    by_shape!(alloc, expr, env, {
        Expr::Bool(_) => Ok(Kind::One(AtomKind::Bool)),
        Expr::Int(_) => Ok(Kind::One(AtomKind::Int)),
        Expr::Text(_) => Ok(Kind::One(AtomKind::Text)),
        Expr::Uuid(_) => Ok(Kind::One(AtomKind::Uuid)),
        Expr::Moment(_) => Ok(Kind::One(AtomKind::Moment)),
        Expr::Decimal(_) => Ok(Kind::One(AtomKind::Decimal)),
        Expr::None(kind) => Ok(Kind::List(*kind)),
        Expr::Get(name) => known(alloc, name, env),
    }, one, two, choice)
}
