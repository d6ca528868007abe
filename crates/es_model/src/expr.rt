ghost use Rattle.std.specs.Prelude.{◌≡◌, IfOk};
ghost use Rattle.es_model.specs.OperatorWords.{over_one, over_two};
ghost use Rattle.es_model.specs.declared.expr.Expr as expr;

use crate::memory::both;
use crate::operators::{Binary, Unary};
use crate::{AtomKind, Boxed, Decimal, Duplicate, Moment, NoMemory, Text};
use uuid::Uuid;

/// An expression over the values of some names.
#[derive(Drop)]
pub enum Expr {
    Bool(bool),
    Int(i64),
    Text(Text),
    Uuid(Uuid),
    Moment(Moment),
    Decimal(Decimal),
    None(AtomKind),
    Get(Text),
    Add(Boxed<Expr>, Boxed<Expr>),
    Sub(Boxed<Expr>, Boxed<Expr>),
    Mul(Boxed<Expr>, Boxed<Expr>),
    Eq(Boxed<Expr>, Boxed<Expr>),
    Ne(Boxed<Expr>, Boxed<Expr>),
    Lt(Boxed<Expr>, Boxed<Expr>),
    Le(Boxed<Expr>, Boxed<Expr>),
    And(Boxed<Expr>, Boxed<Expr>),
    Or(Boxed<Expr>, Boxed<Expr>),
    Not(Boxed<Expr>),
    If(Boxed<Expr>, Boxed<Expr>, Boxed<Expr>),
    Concat(Boxed<Expr>, Boxed<Expr>),
    Append(Boxed<Expr>, Boxed<Expr>),
    Contains(Boxed<Expr>, Boxed<Expr>),
    Len(Boxed<Expr>),
    Show(Boxed<Expr>),
    Uuid5(Boxed<Expr>, Boxed<Expr>),
}

// A copy of an operand.
#[cycle(copying)]
fn copied(operand: &Boxed<Expr>) -> Result<Boxed<Expr>, NoMemory>
    ensures { IfOk result (λ c. c ≡ operand.now) }
{
    Boxed::new(operand.allocator(), operand.get().copy()?)
}

// A copy of an operator over its operand.
#[cycle(copying)]
fn one(operator: Unary, a: &Boxed<Expr>) -> Result<Expr, NoMemory>
    ensures { IfOk result (λ c. c ≡ over_one operator a.now) }
{
    let a = copied(a)?;
    Ok(operator.over(a))
}

// A copy of an operator over its operands.
#[cycle(copying)]
fn two(operator: Binary, a: &Boxed<Expr>, b: &Boxed<Expr>) -> Result<Expr, NoMemory>
    ensures { IfOk result (λ c. c ≡ over_two operator a.now b.now) }
{
    let (a, b) = both(copied(a), copied(b))?;
    Ok(operator.over(a, b))
}

// A copy of a choice.
#[cycle(copying)]
fn choice(a: &Boxed<Expr>, b: &Boxed<Expr>, c: &Boxed<Expr>) -> Result<Expr, NoMemory>
    ensures { IfOk result (λ e. e ≡ expr.If a.now b.now c.now) }
{
    let (a, (b, c)) = both(copied(a), both(copied(b), copied(c)))?;
    Ok(Expr::If(a, b, c))
}

impl Duplicate for Expr {
    #[cycle(copying)]
    fn copy(&self) -> Result<Expr, NoMemory> {
        match self {
            Expr::Bool(truth) => Ok(Expr::Bool(*truth)),
            Expr::Int(number) => Ok(Expr::Int(*number)),
            Expr::Text(text) => Ok(Expr::Text(text.copy()?)),
            Expr::Uuid(id) => Ok(Expr::Uuid(*id)),
            Expr::Moment(moment) => Ok(Expr::Moment(*moment)),
            Expr::Decimal(decimal) => Ok(Expr::Decimal(*decimal)),
            Expr::None(kind) => Ok(Expr::None(*kind)),
            Expr::Get(name) => Ok(Expr::Get(name.copy()?)),
            Expr::Add(a, b) => two(Binary::Add, a, b),
            Expr::Sub(a, b) => two(Binary::Sub, a, b),
            Expr::Mul(a, b) => two(Binary::Mul, a, b),
            Expr::Eq(a, b) => two(Binary::Eq, a, b),
            Expr::Ne(a, b) => two(Binary::Ne, a, b),
            Expr::Lt(a, b) => two(Binary::Lt, a, b),
            Expr::Le(a, b) => two(Binary::Le, a, b),
            Expr::And(a, b) => two(Binary::And, a, b),
            Expr::Or(a, b) => two(Binary::Or, a, b),
            Expr::Not(a) => one(Unary::Not, a),
            Expr::If(a, b, c) => choice(a, b, c),
            Expr::Concat(a, b) => two(Binary::Concat, a, b),
            Expr::Append(a, b) => two(Binary::Append, a, b),
            Expr::Contains(a, b) => two(Binary::Contains, a, b),
            Expr::Len(a) => one(Unary::Len, a),
            Expr::Show(a) => one(Unary::Show, a),
            Expr::Uuid5(a, b) => two(Binary::Uuid5, a, b),
        }
    }
}
