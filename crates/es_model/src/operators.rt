//! The operators of expressions, and the words that declarations have for them.
ghost use Rattle.std.specs.Prelude.{◌≡◌};
ghost use Rattle.es_model.specs.OperatorWords as spec;
ghost use Rattle.es_model.specs.OperatorWords.{operator_of, over_one, over_two};

use crate::{Boxed, Expr};

/// An operator over one operand.
#[derive(Clone, Copy, Debug, PartialEq, Eq)]
pub enum Unary {
    Not,
    Len,
    Show,
}

/// An operator over two operands.
#[derive(Clone, Copy, Debug, PartialEq, Eq)]
pub enum Binary {
    Add,
    Sub,
    Mul,
    Eq,
    Ne,
    Lt,
    Le,
    And,
    Or,
    Concat,
    Append,
    Contains,
    Uuid5,
}

/// An operator.
#[derive(Clone, Copy, Debug, PartialEq, Eq)]
pub enum Operator {
    One(Unary),
    Two(Binary),
    /// Over a test and two branches.
    Choice,
}

impl Operator {
    /// The operator that a word of a declaration stands for; none where it is no operator's.
    pub fn of_word(word: &str) -> Option<Operator>
        ensures { result ≡ operator_of word.now }
    {
        match word {
            "not" => Some(Operator::One(Unary::Not)),
            "len" => Some(Operator::One(Unary::Len)),
            "show" => Some(Operator::One(Unary::Show)),
            "add" => Some(Operator::Two(Binary::Add)),
            "sub" => Some(Operator::Two(Binary::Sub)),
            "mul" => Some(Operator::Two(Binary::Mul)),
            "eq" => Some(Operator::Two(Binary::Eq)),
            "ne" => Some(Operator::Two(Binary::Ne)),
            "lt" => Some(Operator::Two(Binary::Lt)),
            "le" => Some(Operator::Two(Binary::Le)),
            "and" => Some(Operator::Two(Binary::And)),
            "or" => Some(Operator::Two(Binary::Or)),
            "concat" => Some(Operator::Two(Binary::Concat)),
            "append" => Some(Operator::Two(Binary::Append)),
            "contains" => Some(Operator::Two(Binary::Contains)),
            "uuid5" => Some(Operator::Two(Binary::Uuid5)),
            "if" => Some(Operator::Choice),
            _ => None,
        }
    }
}

impl Unary {
    /// The word of this operator.
    pub fn word(self) -> &'static str
        ensures { result.now ≡ spec.unary_word self }
    {
        match self {
            Unary::Not => "not",
            Unary::Len => "len",
            Unary::Show => "show",
        }
    }

    /// The expression of this operator over its operand.
    pub fn over(self, a: Boxed<Expr>) -> Expr
        ensures { result ≡ over_one self a }
    {
        match self {
            Unary::Not => Expr::Not(a),
            Unary::Len => Expr::Len(a),
            Unary::Show => Expr::Show(a),
        }
    }
}

impl Binary {
    /// The word of this operator.
    pub fn word(self) -> &'static str
        ensures { result.now ≡ spec.binary_word self }
    {
        match self {
            Binary::Add => "add",
            Binary::Sub => "sub",
            Binary::Mul => "mul",
            Binary::Eq => "eq",
            Binary::Ne => "ne",
            Binary::Lt => "lt",
            Binary::Le => "le",
            Binary::And => "and",
            Binary::Or => "or",
            Binary::Concat => "concat",
            Binary::Append => "append",
            Binary::Contains => "contains",
            Binary::Uuid5 => "uuid5",
        }
    }

    /// The expression of this operator over its operands.
    pub fn over(self, a: Boxed<Expr>, b: Boxed<Expr>) -> Expr
        ensures { result ≡ over_two self a b }
    {
        match self {
            Binary::Add => Expr::Add(a, b),
            Binary::Sub => Expr::Sub(a, b),
            Binary::Mul => Expr::Mul(a, b),
            Binary::Eq => Expr::Eq(a, b),
            Binary::Ne => Expr::Ne(a, b),
            Binary::Lt => Expr::Lt(a, b),
            Binary::Le => Expr::Le(a, b),
            Binary::And => Expr::And(a, b),
            Binary::Or => Expr::Or(a, b),
            Binary::Concat => Expr::Concat(a, b),
            Binary::Append => Expr::Append(a, b),
            Binary::Contains => Expr::Contains(a, b),
            Binary::Uuid5 => Expr::Uuid5(a, b),
        }
    }
}
