ghost use Rattle.std.specs.Prelude.{◌≡◌};
ghost use Rattle.es_expr.specs.Kinds as spec;
ghost use Rattle.es_expr.specs.Kinds.{is_same_kind, is_same_atom_kind};

use es_model::operators::{Binary, Unary};
use es_model::{AtomKind, Kind};

fn is_same_atom(a: AtomKind, b: AtomKind) -> bool
    ensures { result ≡ is_same_atom_kind a b }
{
    match (a, b) {
        (AtomKind::Bool, AtomKind::Bool)
        | (AtomKind::Int, AtomKind::Int)
        | (AtomKind::Text, AtomKind::Text)
        | (AtomKind::Uuid, AtomKind::Uuid)
        | (AtomKind::Moment, AtomKind::Moment)
        | (AtomKind::Decimal, AtomKind::Decimal) => true,
        _ => false,
    }
}

pub(crate) fn is_same(a: Kind, b: Kind) -> bool
    ensures { result ≡ is_same_kind a b }
{
    match (a, b) {
        (Kind::One(a), Kind::One(b)) => is_same_atom(a, b),
        (Kind::List(a), Kind::List(b)) => is_same_atom(a, b),
        _ => false,
    }
}

/// Whether the operand of an operator may be of a kind.
pub(crate) fn unary_takes(op: Unary, kind: Kind) -> bool
    ensures { result ≡ spec.unary_takes op kind }
{
    match (op, kind) {
        (Unary::Not, Kind::One(AtomKind::Bool)) => true,
        (Unary::Len, Kind::One(AtomKind::Text) | Kind::List(_)) => true,
        (Unary::Show, Kind::One(AtomKind::Int | AtomKind::Uuid)) => true,
        _ => false,
    }
}

/// The kind of the value of an operator over one operand.
pub(crate) fn unary_gives(op: Unary) -> Kind
    ensures { result ≡ spec.unary_gives op }
{
    match op {
        Unary::Not => Kind::One(AtomKind::Bool),
        Unary::Len => Kind::One(AtomKind::Int),
        Unary::Show => Kind::One(AtomKind::Text),
    }
}

/// Whether the left operand of an operator may be of a kind.
pub(crate) fn takes(op: Binary, left: Kind) -> bool
    ensures { result ≡ spec.takes op left }
{
    match (op, left) {
        (Binary::Eq | Binary::Ne, _) => true,
        (Binary::Add | Binary::Sub | Binary::Mul, Kind::One(AtomKind::Int)) => true,
        (Binary::Lt | Binary::Le, Kind::One(AtomKind::Int | AtomKind::Moment | AtomKind::Text)) =>
            true,
        (Binary::And | Binary::Or, Kind::One(AtomKind::Bool)) => true,
        (Binary::Concat, Kind::One(AtomKind::Text)) => true,
        (Binary::Append | Binary::Contains, Kind::List(_)) => true,
        (Binary::Uuid5, Kind::One(AtomKind::Uuid)) => true,
        _ => false,
    }
}

/// Whether the right operand may be of a kind, after that of the left one.
pub(crate) fn follows(op: Binary, left: Kind, right: Kind) -> bool
    ensures { result ≡ spec.follows op left right }
{
    match (op, left) {
        (Binary::Append | Binary::Contains, Kind::List(item)) => { is_same(Kind::One(item), right) }
        (Binary::Append | Binary::Contains, Kind::One(_)) => false,
        (Binary::Uuid5, _) => is_same(Kind::One(AtomKind::Text), right),
        _ => is_same(left, right),
    }
}

/// The kind of the value, by that of the left operand.
pub(crate) fn gives(op: Binary, left: Kind) -> Kind
    ensures { result ≡ spec.gives op left }
{
    match op {
        Binary::Add | Binary::Sub | Binary::Mul => Kind::One(AtomKind::Int),
        Binary::Eq
        | Binary::Ne
        | Binary::Lt
        | Binary::Le
        | Binary::And
        | Binary::Or
        | Binary::Contains => Kind::One(AtomKind::Bool),
        Binary::Concat => Kind::One(AtomKind::Text),
        Binary::Append => left,
        Binary::Uuid5 => Kind::One(AtomKind::Uuid),
    }
}
