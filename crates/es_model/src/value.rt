ghost use Rattle.std.specs.Prelude.{◌≡◌, ◌≤◌, IsSome, IfSome, ◌↔◌};
ghost use Rattle.std.specs.List.{list_all};
ghost use Rattle.es_model.specs.Values.{fits, atom_fits, are_of_kinds};

use crate::limits::{MOST_ITEMS, MOST_PLACES, MOST_TEXT_BYTES};
use crate::{Atoms, Duplicate, Fields, Kinds, Moment, NoMemory, Text};
use std::marker::Model;
use uuid::Uuid;

/// A whole number of units of which ten to the power `scale` make one.
#[derive(Clone, Copy, Debug, PartialEq, Eq)]
pub struct Decimal {
    digits: i64,
    scale: u8,
}

impl Model for Decimal {
    ghost use Rattle.std.specs.Prelude.{◌≤◌};
    ghost use Rattle.es_model.specs.Scaled.{Scaled};

    ghost Value = { Scaled };

    ghost view = { λ d. record { digits = d.digits; scale = d.scale } };

    ghost use Rattle.es_model.specs.declared.limits.TheConstants.{MOST_PLACES};

    ghost invariant = { λ d. d.scale ≤ MOST_PLACES };

    ghost inverse = { λ s. record { digits = s.digits; scale = s.scale } };
}

impl Decimal {
    pub fn new(digits: i64, scale: u8) -> Option<Decimal>
        ensures range { IsSome result ↔ (scale ≤ MOST_PLACES) }
        ensures value { IfSome result (λ d. (d.digits ≡ digits) × (d.scale ≡ scale)) }
    {
        if scale <= MOST_PLACES {
            Some(Decimal { digits, scale })
        } else {
            None
        }
    }

    pub fn digits(self) -> i64
        ensures { result ≡ self.digits }
    {
        self.digits
    }

    pub fn scale(self) -> u8
        ensures value { result ≡ self.scale }
        ensures most { result ≤ MOST_PLACES }
    {
        self.scale
    }
}

/// A value that is not a list.
#[derive(Debug, Drop)]
pub enum Atom {
    Null,
    Bool(bool),
    Int(i64),
    Text(Text),
    Uuid(Uuid),
    Moment(Moment),
    Decimal(Decimal),
}

/// A value of a field.
#[derive(Debug, Drop)]
pub enum Value {
    One(Atom),
    List(Atoms),
}

/// What an atom other than null is.
#[derive(Clone, Copy, Debug, PartialEq, Eq)]
pub enum AtomKind {
    Bool,
    Int,
    Text,
    Uuid,
    Moment,
    Decimal,
}

/// What a value is.
#[derive(Clone, Copy, Debug, PartialEq, Eq)]
pub enum Kind {
    One(AtomKind),
    List(AtomKind),
}

fn does_atom_fit(atom: &Atom, kind: AtomKind) -> bool
    ensures { result ≡ atom_fits atom.now kind }
{
    match (atom, kind) {
        (Atom::Bool(_), AtomKind::Bool)
        | (Atom::Int(_), AtomKind::Int)
        | (Atom::Uuid(_), AtomKind::Uuid)
        | (Atom::Moment(_), AtomKind::Moment)
        | (Atom::Decimal(_), AtomKind::Decimal) => true,
        (Atom::Text(text), AtomKind::Text) => text.as_str().len() <= MOST_TEXT_BYTES,
        _ => false,
    }
}

fn do_atoms_fit(atoms: &[Atom], kind: AtomKind) -> bool
    ensures { result ≡ list_all (λ a. atom_fits a kind) atoms.now }
{
    atoms.iter().all(|atom| does_atom_fit(atom, kind))
}

/// Whether a value is of a kind, with texts of at most 4,096 bytes and lists of at most 256 items.
pub fn fits(value: &Value, kind: &Kind) -> bool
    ensures { result ≡ fits value.now kind.now }
{
    match (value, kind) {
        (Value::One(atom), Kind::One(kind)) => does_atom_fit(atom, *kind),
        (Value::List(atoms), Kind::List(kind)) => {
            atoms.len() <= MOST_ITEMS && do_atoms_fit(atoms.as_slice(), *kind)
        }
        _ => false,
    }
}

fn do_values_fit(fields: &[(Text, Value)], kinds: &[(Text, Kind)]) -> bool
    ensures { result ≡ are_of_kinds fields.now kinds.now }
{
    match fields {
        [] => kinds.is_empty(),
        [(name, value), fields @ ..] => match kinds {
            [] => false,
            [(wanted, kind), kinds @ ..] => {
                name.as_str() == wanted.as_str()
                    && fits(value, kind)
                    && do_values_fit(fields, kinds)
            }
        },
    }
}

/// Whether fields have exactly the declared names, each with a value of its kind.
pub fn are_of_kinds(fields: &Fields, kinds: &Kinds) -> bool
    ensures { result ≡ are_of_kinds fields.now kinds.now }
{
    do_values_fit(fields.as_slice(), kinds.as_slice())
}

impl Duplicate for Atom {
    fn copy(&self) -> Result<Atom, NoMemory> {
        Ok(match self {
            Atom::Null => Atom::Null,
            Atom::Bool(truth) => Atom::Bool(*truth),
            Atom::Int(number) => Atom::Int(*number),
            Atom::Text(text) => Atom::Text(text.copy()?),
            Atom::Uuid(id) => Atom::Uuid(*id),
            Atom::Moment(moment) => Atom::Moment(*moment),
            Atom::Decimal(decimal) => Atom::Decimal(*decimal),
        })
    }
}

impl Duplicate for Value {
    fn copy(&self) -> Result<Value, NoMemory> {
        match self {
            Value::One(atom) => Ok(Value::One(atom.copy()?)),
            Value::List(atoms) => Ok(Value::List(atoms.copy()?)),
        }
    }
}

impl Duplicate for Kind {
    fn copy(&self) -> Result<Kind, NoMemory> {
        Ok(*self)
    }
}
