ghost use Rattle.std.specs.Prelude.{◌≡◌, List, ℕ, Some, IfOk, IfSome, codes};
ghost use Rattle.es_model.specs.declared.value.Atom.{Atom};
ghost use Rattle.es_model.specs.declared.value.AtomKind.{AtomKind};
ghost use Rattle.es_model.specs.declared.value.AtomKind.TheVariants as kinds;
ghost use Rattle.es_transcode.specs.Texts.{kind_of, HasText};

use crate::{datetime, decimal, hex};
use es_model::{Atom, AtomKind, NoMemory, Text};
use std::alloc::Global;

/// How the atoms of one kind are written as texts.
pub trait Transcoding {
    ghost word: { List ℕ };

    ghost transcoded: { AtomKind };

    /// The word that stands beside the text.
    fn name(&self) -> &'static [u8]
        ensures { result.now ≡ word };

    fn kind(&self) -> AtomKind
        ensures { result ≡ transcoded };

    fn encode(&self, alloc: Global, atom: &Atom) -> Result<Text, NoMemory>
        requires { kind_of atom.now ≡ Some transcoded }
        ensures { IfOk result (HasText atom.now) };

    /// The one atom that has the text. So it decodes what it encodes.
    fn decode(&self, alloc: Global, text: &Text) -> Result<Option<Atom>, NoMemory>
        ensures text { IfOk result (λ o. IfSome o (λ a. (kind_of a ≡ Some transcoded) × HasText a text.now)) }
        ensures found { IfOk result (λ o. (a : Atom) → kind_of a ≡ Some transcoded → HasText a text.now → o ≡ Some a) };
}

/// An id as its thirty-two hexadecimal digits.
#[derive(Clone, Copy, Debug, PartialEq, Eq)]
pub struct UuidAsHex;

impl Transcoding for UuidAsHex {
    ghost word = { codes "uuid_hex" };

    ghost transcoded = { kinds.Uuid };

    fn name(&self) -> &'static [u8] {
        b"uuid_hex"
    }

    fn kind(&self) -> AtomKind {
        AtomKind::Uuid
    }

    fn encode(&self, alloc: Global, atom: &Atom) -> Result<Text, NoMemory> {
        match atom {
            Atom::Uuid(id) => hex::id_text(alloc, id),
            _ => unreachable!(),
        }
    }

    fn decode(&self, _alloc: Global, text: &Text) -> Result<Option<Atom>, NoMemory> {
        match hex::id_in(text.as_str()) {
            Some(id) => Ok(Some(Atom::Uuid(id))),
            None => Ok(None),
        }
    }
}

/// A moment as its date and its time of day in UTC.
#[derive(Clone, Copy, Debug, PartialEq, Eq)]
pub struct DatetimeAsIso;

impl Transcoding for DatetimeAsIso {
    ghost word = { codes "datetime_iso" };

    ghost transcoded = { kinds.Moment };

    fn name(&self) -> &'static [u8] {
        b"datetime_iso"
    }

    fn kind(&self) -> AtomKind {
        AtomKind::Moment
    }

    fn encode(&self, alloc: Global, atom: &Atom) -> Result<Text, NoMemory> {
        match atom {
            Atom::Moment(moment) => datetime::text_of(alloc, *moment),
            _ => unreachable!(),
        }
    }

    fn decode(&self, alloc: Global, text: &Text) -> Result<Option<Atom>, NoMemory> {
        match datetime::moment_in(alloc, text.as_str())? {
            Some(moment) => Ok(Some(Atom::Moment(moment))),
            None => Ok(None),
        }
    }
}

/// A decimal as its digits with a point.
#[derive(Clone, Copy, Debug, PartialEq, Eq)]
pub struct DecimalAsStr;

impl Transcoding for DecimalAsStr {
    ghost word = { codes "decimal_str" };

    ghost transcoded = { kinds.Decimal };

    fn name(&self) -> &'static [u8] {
        b"decimal_str"
    }

    fn kind(&self) -> AtomKind {
        AtomKind::Decimal
    }

    fn encode(&self, alloc: Global, atom: &Atom) -> Result<Text, NoMemory> {
        match atom {
            Atom::Decimal(decimal) => {
                let text = decimal::text_of(alloc, *decimal)?;
                Text::from_str(alloc, text.as_str())
            }
            _ => unreachable!(),
        }
    }

    fn decode(&self, alloc: Global, text: &Text) -> Result<Option<Atom>, NoMemory> {
        match decimal::decimal_of(alloc, text.as_str())? {
            Some(decimal) => Ok(Some(Atom::Decimal(decimal))),
            None => Ok(None),
        }
    }
}
