ghost use Rattle.std.specs.Prelude.{◌≡◌, Err, Some, option_map};
ghost use Rattle.serde_json.specs.Data.{Data};
ghost use Rattle.serde_json.specs.View.{view, items_view, members_view};
ghost use Rattle.es_decl.specs.Readings.{Reading, Reads};
ghost use Rattle.es_decl.specs.Parts as spec;

use crate::DeclFault;
use crate::fault::{around, here, in_item, in_member};
use crate::names::test_name;
use es_model::names::NameForm;
use es_model::{Code, List, Rising, Text};
use serde_json::Value;
use std::alloc::Global;
use std::collections::BTreeMap;

/// How a part of the document is read from its tree.
pub(crate) trait Part: Drop {
    type Read: Drop;

    ghost meaning: { Self → Data → Reading Self.Read };

    fn read(&self, alloc: Global, tree: &Value) -> Result<Self::Read, DeclFault>
        ensures { Reads (meaning self.now (view tree.now)) result };
}

/// A member that has to be there.
pub(crate) fn member<P: Part>(
    alloc: Global,
    tree: &Value,
    name: &str,
    part: &P,
) -> Result<P::Read, DeclFault>
    ensures { Reads (spec.member name.now (P.meaning part.now) (view tree.now)) result }
{
    match tree.get(name) {
        Some(value) => in_member(alloc, name, part.read(alloc, value)),
        None => here(alloc, Code::Form),
    }
}

// A value that is there.
fn some<P: Part>(alloc: Global, value: &Value, part: &P) -> Result<Option<P::Read>, DeclFault>
    ensures { Reads (spec.some (P.meaning part.now) (view value.now)) result }
{
    let read = part.read(alloc, value)?;
    Ok(Some(read))
}

/// A member that may be absent.
pub(crate) fn optional<P: Part>(
    alloc: Global,
    tree: &Value,
    name: &str,
    part: &P,
) -> Result<Option<P::Read>, DeclFault>
    ensures { Reads (spec.optional name.now (P.meaning part.now) (view tree.now)) result }
{
    match tree.get(name) {
        Some(value) => in_member(alloc, name, some(alloc, value, part)),
        None => Ok(None),
    }
}

/// Lets go what was read before a fault, and gives the fault.
pub(crate) fn given_up<A: Drop, B: Drop>(_read: A, fault: DeclFault) -> Result<B, DeclFault>
    ensures { result ≡ Err fault }
{
    Err(fault)
}

/// What stands for an absent member.
pub(crate) fn or_else<T: Drop>(absent: T, read: Option<T>) -> T
    ensures { result ≡ spec.or_else absent read }
{
    match read {
        Some(read) => read,
        None => absent,
    }
}

/// A name of a form.
impl Part for NameForm {
    type Read = Text;

    ghost meaning = { spec.name };

    fn read(&self, alloc: Global, tree: &Value) -> Result<Text, DeclFault> {
        match tree {
            Value::String(text) => {
                test_name(alloc, *self, text.as_str())?;
                Ok(Text::from_str(alloc, text.as_str())?)
            }
            _ => here(alloc, Code::Form),
        }
    }
}

/// A whole number in a range.
#[derive(Drop)]
pub(crate) struct Number {
    pub least: u64,
    pub most: u64,
}

impl Part for Number {
    type Read = u64;

    ghost meaning = { λ s. spec.whole s.least s.most };

    fn read(&self, alloc: Global, tree: &Value) -> Result<u64, DeclFault> {
        match tree {
            Value::Number(number) => match number.as_i64() {
                Some(number) => {
                    if number >= 0 && self.least <= number as u64 && number as u64 <= self.most {
                        Ok(number as u64)
                    } else {
                        here(alloc, Code::Limit)
                    }
                }
                None => here(alloc, Code::Form),
            },
            _ => here(alloc, Code::Form),
        }
    }
}

/// An array of like parts, at least and at most so many.
#[derive(Drop)]
pub(crate) struct Several<P> {
    pub least: usize,
    pub most: Option<usize>,
    pub part: P,
}

// Whether so many are at least and at most as many as are wanted.
fn is_within(least: usize, most: Option<usize>, count: usize) -> bool
    ensures { result ≡ spec.is_within least most count }
{
    match most {
        Some(most) => least <= count && count <= most,
        None => least <= count,
    }
}

fn each_item<P: Part>(alloc: Global, part: &P, trees: &[Value]) -> Result<List<P::Read>, DeclFault>
    ensures { Reads (spec.each_item (P.meaning part.now) 0 (items_view trees.now)) result }
{
    let mut all = List::new(alloc);
    for (place, tree) in trees.iter().enumerate() {
        match in_item(alloc, place, part.read(alloc, tree)) {
            Ok(read) => all.push(read)?,
            Err(fault) => return Err(fault),
        }
    }
    Ok(all)
}

impl<P: Part> Part for Several<P> {
    type Read = List<P::Read>;

    ghost meaning = { λ s. spec.several s.least s.most (P.meaning s.part) };

    fn read(&self, alloc: Global, tree: &Value) -> Result<List<P::Read>, DeclFault> {
        match tree {
            Value::Array(trees) => {
                let trees = trees.as_slice();
                if is_within(self.least, self.most, trees.len()) {
                    each_item(alloc, &self.part, trees)
                } else {
                    here(alloc, Code::Limit)
                }
            }
            _ => here(alloc, Code::Form),
        }
    }
}

/// An object of named parts, at most so many.
#[derive(Drop)]
pub(crate) struct NamedParts<P> {
    pub form: NameForm,
    pub most: Option<usize>,
    pub part: P,
}

fn with_name<P: Part>(
    alloc: Global,
    form: NameForm,
    part: &P,
    name: &str,
    tree: &Value,
) -> Result<(Text, P::Read), DeclFault>
    ensures { Reads (spec.with_name form (P.meaning part.now) name.now (view tree.now)) result }
{
    match around(part.read(alloc, tree), test_name(alloc, form, name)) {
        Ok(read) => Ok((Text::from_str(alloc, name)?, read)),
        Err(fault) => Err(fault),
    }
}

fn each_member<P: Part>(
    alloc: Global,
    form: NameForm,
    part: &P,
    members: &BTreeMap<String, Value>,
) -> Result<Rising<P::Read>, DeclFault>
    ensures { Reads (spec.each_member form (P.meaning part.now) (members_view members.now.entries)) result }
{
    let mut all = Rising::new(alloc);
    for (name, tree) in members.iter() {
        let name = name.as_str();
        match in_member(alloc, name, with_name(alloc, form, part, name, tree)) {
            Ok(entry) => all.push(entry)?,
            Err(fault) => return Err(fault),
        }
    }
    Ok(all)
}

impl<P: Part> Part for NamedParts<P> {
    type Read = Rising<P::Read>;

    ghost meaning = { λ s. spec.named_parts s.form s.most (P.meaning s.part) };

    fn read(&self, alloc: Global, tree: &Value) -> Result<Rising<P::Read>, DeclFault> {
        match tree {
            Value::Object(members) => {
                if is_within(0, self.most, members.len()) {
                    each_member(alloc, self.form, &self.part, members)
                } else {
                    here(alloc, Code::Limit)
                }
            }
            _ => here(alloc, Code::Form),
        }
    }
}
