ghost use Rattle.std.specs.Prelude.{◌≡◌, OnOk, IfOk, ◌++◌, string_bytes};
ghost use Rattle.es_decl.specs.Paths.{escaped, escaped_char, member_step, item_step};
ghost use Rattle.es_decl.specs.Readings.{Reading, Reads, under, around};
ghost use Rattle.es_decl.specs.Readings as spec;
ghost use Rattle.es_decl.specs.declared.fault.DeclFault.TheVariants as faults;

use es_model::{Code, NoMemory, Text};
use std::alloc::{AllocError, Global};
use thiserror::Error;

/// Why a document is no declaration, and where, as a JSON pointer.
#[derive(Debug, Drop, Error)]
pub enum DeclFault {
    #[error("no declaration: {code:?}")]
    At { code: Code, path: Text },
    #[error("out of memory")]
    NoMemory,
}

impl From<NoMemory> for DeclFault {
    ghost use Rattle.std.specs.Prelude.{◌≡◌};
    ghost use Rattle.es_decl.specs.declared.fault.DeclFault.TheVariants as faults;

    ghost from_gives = { λ _ e. e ≡ faults.NoMemory };

    fn from(_: NoMemory) -> DeclFault {
        DeclFault::NoMemory
    }
}

impl From<AllocError> for DeclFault {
    ghost use Rattle.std.specs.Prelude.{◌≡◌};
    ghost use Rattle.es_decl.specs.declared.fault.DeclFault.TheVariants as faults;

    ghost from_gives = { λ _ e. e ≡ faults.NoMemory };

    fn from(_: AllocError) -> DeclFault {
        DeclFault::NoMemory
    }
}

// Adds a character of a name, `~` as `~0` and `/` as `~1`.
fn push_escaped(path: &mut String, letter: char) -> Result<(), NoMemory>
    ensures { OnOk result (string_bytes path.new ≡ string_bytes path.old ++ escaped_char letter) }
{
    match letter {
        '~' => path.push_str("~0")?,
        '/' => path.push_str("~1")?,
        _ => path.push(letter)?,
    }
    Ok(())
}

fn push_name(path: &mut String, name: &str) -> Result<(), NoMemory>
    ensures { OnOk result (string_bytes path.new ≡ string_bytes path.old ++ escaped name.now) }
{
    for letter in name.chars() {
        push_escaped(path, letter)?;
    }
    Ok(())
}

fn member_step(alloc: Global, name: &str) -> Result<String, NoMemory>
    ensures { IfOk result (λ s. string_bytes s ≡ member_step name.now) }
{
    let mut step = String::from_str(alloc, "/")?;
    push_name(&mut step, name)?;
    Ok(step)
}

fn item_step(alloc: Global, place: usize) -> Result<String, NoMemory>
    ensures { IfOk result (λ s. string_bytes s ≡ item_step place) }
{
    Ok(format!(in alloc; "/{place}")?)
}

/// A fault of the value itself.
pub(crate) fn here<T: Drop>(alloc: Global, code: Code) -> Result<T, DeclFault>
    ensures { Reads (spec.here code) result }
{
    let path = Text::from_str(alloc, "")?;
    Err(DeclFault::At { code, path })
}

// A fault of what stands a step below.
fn below<T: Drop>(alloc: Global, mut step: String, code: Code, path: &Text) -> Result<T, DeclFault>
    ensures { (r : Reading T) → Reads r (Err (faults.At code path.now)) → Reads (under (string_bytes step) r) result }
{
    step.push_str(path.as_str())?;
    let path = Text::from_str(alloc, step.as_str())?;
    Err(DeclFault::At { code, path })
}

/// What was read of a member, as a part of its object.
pub(crate) fn in_member<T: Drop>(
    alloc: Global,
    name: &str,
    read: Result<T, DeclFault>,
) -> Result<T, DeclFault>
    ensures { (r : Reading T) → Reads r read → Reads (under (member_step name.now) r) result }
{
    match read {
        Err(DeclFault::At { code, path }) => below(alloc, member_step(alloc, name)?, code, &path),
        _ => read,
    }
}

/// What was read of an item, as a part of its array.
pub(crate) fn in_item<T: Drop>(
    alloc: Global,
    place: usize,
    read: Result<T, DeclFault>,
) -> Result<T, DeclFault>
    ensures { (r : Reading T) → Reads r read → Reads (under (item_step place) r) result }
{
    match read {
        Err(DeclFault::At { code, path }) => below(alloc, item_step(alloc, place)?, code, &path),
        _ => read,
    }
}

// A fault, before what a test finds where it is one of the value itself.
fn around_fault<T: Drop>(fault: DeclFault, test: Result<(), DeclFault>) -> Result<T, DeclFault>
    ensures { (r : Reading T) (t : Reading (Unit {0})) → Reads r (Err fault) → Reads t test → Reads (around r t) result }
{
    match fault {
        DeclFault::At { code, path } => {
            if !path.as_str().is_empty() {
                test?;
            }
            Err(DeclFault::At { code, path })
        }
        DeclFault::NoMemory => Err(DeclFault::NoMemory),
    }
}

/// What was read, where a test finds nothing. A fault of the value itself comes before the test's.
pub(crate) fn around<T: Drop>(
    read: Result<T, DeclFault>,
    test: Result<(), DeclFault>,
) -> Result<T, DeclFault>
    ensures { (r : Reading T) (t : Reading (Unit {0})) → Reads r read → Reads t test → Reads (around r t) result }
{
    match read {
        Ok(value) => {
            test?;
            Ok(value)
        }
        Err(fault) => around_fault(fault, test),
    }
}
