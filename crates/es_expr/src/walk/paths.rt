//! JSON pointers, and the halt of a walk at one.
ghost use Rattle.std.specs.Prelude.{◌≡◌, ◌++◌, OnOk, IfOk, string_bytes, take};
ghost use Rattle.std.specs.Str.{chars};
ghost use Rattle.es_expr.specs.inner.Walks.{Finds};
ghost use Rattle.es_expr.specs.Misfits.{misfit, unless, member, item, escaped, escaped_char};

use crate::misfit::{Halt, Misfit};
use es_model::{Code, Text};
use std::alloc::{AllocError, Global};
use std::fmt::Write;

// The items before a place.
pub(crate) fn before<T>(items: &[T], place: usize) -> &[T]
    ensures { result.now ≡ take place items.now }
{
    if place < items.len() {
        &items[..place]
    } else {
        items
    }
}

// A path with more behind it.
pub(crate) fn joined(alloc: Global, path: &str, more: &str) -> Result<String, AllocError>
    ensures { IfOk result (λ t. string_bytes t ≡ path.now ++ more.now) }
{
    let mut text = String::from_str(alloc, path)?;
    text.push_str(more)?;
    Ok(text)
}

// The path of an item of an array.
pub(crate) fn item_path(alloc: Global, path: &str, place: usize) -> Result<String, AllocError>
    ensures { IfOk result (λ t. string_bytes t ≡ item path.now place) }
{
    let mut text = joined(alloc, path, "/")?;
    write!(text, "{place}")?;
    Ok(text)
}

fn push_escaped(text: &mut String, c: char) -> Result<(), AllocError>
    ensures { OnOk result (string_bytes text.new ≡ string_bytes text.old ++ escaped_char c) }
{
    match c {
        '~' => text.push_str("~0"),
        '/' => text.push_str("~1"),
        _ => text.push(c),
    }
}

fn push_name(text: &mut String, name: &str) -> Result<(), AllocError>
    ensures { OnOk result (string_bytes text.new ≡ string_bytes text.old ++ escaped (chars name.now)) }
{
    for c in name.chars() {
        push_escaped(text, c)?;
    }
    Ok(())
}

// The path of a member of an object.
pub(crate) fn member_path(alloc: Global, path: &str, name: &str) -> Result<String, AllocError>
    ensures { IfOk result (λ t. string_bytes t ≡ member path.now name.now) }
{
    let mut text = joined(alloc, path, "/")?;
    push_name(&mut text, name)?;
    Ok(text)
}

// One fault.
pub(crate) fn halt(alloc: Global, code: Code, path: &str, more: &str) -> Result<(), Halt>
    ensures { Finds (misfit code (path.now ++ more.now)) result }
{
    let path = joined(alloc, path, more)?;
    let path = Text::from_str(alloc, path.as_str())?;
    Err(Halt::Found(Misfit { code, path }))
}

// One fault where a test fails.
pub(crate) fn halt_unless(
    alloc: Global,
    test: bool,
    code: Code,
    path: &str,
    more: &str,
) -> Result<(), Halt>
    ensures { Finds (unless test code (path.now ++ more.now)) result }
{
    if test {
        Ok(())
    } else {
        halt(alloc, code, path, more)
    }
}
