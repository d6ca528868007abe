//! How names are spelled, and names with a point between them.
ghost use Rattle.std.specs.Prelude.{◌≡◌, IfOk, option_map};
ghost use Rattle.std.specs.List.{list_all, before_first, after_first};
ghost use Rattle.es_model.specs.Names as spec;

use crate::limits::MOST_NAME_BYTES;
use crate::{NoMemory, Text};
use std::alloc::Global;

/// How a name is spelled.
#[derive(Clone, Copy, Debug, PartialEq, Eq, Drop)]
pub enum NameForm {
    /// Of an application or a parameter: a lower-case letter, and then lower-case letters, digits and `_`.
    Plain,
    /// As a plain name, but for those that events keep for themselves.
    Field,
    /// As a plain name, but for the codes of refusals that no guard declares.
    Code,
    /// Of a class, an event or a command: an upper-case letter, and then letters and digits.
    Class,
}

fn is_in_lower_name(byte: u8) -> bool
    ensures { result ≡ spec.is_in_lower_name byte }
{
    matches!(byte, b'a'..=b'z' | b'0'..=b'9' | b'_')
}

fn is_in_upper_name(byte: u8) -> bool
    ensures { result ≡ spec.is_in_upper_name byte }
{
    matches!(byte, b'a'..=b'z' | b'A'..=b'Z' | b'0'..=b'9')
}

fn are_all_in_lower_name(bytes: &[u8]) -> bool
    ensures { result ≡ list_all spec.is_in_lower_name bytes.now }
{
    bytes.iter().all(|byte| is_in_lower_name(*byte))
}

fn are_all_in_upper_name(bytes: &[u8]) -> bool
    ensures { result ≡ list_all spec.is_in_upper_name bytes.now }
{
    bytes.iter().all(|byte| is_in_upper_name(*byte))
}

fn has_lower_form(name: &[u8]) -> bool
    ensures { result ≡ spec.has_lower_form name.now }
{
    match name {
        [b'a'..=b'z', rest @ ..] => are_all_in_lower_name(rest),
        _ => false,
    }
}

fn has_upper_form(name: &[u8]) -> bool
    ensures { result ≡ spec.has_upper_form name.now }
{
    match name {
        [b'A'..=b'Z', rest @ ..] => are_all_in_upper_name(rest),
        _ => false,
    }
}

// Names that events keep for themselves.
fn is_reserved_field(name: &str) -> bool
    ensures { result ≡ spec.is_reserved_field name.now }
{
    name == "timestamp"
        || name == "originator_id"
        || name == "originator_version"
        || name == "originator_topic"
        || name == "class_version"
}

// Codes of refusals that no guard declares.
fn is_reserved_code(name: &str) -> bool
    ensures { result ≡ spec.is_reserved_code name.now }
{
    name == "missing" || name == "exists" || name == "class" || name == "overflow"
}

/// Whether a text has the letters of a form, however long it is.
pub fn is_spelled(form: NameForm, name: &str) -> bool
    ensures { result ≡ spec.is_spelled form name.now }
{
    match form {
        NameForm::Plain => has_lower_form(name.as_bytes()),
        NameForm::Field => has_lower_form(name.as_bytes()) && !is_reserved_field(name),
        NameForm::Code => has_lower_form(name.as_bytes()) && !is_reserved_code(name),
        NameForm::Class => has_upper_form(name.as_bytes()),
    }
}

/// Whether a text has as many bytes as a name may have, and at least one.
pub fn has_name_length(name: &str) -> bool
    ensures { result ≡ spec.has_name_length name.now }
{
    1 <= name.len() && name.len() <= MOST_NAME_BYTES
}

/// Whether a text is a name of a form.
pub fn is_name(form: NameForm, name: &str) -> bool
    ensures { result ≡ spec.is_name form name.now }
{
    has_name_length(name) && is_spelled(form, name)
}

/// What stands before the one point of a text and what after it; none where there are more or fewer points.
pub fn halves(text: &str) -> Option<(&str, &str)>
    ensures { option_map (λ h. (h.0.now, h.1.now)) result ≡ spec.halves text.now }
{
    let (before, after) = text.split_once('.')?;
    if after.as_bytes().contains(&b'.') {
        return None;
    }
    Some((before, after))
}

/// What stands before the first point of a text and what after it; the text and nothing where there is no point.
pub fn halves_at_first(text: &str) -> (&str, &str)
    ensures before { result.0.now ≡ before_first spec.is_dot text.now }
    ensures after { result.1.now ≡ after_first spec.is_dot text.now }
{
    match text.split_once('.') {
        Some((before, after)) => (before, after),
        None => (text, ""),
    }
}

/// The topic of an event of a class: both names with a point between them.
pub fn topic_of(alloc: Global, class: &str, event: &str) -> Result<Text, NoMemory>
    ensures { IfOk result (λ t. t ≡ spec.topic_of class.now event.now) }
{
    let mut topic = String::from_str(alloc, class)?;
    topic.push_str(".")?;
    topic.push_str(event)?;
    Text::from_str(alloc, topic.as_str())
}
