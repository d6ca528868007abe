ghost use Rattle.std.specs.Prelude.{◌≡◌, ◌++◌, ◌≤◌, ◌<◌, ◌^◌, ◌*◌, ◌+◌, IfOk, IfSome, OnOk, Some, List, ℕ, ℤ, length, string_bytes, unsigned_abs, FitsSigned, decimal, pos, int_lt, ◌/◌, ◌%◌, drop};
ghost use Rattle.std.specs.Int.{w64};
ghost use Rattle.es_model.specs.declared.value.Atom.TheVariants as atoms;
ghost use Rattle.es_model.specs.Scaled.{Scaled};
ghost use Rattle.es_model.specs.Values.{IsValid};
ghost use Rattle.es_transcode.specs.Texts.{sign, places_text, decimal_text, point_of};
ghost use Rattle.es_transcode.specs.inner.Unsigned.{IsUnsigned};
ghost use Rattle.es_transcode.specs.Padded.{padded};

use crate::digits::{number_of, push_digits};
use es_model::{Decimal, NoMemory};
use std::alloc::Global;

// No decimal has a text of more bytes.
const LONGEST: usize = 28;

// How many units make one, with so many places.
fn unit_of(scale: u8) -> u64
    requires { scale ≤ 6 }
    ensures unit { result ≡ 10 ^ scale }
    ensures positive { 0 < result }
{
    match scale {
        0 => 1,
        1 => 10,
        2 => 100,
        3 => 1000,
        4 => 10_000,
        5 => 100_000,
        _ => 1_000_000,
    }
}

fn push_sign(text: &mut String, digits: i64) -> Result<(), NoMemory>
    ensures { OnOk result (string_bytes text.new ≡ string_bytes text.old ++ sign digits) }
{
    if digits < 0 {
        text.push_str("-")?;
    }
    Ok(())
}

fn push_places(text: &mut String, number: u64, places: u8) -> Result<(), NoMemory>
    ensures { OnOk result (string_bytes text.new ≡ string_bytes text.old ++ places_text places number) }
{
    if places == 0 {
        return Ok(());
    }
    text.push_str(".")?;
    push_digits(text, number, places)
}

/// The text of a decimal.
pub(crate) fn text_of(alloc: Global, decimal: Decimal) -> Result<String, NoMemory>
    ensures text { IfOk result (λ t. string_bytes t ≡ decimal_text decimal) }
    ensures valid { IsValid (atoms.Decimal decimal) }
{
    let magnitude = decimal.digits().unsigned_abs();
    let unit = unit_of(decimal.scale());
    let whole = magnitude / unit;
    let mut text = String::new(alloc);
    push_sign(&mut text, decimal.digits())?;
    write!(text, "{whole}")?;
    push_places(&mut text, magnitude % unit, decimal.scale())?;
    Ok(text)
}

// Whether there is a minus in front, and what is left.
fn unsigned(text: &[u8]) -> (bool, &[u8])
    ensures { IsUnsigned text.now result.0 result.1.now }
{
    match text {
        [first, rest @ ..] if *first == b'-' => (true, rest),
        _ => (false, text),
    }
}

// How many bytes stand in front of the point.
fn point_at(text: &[u8]) -> usize
    ensures value { result ≡ point_of text.now }
    ensures most { result ≤ length text.now }
{
    match text {
        [first, rest @ ..] if *first != b'.' => point_at(rest) + 1,
        _ => 0,
    }
}

// The places behind the point.
fn places_of(text: &[u8]) -> &[u8]
    ensures { result.now ≡ drop 1 text.now }
{
    match text {
        [_, places @ ..] => places,
        [] => text,
    }
}

// The whole number of units that the digits in front of a point and behind it make.
fn magnitude_of(whole: &[u8], places: &[u8]) -> u64
    requires { length places.now ≤ 6 }
    ensures { (n : ℕ) → n < 2 ^ 64 → whole.now ≡ decimal (n / 10 ^ length places.now) → places.now ≡ padded (length places.now) (n % 10 ^ length places.now) → result ≡ n }
{
    number_of(whole)
        .wrapping_mul(unit_of(places.len() as u8))
        .wrapping_add(number_of(places))
}

fn signed(is_negative: bool, magnitude: u64) -> Option<i64>
    ensures { (z : ℤ) → FitsSigned w64 z → magnitude ≡ unsigned_abs z → is_negative ≡ int_lt z (pos 0) → result ≡ Some z }
{
    if !is_negative {
        return i64::try_from(magnitude).ok();
    }
    if magnitude == 0 || magnitude > 1 << 63 {
        return None;
    }
    Some(-((magnitude - 1) as i64) - 1)
}

// The decimal that stands in a text, if the text is that of one.
fn decimal_in(text: &[u8]) -> Option<Decimal>
    ensures { (d : Scaled) → FitsSigned w64 d.digits → d.scale ≤ 6 → text.now ≡ decimal_text d → result ≡ Some d }
{
    let (is_negative, rest) = unsigned(text);
    let (whole, point) = rest.split_at(point_at(rest));
    let places = places_of(point);
    if places.len() > 6 {
        return None;
    }
    match signed(is_negative, magnitude_of(whole, places)) {
        Some(digits) => Decimal::new(digits, places.len() as u8),
        None => None,
    }
}

/// The decimal that has a text.
pub(crate) fn decimal_of(alloc: Global, text: &str) -> Result<Option<Decimal>, NoMemory>
    ensures text { IfOk result (λ o. IfSome o (λ d. text.now ≡ decimal_text d)) }
    ensures valid { IfOk result (λ o. IfSome o (λ d. IsValid (atoms.Decimal d))) }
    ensures found { IfOk result (λ o. (d : Scaled) → FitsSigned w64 d.digits → d.scale ≤ 6 → text.now ≡ decimal_text d → o ≡ Some d) }
{
    if text.len() > LONGEST {
        return Ok(None);
    }
    let Some(decimal) = decimal_in(text.as_bytes()) else {
        return Ok(None);
    };
    let written = text_of(alloc, decimal)?;
    if written.as_str() == text {
        Ok(Some(decimal))
    } else {
        Ok(None)
    }
}
