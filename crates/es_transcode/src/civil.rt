ghost use Rattle.std.specs.Prelude.{◌≡◌, ◌+◌, ◌*◌, ◌<◌, ◌+ℤ◌, ◌*ℤ◌, ℤ, IfOk, IfSome, IsSome, Some, ◌≤◌, ℕ, pos, ◌≤ℤ◌, OnOk, ◌++◌, string_bytes};
ghost use Rattle.jiff_core.specs.Calendar.{IsCivilDate, IsEpochDay};
ghost use Rattle.jiff_core.specs.Date.{epoch_day, IsYmd};
ghost use Rattle.es_transcode.specs.CivilText.{IsCivil, IsTime, micros_of, micros_of_day, iso_text, date_text, time_text, fraction_text};
ghost use Rattle.es_transcode.specs.declared.civil.Civil as civil_type;

use crate::digits::{number_of, push_digits};
use es_model::{Moment, NoMemory};
use jiff::ToSpan;
use jiff::civil::{self, Date};
use std::alloc::Global;

const MICROS_OF_DAY: u64 = 86_400_000_000;

/// A date of the calendar and a time of day, in UTC.
#[derive(Clone, Copy, Debug, PartialEq, Eq)]
pub(crate) struct Civil {
    pub year: u64,
    pub month: u64,
    pub day: u64,
    pub hour: u64,
    pub minute: u64,
    pub second: u64,
    pub micros: u64,
}

fn push_date(text: &mut String, civil: &Civil) -> Result<(), NoMemory>
    ensures { OnOk result (string_bytes text.new ≡ string_bytes text.old ++ date_text civil.now) }
{
    push_digits(text, civil.year, 4)?;
    text.push_str("-")?;
    push_digits(text, civil.month, 2)?;
    text.push_str("-")?;
    push_digits(text, civil.day, 2)
}

fn push_time(text: &mut String, civil: &Civil) -> Result<(), NoMemory>
    ensures { OnOk result (string_bytes text.new ≡ string_bytes text.old ++ time_text civil.now) }
{
    push_digits(text, civil.hour, 2)?;
    text.push_str(":")?;
    push_digits(text, civil.minute, 2)?;
    text.push_str(":")?;
    push_digits(text, civil.second, 2)
}

fn push_fraction(text: &mut String, civil: &Civil) -> Result<(), NoMemory>
    ensures { OnOk result (string_bytes text.new ≡ string_bytes text.old ++ fraction_text civil.now) }
{
    if civil.micros == 0 {
        return Ok(());
    }
    text.push_str(".")?;
    push_digits(text, civil.micros, 6)
}

/// The text, to the microsecond where there are any.
pub(crate) fn text_of(alloc: Global, civil: &Civil) -> Result<String, NoMemory>
    ensures { IfOk result (λ t. string_bytes t ≡ iso_text civil.now) }
{
    let mut text = String::new(alloc);
    push_date(&mut text, civil)?;
    text.push_str("T")?;
    push_time(&mut text, civil)?;
    push_fraction(&mut text, civil)?;
    text.push_str("+00:00")?;
    Ok(text)
}

/// What stands at the places of a text where the numbers stand.
pub(crate) fn parts_of(text: &[u8]) -> Option<Civil>
    ensures { (c : civil_type.Civil) → IsCivil c → text.now ≡ iso_text c → result ≡ Some c }
{
    if text.len() != 25 && text.len() != 32 {
        return None;
    }
    let micros = if text.len() == 32 {
        number_of(&text[20..26])
    } else {
        0
    };
    Some(Civil {
        year: number_of(&text[..4]),
        month: number_of(&text[5..7]),
        day: number_of(&text[8..10]),
        hour: number_of(&text[11..13]),
        minute: number_of(&text[14..16]),
        second: number_of(&text[17..19]),
        micros,
    })
}

// The first day of 1970.
fn epoch() -> Date
    ensures { epoch_day result ≡ pos 0 }
{
    civil::date(1970, 1, 1)
}

fn date_of(days: u64) -> Date
    requires { days ≤ 2932896 }
    ensures { epoch_day result ≡ pos days }
{
    epoch().checked_add((days as i64).days()).unwrap()
}

fn days_of(date: Date) -> i32
    ensures day { result ≡ epoch_day date }
    ensures range { IsEpochDay result }
{
    epoch().until(date).unwrap().get_days()
}

// A year from 1970 on.
fn year_of(date: Date) -> u64
    requires { pos 0 ≤ℤ epoch_day date }
    ensures { pos result ≡ date.year }
{
    date.year() as u64
}

// A day from 1970 on, with a time of day.
fn civil_at(date: Date, of_day: u64) -> Civil
    requires day { pos 0 ≤ℤ epoch_day date }
    requires time { of_day < 86400000000 }
    ensures civil { IsCivil result }
    ensures moment { micros_of result ≡ epoch_day date *ℤ pos 86400000000 +ℤ pos of_day }
{
    let seconds = of_day / 1_000_000;
    let minutes = seconds / 60;
    Civil {
        year: year_of(date),
        month: date.month() as u64,
        day: date.day() as u64,
        hour: minutes / 60,
        minute: minutes % 60,
        second: seconds % 60,
        micros: of_day % 1_000_000,
    }
}

/// The date and time of day of a moment.
pub(crate) fn civil_of(moment: Moment) -> Civil
    ensures civil { IsCivil result }
    ensures moment { micros_of result ≡ moment }
{
    let micros = moment.micros() as u64;
    civil_at(date_of(micros / MICROS_OF_DAY), micros % MICROS_OF_DAY)
}

// The date, if the calendar has it.
fn date_in(civil: &Civil) -> Option<Date>
    ensures date { IfSome result (λ d. (d.year ≡ pos civil.now.year) × (d.month ≡ civil.now.month) × (d.day ≡ civil.now.day)) }
    ensures found { IsCivilDate (pos civil.now.year) civil.now.month civil.now.day → IsSome result }
{
    if civil.year > 9999 || civil.month > 12 || civil.day > 31 {
        return None;
    }
    Date::new(civil.year as i16, civil.month as i8, civil.day as i8).ok()
}

// The microseconds from the beginning of the day, if the clock has the time.
fn time_in(civil: &Civil) -> Option<u64>
    ensures time { IfSome result (λ n. IsTime civil.now × (n ≡ micros_of_day civil.now)) }
    ensures found { IsTime civil.now → IsSome result }
{
    let Civil {
        hour,
        minute,
        second,
        micros,
        ..
    } = *civil;
    if hour < 24 && minute < 60 && second < 60 && micros < 1_000_000 {
        Some(((hour * 60 + minute) * 60 + second) * 1_000_000 + micros)
    } else {
        None
    }
}

fn micros_at(days: i32, of_day: u64) -> i64
    requires day { IsEpochDay days }
    requires time { of_day < 86400000000 }
    ensures { result ≡ days *ℤ pos 86400000000 +ℤ pos of_day }
{
    days as i64 * MICROS_OF_DAY as i64 + of_day as i64
}

/// The moment, if the calendar and the clock have it, and it is in range.
pub(crate) fn moment_of(civil: &Civil) -> Option<Moment>
    ensures moment { IfSome result (λ m. IsCivil civil.now × (micros_of civil.now ≡ m)) }
    ensures found { (m : ℤ) → IsCivil civil.now → micros_of civil.now ≡ m → pos 0 ≤ℤ m → m ≤ℤ pos 253402300799999999 → result ≡ Some m }
{
    let days = days_of(date_in(civil)?);
    let of_day = time_in(civil)?;
    Moment::new(micros_at(days, of_day))
}
