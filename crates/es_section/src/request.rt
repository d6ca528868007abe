ghost use Rattle.std.specs.Prelude.{◌≡◌, ◌≤◌, ◌<◌, length, true, IfSome, Some, None, nat_le, if◌then◌else◌};
ghost use Rattle.std.specs.Char.{is_ascii_digit};
ghost use Rattle.std.specs.List.{list_all};
ghost use Rattle.std.specs.Str.Parse.{digits_value};
ghost use Rattle.es_section.specs.Section.{number_of, bounds_of};
ghost use Rattle.es_model.specs.declared.limits.TheConstants.{MOST_ASKED};

use es_model::limits::{MOST_ASKED, MOST_DIGITS};

fn are_digits(text: &str) -> bool
    ensures { result ≡ list_all is_ascii_digit text.now }
{
    text.as_bytes().iter().all(|byte| byte.is_ascii_digit())
}

// The number that digits write, if it may be asked for.
fn value_of(digits: &str) -> Option<u64>
    requires some { 0 < length digits.now }
    requires digits { list_all is_ascii_digit digits.now ≡ true }
    ensures value { result ≡ (if nat_le (digits_value 10 digits.now) MOST_ASKED then Some (digits_value 10 digits.now) else None) }
    ensures small { IfSome result (λ n. n ≤ MOST_ASKED) }
{
    match digits.parse::<u64>() {
        Ok(value) => {
            if value <= MOST_ASKED {
                Some(value)
            } else {
                None
            }
        }
        Err(_) => None,
    }
}

// The number that a text is, if it is one that may be asked for.
fn number_of(text: &str) -> Option<u64>
    ensures value { result ≡ number_of text.now }
    ensures small { IfSome result (λ n. n ≤ MOST_ASKED) }
{
    if 1 <= text.len() && text.len() <= MOST_DIGITS && are_digits(text) {
        value_of(text)
    } else {
        None
    }
}

/// The first and the last id that a text asks for, if it is two numbers with a comma between them.
pub(crate) fn bounds_of(text: &str) -> Option<(u64, u64)>
    ensures value { result ≡ bounds_of text.now }
    ensures small { IfSome result (λ b. (b.0 ≤ MOST_ASKED) × (b.1 ≤ MOST_ASKED)) }
{
    let (first, last) = text.split_once(',')?;
    let first = number_of(first)?;
    let last = number_of(last)?;
    Some((first, last))
}
