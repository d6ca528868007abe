ghost use Rattle.std.specs.Prelude.{◌≡◌, ◌++◌, ◌<◌, ◌^◌, ℕ, OnOk, length, string_bytes};
ghost use Rattle.es_transcode.specs.Padded.{padded};

use es_model::NoMemory;

/// Adds the last digits of a number, so many of them, with zeros in front.
pub(crate) fn push_digits(text: &mut String, number: u64, places: u8) -> Result<(), NoMemory>
    ensures { OnOk result (string_bytes text.new ≡ string_bytes text.old ++ padded places number) }
{
    if places == 0 {
        return Ok(());
    }
    push_digits(text, number / 10, places - 1)?;
    text.push((b'0' + (number % 10) as u8) as char)?;
    Ok(())
}

/// The number of which these are the digits.
pub(crate) fn number_of(digits: &[u8]) -> u64
    ensures { (n : ℕ) → n < 18446744073709551616 → n < 10 ^ length digits.now → digits.now ≡ padded (length digits.now) n → result ≡ n }
{
    match digits {
        [front @ .., last] => number_of(front)
            .wrapping_mul(10)
            .wrapping_add(last.wrapping_sub(b'0') as u64),
        [] => 0,
    }
}
