ghost use Rattle.std.specs.Prelude.{◌≡◌, pos, ◌≤ℤ◌, IsSome, IfSome, ◌↔◌};

use crate::{Duplicate, NoMemory};
use std::marker::Model;

// The last microsecond of the year 9999.
const LAST_MICROS: i64 = 253402300799999999;

/// Microseconds since 1970 in UTC, to the end of the year 9999.
#[derive(Clone, Copy, Debug, PartialEq, Eq)]
pub struct Moment(i64);

impl Model for Moment {
    ghost use Rattle.std.specs.Prelude.{ℤ, pos, ◌≤ℤ◌};

    ghost Value = { ℤ };

    ghost view = { λ m. m.0 };

    ghost invariant = { λ m. (pos 0 ≤ℤ m.0) × (m.0 ≤ℤ pos 253402300799999999) };

    ghost inverse = { λ z. record { 0 = z } };
}

impl Moment {
    /// The moment that is so many microseconds after the beginning of 1970.
    pub fn new(micros: i64) -> Option<Moment>
        ensures range { IsSome result ↔ ((pos 0 ≤ℤ micros) × (micros ≤ℤ pos 253402300799999999)) }
        ensures value { IfSome result (λ m. m ≡ micros) }
    {
        if (0..=LAST_MICROS).contains(&micros) {
            Some(Moment(micros))
        } else {
            None
        }
    }

    /// The moment nearest to so many microseconds after the beginning of 1970.
    pub fn nearest(micros: i64) -> Moment
        ensures low { micros ≤ℤ pos 0 → result ≡ pos 0 }
        ensures high { pos 253402300799999999 ≤ℤ micros → result ≡ pos 253402300799999999 }
        ensures within { pos 0 ≤ℤ micros → micros ≤ℤ pos 253402300799999999 → result ≡ micros }
    {
        Moment(micros.clamp(0, LAST_MICROS))
    }

    /// The microseconds since the beginning of 1970.
    pub fn micros(self) -> i64
        ensures value { result ≡ self }
        ensures range { (pos 0 ≤ℤ result) × (result ≤ℤ pos 253402300799999999) }
    {
        self.0
    }
}

impl Duplicate for Moment {
    fn copy(&self) -> Result<Moment, NoMemory> {
        Ok(*self)
    }
}
