ghost use Rattle.std.specs.Prelude.{◌≡◌, IfOk, IfSome, Some, ℤ, pos, ◌≤ℤ◌};
ghost use Rattle.es_model.specs.declared.value.Atom.TheVariants as atoms;
ghost use Rattle.es_model.specs.Values.{IsValid};
ghost use Rattle.es_transcode.specs.CivilText.{IsMomentText};

use crate::civil;
use es_model::{Moment, NoMemory, Text};
use std::alloc::Global;

/// The text of a moment.
pub(crate) fn text_of(alloc: Global, moment: Moment) -> Result<Text, NoMemory>
    ensures text { IfOk result (IsMomentText moment) }
    ensures valid { IsValid (atoms.Moment moment) }
{
    let text = civil::text_of(alloc, &civil::civil_of(moment))?;
    Text::from_str(alloc, text.as_str())
}

/// The moment that has a text.
pub(crate) fn moment_in(alloc: Global, text: &str) -> Result<Option<Moment>, NoMemory>
    ensures text { IfOk result (λ o. IfSome o (λ m. IsMomentText m text.now)) }
    ensures valid { IfOk result (λ o. IfSome o (λ m. IsValid (atoms.Moment m))) }
    ensures found { IfOk result (λ o. (m : ℤ) → pos 0 ≤ℤ m → m ≤ℤ pos 253402300799999999 → IsMomentText m text.now → o ≡ Some m) }
{
    let Some(civil) = civil::parts_of(text.as_bytes()) else {
        return Ok(None);
    };
    let Some(moment) = civil::moment_of(&civil) else {
        return Ok(None);
    };
    let written = civil::text_of(alloc, &civil)?;
    if written.as_str() == text {
        Ok(Some(moment))
    } else {
        Ok(None)
    }
}
