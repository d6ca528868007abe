ghost use Rattle.std.specs.Prelude.{◌≡◌, [], ◌∷◌, ◌++◌, decimal, IfOk, OnOk};
ghost use Rattle.json.specs.Print.{print};
ghost use Rattle.json.specs.Token.{begin_object, end_object, key, number};
ghost use Rattle.es_transcode.specs.Written.{Adds};
ghost use Rattle.es_lines.specs.inner.Objects.{Begun, text_tokens};

use es_model::{Bytes, NoMemory};
use json::Writer;
use std::alloc::{AllocError, Global};

// An object that is a whole text, begun.
pub(crate) fn begun(alloc: Global) -> Result<Writer, NoMemory>
    ensures { IfOk result Begun }
{
    let mut out = Writer::new(Vec::with_capacity(alloc, 96)?);
    out.begin_object()?;
    Ok(out)
}

// The text of the object, which ends.
pub(crate) fn ended(mut out: Writer) -> Result<Bytes, NoMemory>
    ensures { IfOk result (λ text. text ≡ out.before ++ print (out.tokens ++ end_object ∷ [])) }
{
    out.end_object()?;
    Ok(Bytes::from_vec(out.into_inner()))
}

// A member whose value is a number.
pub(crate) fn put_number(out: &mut Writer, name: &str, value: u64) -> Result<(), AllocError>
    ensures { OnOk result (Adds out.old out.new (key name.now ∷ number (decimal value) ∷ [])) }
{
    out.key(name)?;
    out.u64(value)
}

// A member whose value is a text.
pub(crate) fn put_text(out: &mut Writer, name: &str, value: &str) -> Result<(), AllocError>
    ensures { OnOk result (Adds out.old out.new (text_tokens name.now value.now)) }
{
    out.key(name)?;
    out.string(value)
}
