ghost use Rattle.std.specs.Prelude.{◌≡◌, IfOk, IfSome, Some, List, ℕ, IsTrue, ◌↔◌};
ghost use Rattle.uuid.specs.Text.{simple_text, lower, parsed};
ghost use Rattle.es_model.specs.declared.value.Atom.TheVariants as atoms;
ghost use Rattle.es_transcode.specs.Texts.{HasText};

use es_model::{NoMemory, Text};
use std::alloc::Global;
use uuid::Uuid;

/// The text of an id: its thirty-two hexadecimal digits in lower case.
pub fn id_text(alloc: Global, id: &Uuid) -> Result<Text, NoMemory>
    ensures { IfOk result (HasText (atoms.Uuid id.now)) }
{
    let mut buffer = Uuid::encode_buffer();
    Text::from_str(alloc, id.simple().encode_lower(&mut buffer))
}

/// The id that a text is read as, in any of the four forms and in either case.
pub fn id_of(text: &str) -> Option<Uuid>
    ensures { result ≡ parsed text.now }
{
    match Uuid::parse_str(text) {
        Ok(id) => Some(id),
        Err(_) => None,
    }
}

fn is_text_of(text: &str, id: &Uuid) -> bool
    ensures { IsTrue result ↔ (text.now ≡ simple_text lower id.now) }
{
    let mut buffer = Uuid::encode_buffer();
    let written: &str = id.simple().encode_lower(&mut buffer);
    text == written
}

/// The id that has a text.
pub(crate) fn id_in(text: &str) -> Option<Uuid>
    ensures text { IfSome result (λ u. HasText (atoms.Uuid u) text.now) }
    ensures found { (u : List ℕ) → HasText (atoms.Uuid u) text.now → result ≡ Some u }
{
    match id_of(text) {
        Some(id) => {
            if is_text_of(text, &id) {
                Some(id)
            } else {
                None
            }
        }
        None => None,
    }
}
