ghost use Rattle.std.specs.Prelude.{◌≡◌, IfOk, option_map};
ghost use Rattle.serde_json.specs.Read.{read};
ghost use Rattle.serde_json.specs.View.{view};
ghost use Rattle.es_transcode.specs.Decoded.{tree_in};

use es_model::NoMemory;
use serde_json::Value;
use std::alloc::Global;

fn tree_of(alloc: Global, text: &str) -> Result<Option<Value>, NoMemory>
    ensures { IfOk result (λ o. option_map view o ≡ read text.now) }
{
    match Value::from_str(alloc, text) {
        Ok(tree) => Ok(Some(tree)),
        Err(error) => {
            if error.is_memory() {
                Err(NoMemory)
            } else {
                Ok(None)
            }
        }
    }
}

/// The tree of a text, or nothing where the bytes are no text in UTF-8, no JSON, or nest more than 127 levels.
pub fn read_tree(alloc: Global, bytes: &[u8]) -> Result<Option<Value>, NoMemory>
    ensures { IfOk result (λ o. option_map view o ≡ tree_in bytes.now) }
{
    match str::from_utf8(bytes) {
        Ok(text) => tree_of(alloc, text),
        Err(_) => Ok(None),
    }
}
