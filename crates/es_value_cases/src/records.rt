//! Cases of records: the canonical text of one, or its fault.

use es_model::Fields;
use es_suite::given;
use es_suite::told::{self, Members};
use es_transcode::{DecodeFault, decode_record, decode_tree, encode_record, read_tree};
use serde_json::Value;
use std::alloc::Global;

// The canonical text of what was read, or the fault.
fn told_of(alloc: Global, read: Result<Fields, DecodeFault>) -> anyhow::Result<Value> {
    match read {
        Ok(fields) => {
            let text = encode_record(alloc, &fields)?;
            let mut told = Members::new(alloc);
            told.put_bytes("text", text.as_slice());
            told.end()
        }
        Err(fault) => told::fault(alloc, told::of_record(fault)),
    }
}

// What is read by way of the tree.
fn of_tree(alloc: Global, bytes: &[u8]) -> anyhow::Result<Value> {
    match read_tree(alloc, bytes)? {
        Some(tree) => told_of(alloc, decode_tree(alloc, &tree)),
        None => told::fault(alloc, "NotJson"),
    }
}

// What is read of some bytes, which is the same by way of the tree.
fn of_bytes(alloc: Global, bytes: &[u8]) -> anyhow::Result<Value> {
    let answer = told_of(alloc, decode_record(alloc, bytes))?;
    let again = of_tree(alloc, bytes)?;
    if answer == again {
        Ok(answer)
    } else {
        Err(anyhow::anyhow!("another answer by way of the tree"))
    }
}

/// The answer of a case.
pub(crate) fn answer(alloc: Global, case: &Value) -> anyhow::Result<Value> {
    let bytes = given::bytes(alloc, given::member(case, "record")?)?;
    of_bytes(alloc, bytes.as_slice())
}
