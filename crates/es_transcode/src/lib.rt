//! The texts of values: ids, moments and decimals have one text each, and a record of fields has one
//! canonical text in JSON.
//!
//! The definitions that contracts cite are in `specs/`: the calendar's text of a moment, the texts of
//! atoms, the tree and the text of a record, and what is read from a tree or is its first fault.
#![tactic(auto)]

mod civil;
mod datetime;
mod decimal;
mod decoding;
mod digits;
mod encoding;
mod fault;
mod hex;
mod transcoding;
mod tree;

pub use decoding::{decode_record, decode_tree};
pub use encoding::{encode_record, write_record};
pub use fault::DecodeFault;
pub use hex::{id_of, id_text};
pub use transcoding::{DatetimeAsIso, DecimalAsStr, Transcoding, UuidAsHex};
pub use tree::read_tree;
