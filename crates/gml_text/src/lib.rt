//! GML in both directions: bytes as a tree of pairs, and a tree as bytes.
//!
//! A document is pairs of a key and a value, and a value is a number, a string or a list of pairs.
//! `parse` reads the tree of a document, `find` finds a pair by its key, and `push_printed` and
//! `print` write a tree in its one printed form. Bytes of keys, numbers and strings are kept as
//! they were written, so an unknown key is preserved.
//!
//! # The grammar
//!
//! - White space is space, tab, line feed and carriage return. A `#` outside a string begins a
//!   comment, which ends before the next line feed or at the end, and counts as white space.
//! - A word is a longest run of letters, digits, `_`, `+`, `-` and `.`, and is a key or a number.
//! - A key is a letter or `_`, then letters, digits and `_`.
//! - A number is an optional sign `+` or `-`, then digits with at most one point before, among or
//!   after them and at least one digit in all, then optionally `E` or `e`, an optional sign and at
//!   least one digit.
//! - A string is `"`, any bytes but `"`, and `"`. A list is `[`, pairs and `]`.
//!
//! White space may stand before, between and after these, and must stand between two words. At most
//! 64 lists may be open.
#![tactic(auto)]

mod fault;
mod laws;
mod read;
mod reader;
mod scan;
mod search;
mod token;
mod tree;
mod write;

pub use fault::GmlFault;
pub use laws::{printed_is_read, read_once, spelled_once};
pub use read::parse;
pub use search::find;
pub use tree::{Bytes, Doc, Pair, Value};
pub use write::{print, push_printed};
