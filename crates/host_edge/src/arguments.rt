//! The arguments of the program.

use std::alloc::{AllocError, Global};
use std::env::FillError;
use std::rt::Env;

/// The number of bytes that are tried first for an argument, doubled while it has more.
const FIRST_SIZE: usize = 256;

/// The argument with this number, if there is one.
fn argument(rt: &impl Env, alloc: Global, number: usize) -> Result<Option<String>, AllocError> {
    let mut size = FIRST_SIZE;
    for _ in 0..usize::BITS {
        let mut bytes = vec![in alloc; 0; size]?;
        match rt.arg(number, &mut bytes) {
            Ok(length) => {
                bytes.truncate(length);
                let text = String::from_utf8(bytes).unwrap_or(String::new(alloc));
                return Ok(Some(text));
            }
            Err(FillError::NotPresent) => return Ok(None),
            Err(FillError::TooLong) => size = size.saturating_mul(2),
        }
    }
    // No memory holds an argument that is too long for the last size, of half the address space.
    Err(AllocError)
}

/// All arguments after the program's name, in order.
///
/// No clause says which, since none says what the machine holds. An argument that is not UTF-8
/// counts as an empty one, so that those after it keep their places. Arguments may have any number
/// of bytes. The only error is out of memory.
pub fn all_arguments(rt: &impl Env, alloc: Global) -> Result<Vec<String>, AllocError> {
    let mut texts = Vec::new(alloc);
    for number in 1..usize::MAX {
        match argument(rt, alloc, number)? {
            Some(text) => texts.push(text)?,
            None => break,
        }
    }
    Ok(texts)
}
