//! What texts say and why they are refused, at the edges of each rule.

mod printed;
mod refused;

use crate::{ScriptStop, Scripts, read};
use std::alloc::{AllocError, Global};
use std::process::Abort;
use std::test::Fail;

// The scripts of the text.
fn scripts_of(rt: &impl Abort, alloc: Global, text: &[u8]) -> Result<Scripts, Fail> {
    assert!(rt; text.len() < 100_000_000);
    Ok(read(alloc, text)?)
}

// The text is refused at this line, by this number.
fn is_refused(rt: &impl Abort, alloc: Global, text: &[u8], line: u32, number: u32) {
    assert!(rt; text.len() < 100_000_000);
    match read(alloc, text) {
        Err(
            ScriptStop::Refused {
                line: at,
                number: refusal,
            },
        ) => assert_eq!(rt; (at, refusal), (line, number)),
        _ => assert!(rt; false, "not refused at line {line}"),
    }
}

// So many copies of a line between a front and a back.
fn repeated(
    alloc: Global,
    front: &[u8],
    line: &[u8],
    count: u32,
    back: &[u8],
) -> Result<Vec<u8>, AllocError> {
    let mut text = Vec::from_slice(alloc, front)?;
    for _ in 0..count {
        text.extend_from_slice(line)?;
    }
    text.extend_from_slice(back)?;
    Ok(text)
}
