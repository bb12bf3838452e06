//! How texts are read.

use clu_reader::{ReadFault, read_program};
use clu_text::tokens;
use std::alloc::Global;
use std::process::Abort;

/// The line where reading a text fails, or 0 where the text reads.
pub fn failing_line(rt: &impl Abort, alloc: Global, text: &[u8]) -> u32 {
    assert!(rt; text.len() <= 1_048_576);
    let found = tokens(alloc, text).expect(rt, "tokens");
    match read_program(alloc, text, found.as_slice()) {
        Ok(_) => 0,
        Err(ReadFault::Syntax(line)) => line,
        Err(ReadFault::Memory) => panic!(rt; "memory ran out"),
    }
}

/// The same of statements, which stand from line 2 on in a routine that ends on the line of the last one.
pub fn failing_statement(rt: &impl Abort, alloc: Global, text: &str) -> u32 {
    let whole = repeated(rt, alloc, "p = proc ()\n", text, 1, "\tend p");
    failing_line(rt, alloc, whole.as_bytes())
}

/// The same of an expression, which stands on line 2.
pub fn failing_expression(rt: &impl Abort, alloc: Global, text: &str) -> u32 {
    let whole = repeated(rt, alloc, "x := ", text, 1, "");
    failing_statement(rt, alloc, whole.as_str())
}

/// A text of `piece` so many times, with what stands before and behind.
pub fn repeated(
    rt: &impl Abort,
    alloc: Global,
    before: &str,
    piece: &str,
    times: usize,
    behind: &str,
) -> String {
    let mut text = String::from_str(alloc, before).expect(rt, "memory");
    for _ in 0..times {
        text.push_str(piece).expect(rt, "memory");
    }
    text.push_str(behind).expect(rt, "memory");
    text
}
