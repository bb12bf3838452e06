//! Which texts are accepted.

ghost use Rattle.std.specs.Prelude.{◌≡◌, ◌≤◌, ℕ, List, IfOk, length};
ghost use Rattle.clu_tree.specs.declared.program.Program.{Program};
ghost use Rattle.clu_reader.specs.Accepted.{IsAccepted};

use crate::fault::{AcceptFault, CheckFault};
use crate::program::{no_text_has_two_trees, read_program};
use crate::typing::check;
use clu_expr_reader::ReadFault;
use clu_text::{TextFault, no_tokens_at_a_fault, tokens};
use clu_tree::Program;
use std::alloc::Global;

/// The line of a byte, counted from 1.
fn line_at(text: &[u8], place: u32) -> u32
    requires { length text.now ≤ 1048576 }
{
    let before = text.get(..place as usize).unwrap_or(text);
    1 + before.iter().filter(|b| **b == b'\n').count() as u32
}

/// The program that the text is, if it is accepted: if it reads as a program that is typed.
pub fn accept(alloc: Global, text: &[u8]) -> Result<Program, AcceptFault>
    requires { length text.now ≤ 1048576 }
    ensures ok { IfOk result (λ p. IsAccepted text.now p) }
    ensures refused { (line : ℕ) → result ≡ Err (AcceptFault.Refused line) → (p : Program) → IsAccepted text.now p → ⊥ }
{
    no_text_has_two_trees();
    no_tokens_at_a_fault();
    let found = match tokens(alloc, text) {
        Ok(found) => found,
        Err(TextFault::BadByte(place)) => return Err(AcceptFault::Refused(line_at(text, place))),
        Err(TextFault::Wide(place)) => return Err(AcceptFault::Refused(line_at(text, place))),
        Err(TextFault::Memory) => return Err(AcceptFault::Memory),
    };
    let program = match read_program(alloc, text, found.as_slice()) {
        Ok(program) => program,
        Err(ReadFault::Syntax(line)) => return Err(AcceptFault::Refused(line)),
        Err(ReadFault::Memory) => return Err(AcceptFault::Memory),
    };
    match check(&program) {
        Ok(()) => Ok(program),
        Err(CheckFault::NotTyped(line)) => Err(AcceptFault::Refused(line)),
    }
}
