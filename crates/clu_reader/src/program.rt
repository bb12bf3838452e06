//! The text of a program.

ghost use Rattle.std.specs.Prelude.{◌≡◌, ◌≤◌, ℕ, List, IfOk, length};
ghost use Rattle.clu_tree.specs.declared.program.Program.{Program};
ghost use Rattle.clu_text.specs.Tokens.{HasTokens};
ghost use Rattle.clu_reader.specs.Reads.{Reads};

use clu_expr_reader::ReadFault;
use clu_grammar::no_text_has_two_trees as no_tokens_have_two_trees;
use clu_lexeme::{lexemes, no_tokens_are_two_lists};
use clu_program_reader::read_tokens;
use clu_text::{Token, no_text_has_two_token_lists, tokens_are_in_order, tokens_are_spelled};
use clu_tree::Program;
use std::alloc::Global;

/// The line of the last byte, counted from 1; of an empty text, 1.
fn last_line(text: &[u8]) -> u32
    requires { length text.now ≤ 1048576 }
{
    let before = &text[..text.len().saturating_sub(1)];
    1 + before.iter().filter(|b| **b == b'\n').count() as u32
}

/// The program that the text is, by its tokens, which are those that `tokens` of `clu_text` answers. `Syntax` comes
/// exactly where the text is no program, or nests statements, expressions and types more than 200 deep; it carries the
/// line of the token where reading failed, counted from 1.
pub fn read_program(alloc: Global, text: &[u8], tokens: &[Token]) -> Result<Program, ReadFault>
    requires short { length text.now ≤ 1048576 }
    requires scanned { HasTokens text.now tokens.now }
    ensures ok { IfOk result (λ p. Reads text.now p) }
    ensures syntax { (line : ℕ) → result ≡ Err (ReadFault.Syntax line) → (p : Program) → Reads text.now p → ⊥ }
{
    no_text_has_two_token_lists();
    no_tokens_are_two_lists();
    tokens_are_spelled();
    tokens_are_in_order();
    let found = lexemes(alloc, text, tokens)?;
    read_tokens(alloc, found.as_slice(), last_line(text))
}

/// No text has two trees.
pub fn no_text_has_two_trees()
    ensures { (text : List ℕ) (p q : Program) → Reads text p → Reads text q → p ≡ q }
{
    no_text_has_two_token_lists();
    no_tokens_are_two_lists();
    no_tokens_have_two_trees();
}
