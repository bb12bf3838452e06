//! The tokens of a program's text.
#![tactic(auto)]

mod byte;
mod fault;
mod front;
mod laws;
mod quoted;
mod scan;
mod token;

pub use fault::TextFault;
pub use laws::{
    no_text_has_two_token_lists, no_tokens_at_a_fault, tokens_are_in_order, tokens_are_spelled,
};
pub use scan::tokens;
pub use token::{Token, TokenKind};
