//! Tests of the readers of text: tokens, lexemes, trees, and lines of scripts and journals.
#![tactic(auto)]

#[cfg(test)]
mod accepting;
#[cfg(test)]
mod expression_trees;
#[cfg(test)]
mod expressions;
#[cfg(test)]
mod journals;
#[cfg(test)]
mod lexemes;
#[cfg(test)]
mod lines;
#[cfg(test)]
mod long_texts;
#[cfg(test)]
mod nesting;
#[cfg(test)]
mod parts;
#[cfg(test)]
mod programs;
#[cfg(test)]
mod reading;
#[cfg(test)]
mod shown;
#[cfg(test)]
mod spellings;
#[cfg(test)]
mod statements;
#[cfg(test)]
mod tokens;
#[cfg(test)]
mod trees;
