//! Tests of the book, with the threads that use it.
#![tactic(auto)]

#[cfg(test)]
mod borrowing;
#[cfg(test)]
mod faults;
#[cfg(test)]
mod logs;
