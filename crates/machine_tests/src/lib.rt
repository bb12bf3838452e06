//! Tests of the machine: operations, objects, and programs that step through each statement, expression and item.
#![tactic(auto)]

#[cfg(test)]
mod effects;
#[cfg(test)]
mod programs;
#[cfg(test)]
mod runs;
#[cfg(test)]
mod trees;
#[cfg(test)]
mod trial;
