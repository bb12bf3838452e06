//! Tests of the tables of calls, of the wire, and of what a node keeps to wait and to halt.
#![tactic(auto)]

#[cfg(test)]
mod clocks;
#[cfg(test)]
mod faults;
#[cfg(test)]
mod halting;
#[cfg(test)]
mod marks;
#[cfg(test)]
mod maybe;
#[cfg(test)]
mod network;
#[cfg(test)]
mod numbers;
#[cfg(test)]
mod once;
#[cfg(test)]
mod waiting;
#[cfg(test)]
mod wire;
