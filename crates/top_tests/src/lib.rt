//! Tests of the edges, of the top call, and of the texts of faults.
#![tactic(auto)]

#[cfg(test)]
mod edges;
#[cfg(test)]
mod faults;
#[cfg(test)]
mod replays;
#[cfg(test)]
mod texts;
