//! Tests that go through texts and rows, for what no question can ask.
#![tactic(auto)]

#[cfg(test)]
mod naming;
#[cfg(test)]
mod printing;
#[cfg(test)]
mod resolving;
#[cfg(test)]
mod runs;
#[cfg(test)]
mod telling;
