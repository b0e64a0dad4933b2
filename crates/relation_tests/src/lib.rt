//! Tests of relating, for what no question can ask.
#![tactic(auto)]

#[cfg(test)]
mod contexts;
#[cfg(test)]
mod counting;
#[cfg(test)]
mod over_items;
#[cfg(test)]
mod relating;
#[cfg(test)]
mod tested;
