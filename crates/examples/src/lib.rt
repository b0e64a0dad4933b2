//! The smallest of each that a user of these crates may copy: a visitor, a folder, an obligation, a table of methods, an
//! overlap of impls, by their headers and with their bounds, a question of subtyping, one to a solver. All is proved with
//! the tests, and so once.
#![tactic(auto)]

#[cfg(test)]
mod all;
#[cfg(test)]
pub mod beside;
#[cfg(test)]
pub mod folder;
#[cfg(test)]
mod methods;
#[cfg(test)]
pub mod obligation;
#[cfg(test)]
mod overlapping;
#[cfg(test)]
mod proving;
#[cfg(test)]
mod subtyping;
#[cfg(test)]
pub mod visitor;
