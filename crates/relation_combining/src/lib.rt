//! What comes of two terms of a context that meet, before their parts are related: variables, errors and aliases, and
//! types over one item with bivariant arguments.
#![tactic(auto)]

pub mod combine;
mod deferring;
mod number_vars;
mod ty_args;
pub mod variables;
