//! The recursion over every relation: what can be related, and how terms are by their forms and parts, as a relation's
//! steps lead.
#![tactic(auto)]

pub mod args;
pub mod comparing;
mod forms;
mod keeping;
mod making;
mod opening;
mod parts;
mod reading;
pub mod relatable;
mod starting;
pub mod structural;
