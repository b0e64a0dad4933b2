//! Classes of numbers that were made one: which is the smallest member of a number's class, and two classes become one.
//!
//! A table of variables can keep its classes by it: the root of a variable is then the smallest that it was made one
//! with. To join two classes takes the time of a step for each member of the smaller one.
#![tactic(auto)]

mod classes;
mod members;

pub use classes::VariableClasses;
