//! Names are looked up: a tree of names becomes items, terms and questions.

mod aliases;
mod binders;
mod elaborations;
mod error;
mod impls;
mod items;
mod namer;
mod objects;
mod plain;
mod predicates;
mod program;
mod questions;
mod statements;
mod terms;
mod variables;

pub use error::{Missing, NameError, Wrong, write_name_error};
pub use program::{
    Clause, Declared, Impl, Item, Method, Mode, ParamSort, Parts, Program, Put, Question,
    QuestionKind, Says, Setup, Sort, Stated, Term, VariableId, VariableKind, Variables,
};
pub use statements::{LAST_UNIVERSE, MOST_VARIABLES, look_up};
