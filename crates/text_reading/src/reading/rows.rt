//! The rows of each sort. Those that begin alike stand together, and of these one that can be left out last.
ghost use Rattle.std.specs.Prelude.{◌≡◌, ◌<◌, length};
ghost use Rattle.text_reading.specs.Rows.{rows_of};
ghost use Rattle.text_reading.specs.Shapes.{rows_in};

mod impls;
mod predicates;
mod questions;
mod statements;
mod terms;

use crate::reading::shapes::{Shape, Sort};
use impls::{ASSIGNED, GENERIC_PARAM, GENERICS, GIVEN, GIVES, IMPL_HEADER, METHOD};
use predicates::{LIMIT, PREDICATE, PREDICATE_BINDER, PULLS};
use questions::{ARGUMENTS, ASKED, NUMBER, OUTLIVES, PAIR, PUT, QUESTION, SKIP, STOP};
use statements::{DECLARED, MADE, PARAMETER, STATEMENT, STATING};
pub(super) use terms::PLAIN_HEADER;
use terms::{
    ALTERNATIVE, ARGUMENT, BINDER, BOUND, CONSTANT, GROUPED, NAMED, NO_BINDER, OUTPUT, PATTERN,
    PLAIN, TERM, VARIABLE, VARIABLES,
};

// The rows of a sort.
pub(super) fn rows_of(sort: Sort) -> &'static [Shape]
    ensures rows { rows_in result.now ≡ rows_of sort }
    ensures some { 0 < length result.now }
{
    match sort {
        Sort::Statement => &STATEMENT,
        Sort::Stating => &STATING,
        Sort::Declared => &DECLARED,
        Sort::Parameter => &PARAMETER,
        Sort::Question => &QUESTION,
        Sort::Asked => &ASKED,
        Sort::Pair => &PAIR,
        Sort::Skip => &SKIP,
        Sort::Stop => &STOP,
        Sort::Outlives => &OUTLIVES,
        Sort::Put => &PUT,
        Sort::Arguments => &ARGUMENTS,
        Sort::Number => &NUMBER,
        Sort::Made => &MADE,
        Sort::Limit => &LIMIT,
        Sort::Pulls => &PULLS,
        Sort::Predicate => &PREDICATE,
        Sort::ImplHeader => &IMPL_HEADER,
        Sort::Given => &GIVEN,
        Sort::Gives => &GIVES,
        Sort::Assigned => &ASSIGNED,
        Sort::Generics => &GENERICS,
        Sort::GenericParam => &GENERIC_PARAM,
        Sort::Method => &METHOD,
        Sort::PredicateBinder => &PREDICATE_BINDER,
        Sort::Binder => &BINDER,
        Sort::NoBinder => &NO_BINDER,
        Sort::Variables => &VARIABLES,
        Sort::Variable => &VARIABLE,
        Sort::Term => &TERM,
        Sort::Plain => &PLAIN,
        Sort::Constant => &CONSTANT,
        Sort::Output => &OUTPUT,
        Sort::Bound => &BOUND,
        Sort::Named => &NAMED,
        Sort::Argument => &ARGUMENT,
        Sort::Pattern => &PATTERN,
        Sort::Alternative => &ALTERNATIVE,
        Sort::Grouped => &GROUPED,
    }
}
