//! The parts of terms by their places: the one place that knows where the parts of each form stand.
//!
//! What goes through terms, as a fold or a visit, goes over parts, whatever the forms are. `parts_count`, `part` and
//! `with_parts` speak of a term; `member_count`, `member` and `make_parts` of a list of parts: that of a term,
//! `parts_of`, or one that stands by itself. Clauses and predicates stand apart: their parts are fields.
mod forms;
mod keys;
mod members;
mod orders;
mod predicates;
mod same;
mod whole;

pub use forms::{const_parts, existential_parts, pattern_parts, ty_parts, valtree_parts};
pub use keys::{
    expect_alternatives, expect_arg, expect_args, expect_branches, expect_const,
    expect_existential, expect_input_types, expect_inputs, expect_pat, expect_predicates,
    expect_region, expect_signature, expect_ty, expect_tys, expect_valtree, of_arg,
};
pub use members::{make_parts, member, member_count};
pub use orders::visited_place;
pub use predicates::{
    Field, Fields, FieldsOf, clause_fields, clause_over, clause_with_fields, fields_of_clause,
    fields_of_predicate, predicate_fields, predicate_over, predicate_with_fields,
};
pub use same::is_same;
pub use whole::{part, parts_count, parts_of, with_parts};
