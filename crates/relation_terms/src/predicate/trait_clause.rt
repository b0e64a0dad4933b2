//! What a clause says of a trait.
ghost use Rattle.std.specs.Prelude.{IsTrue};
ghost use Rattle.relation_terms.specs.Trees.{known};
ghost use Rattle.relation_terms.specs.Clauses.{FindsTrait};

use crate::predicate::{ClauseKind, TraitPredicate};
use crate::terms::{Binder, Clause, Interner};

/// What a clause says of a trait, under its binder, and `None` exactly where it is no clause of one. The interner has
/// to know the clause.
pub fn as_trait_clause<I: Interner>(
    cx: &I,
    clause: &Clause<I>,
) -> Option<Binder<I::Key, TraitPredicate<I::Key, I::Id>>>
    requires { IsTrue (known ((I.meaning cx.now).clause clause.now)) }
    ensures { FindsTrait (I.meaning cx.now) clause.now result }
{
    let Binder { value, bound_vars } = cx.clause_kind(clause);
    match value {
        ClauseKind::Trait(value) => Some(Binder { value, bound_vars }),
        _ => None,
    }
}
