//! The clause of a form under a binder.
ghost use Rattle.std.specs.Prelude.{IsTrue};
ghost use Rattle.relation_terms.specs.Trees.{known};
ghost use Rattle.relation_terms.specs.Meaning.{Extends};
ghost use Rattle.relation_terms.specs.Predicates.{clause_kind_tree};
ghost use Rattle.text_clauses.specs.Made.{MakesUnder};

use crate::building::kinds::KindOf;
use relation_terms::terms::{Binder, BoundVariable, Clause, Interner};

// The clause of that form, under the binder of those variables.
pub(super) fn make_clause<I: Interner>(
    cx: &mut I,
    variables: &[BoundVariable<I>],
    value: KindOf<I>,
) -> Option<Clause<I>>
    requires { IsTrue (known (clause_kind_tree (I.meaning cx.old) value)) }
    ensures grown { Extends (I.meaning cx.old) (I.meaning cx.new) }
    ensures made { MakesUnder (I.meaning cx.old) (I.meaning cx.new) variables.now value result }
{
    let Ok(bound_vars) = cx.mk_bound_vars(variables) else {
        return None;
    };
    match cx.mk_clause(Binder { value, bound_vars }) {
        Ok(clause) => Some(clause),
        Err(_) => None,
    }
}
