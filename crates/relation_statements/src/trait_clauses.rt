//! Which trait a clause is of.
ghost use Rattle.std.specs.Prelude.{◌≡◌, IsTrue, IfSome, option_map};
ghost use Rattle.relation_terms.specs.Trees.{known};
ghost use Rattle.relation_terms.specs.Owned.{bound_tree};
ghost use Rattle.relation_statements.specs.TraitClauses.{reference_of, NamesTrait};

use relation_terms::predicate::{ClauseKind, TraitRef};
use relation_terms::terms::{Binder, Clause, Interner};

/// A trait with its arguments, under its binder.
pub type BoundTraitRef<I> = Binder<
    <I as relation_terms::terms::Keys>::Key,
    TraitRef<<I as relation_terms::terms::Keys>::Key, <I as relation_terms::terms::Keys>::Id>,
>;

/// The trait reference of a trait clause, of any polarity, under the clause's binder.
pub fn trait_reference<I: Interner>(cx: &I, clause: &Clause<I>) -> Option<BoundTraitRef<I>>
    requires { IsTrue (known ((I.meaning cx.now).clause clause.now)) }
    ensures is { let m = I.meaning cx.now in option_map (bound_tree m) result ≡ reference_of (m.clause clause.now) }
    ensures sure { IfSome result (λ b. IsTrue (known (bound_tree (I.meaning cx.now) b))) }
    ensures names { let m = I.meaning cx.now in NamesTrait m result (m.clause clause.now) }
{
    let Binder { value, bound_vars } = cx.clause_kind(clause);
    match value {
        ClauseKind::Trait(predicate) => Some(Binder {
            value: predicate.trait_ref,
            bound_vars,
        }),
        _ => None,
    }
}
