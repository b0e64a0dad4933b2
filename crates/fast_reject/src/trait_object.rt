//! What trait objects are told apart by.
ghost use Rattle.std.specs.Prelude.{◌≡◌, IsTrue};
ghost use Rattle.relation_terms.specs.Trees.{known};
ghost use Rattle.relation_folds.specs.Outlines.{id_number, trait_in};
ghost use Rattle.fast_reject.specs.HeadKeys.{principal_of};

use relation_terms::predicate::ExistentialPredicate;
use relation_terms::terms::{Binder, ExistentialPredicates, Interner, TraitId};

// The trait that a predicate of a trait object says is implemented: a projection or an auto trait is none such.
fn trait_of<X, D: Copy>(predicate: &Binder<X, ExistentialPredicate<X, D>>) -> Option<D>
    ensures { result ≡ trait_in predicate.now }
{
    match &predicate.value {
        ExistentialPredicate::Trait(of) => Some(of.def_id.0),
        ExistentialPredicate::Projection(_) | ExistentialPredicate::AutoTrait(_) => None,
    }
}

/// The principal of a trait object: the first trait among its predicates, neither a projection nor an auto trait. The
/// interner has to know the list of predicates.
pub fn principal_def_id<I: Interner>(
    cx: &I,
    predicates: &ExistentialPredicates<I>,
) -> Option<TraitId<I::Id>>
    requires { IsTrue (known ((I.meaning cx.now).existential_predicates predicates.now)) }
    ensures { let m = I.meaning cx.now in id_number (λ t. m.id t.0) result ≡ principal_of m predicates.now }
{
    for predicate in cx.existential_predicates(predicates) {
        if let Some(id) = trait_of(predicate) {
            return Some(TraitId(id));
        }
    }
    None
}
