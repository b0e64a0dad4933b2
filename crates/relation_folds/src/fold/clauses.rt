//! Folds of clauses and predicates by their keys, each under its binder, and of lists and environments of clauses.
use crate::fold::{TypeFoldable, TypeFolder};
use crate::visit::{clause_at, clause_count};
use relation_terms::terms::{
    ClauseKey, ClausesKey, Interner, OutOfMemory, ParamEnvKey, PredicateKey,
};

/// A clause is made of a clause.
impl<I: Interner> TypeFoldable<I> for ClauseKey<I::Key> {
    fn fold_with<F: TypeFolder<I>>(&self, cx: &mut I, folder: &mut F) -> Result<Self, OutOfMemory> {
        let made = cx.clause_kind(self).fold_with(cx, folder)?;
        cx.mk_clause(made)
    }
}

impl<I: Interner> TypeFoldable<I> for PredicateKey<I::Key> {
    fn fold_with<F: TypeFolder<I>>(&self, cx: &mut I, folder: &mut F) -> Result<Self, OutOfMemory> {
        let made = cx.predicate_kind(self).fold_with(cx, folder)?;
        cx.mk_predicate(made)
    }
}

impl<I: Interner> TypeFoldable<I> for ClausesKey<I::Key> {
    fn fold_with<F: TypeFolder<I>>(&self, cx: &mut I, folder: &mut F) -> Result<Self, OutOfMemory> {
        let mut made = Vec::new(cx.alloc());
        for i in 0..clause_count(cx, self) {
            let old = clause_at(cx, self, i);
            let new = old.fold_with(cx, folder)?;
            made.push(new)?;
        }
        cx.mk_clauses(&made)
    }
}

impl<I: Interner> TypeFoldable<I> for ParamEnvKey<I::Key> {
    fn fold_with<F: TypeFolder<I>>(&self, cx: &mut I, folder: &mut F) -> Result<Self, OutOfMemory> {
        let made = cx.caller_bounds(self).fold_with(cx, folder)?;
        cx.mk_param_env(made)
    }
}
