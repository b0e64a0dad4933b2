//! How trait objects print.
ghost use Rattle.std.specs.Prelude.{◌≡◌, IfSome, IsTrue, slice_range};
ghost use Rattle.relation_terms.specs.Trees.{known, list_tree};
ghost use Rattle.relation_terms.specs.Meaning.{term_tree, object_predicate_tree};

use crate::printing::leaves::write_between;
use crate::printing::names::{item_text, trait_text};
use crate::printing::under::Under;
use relation_terms::predicate::{
    ExistentialPredicate, ExistentialProjection, ExistentialTraitRef, ObjectPredicate,
};
use relation_terms::terms::{ExistentialPredicates, Interner, Region, TermKind};
use std::fmt::{self, Write};

// The members of a list from a place on, up to another.
fn members_at<T>(list: &[T], first: usize, behind: usize) -> Option<&[T]>
    ensures { IfSome result (λ part. part.now ≡ slice_range list.now first behind) }
{
    list.get(first..behind)
}

// How many predicates behind one say what associated items of its trait are, over its arguments and under its binder.
fn assigned_count<I: Interner>(
    cx: &I,
    of: &ObjectPredicate<I>,
    behind: &[ObjectPredicate<I>],
) -> usize {
    for (count, next) in behind.iter().enumerate() {
        if !is_assigned(cx, of, next) {
            return count;
        }
    }
    behind.len()
}

// Whether a predicate says what an associated item of another's trait is, over its arguments and under its binder.
fn is_assigned<I: Interner>(cx: &I, of: &ObjectPredicate<I>, next: &ObjectPredicate<I>) -> bool {
    match (of.value, next.value) {
        (ExistentialPredicate::Trait(of_trait), ExistentialPredicate::Projection(item)) => {
            of.bound_vars == next.bound_vars
                && of_trait.args == item.args
                && cx.projection_parent(&item.def_id) == Some(of_trait.def_id)
        }
        _ => false,
    }
}

#[tactic(auto, using(crate::proofs::Parts::size_part, crate::proofs::Parts::known_part))]
impl<'a, I: Interner> Under<'a, I> {
    // Writes a trait object: `dyn for<'a> Tr<'a, T, A = U> + Tr<..>::B<..> == V + Auto + 'r`.
    #[cycle(write_ty)]
    pub(super) fn write_object<W: Write>(
        &self,
        predicates: &ExistentialPredicates<I>,
        region: &Region<I>,
        out: &mut W,
    ) -> fmt::Result
        requires predicates { IsTrue (known ((I.meaning self.now.cx.now).existential_predicates predicates.now)) }
        requires region { IsTrue (known ((I.meaning self.now.cx.now).region region.now)) }
    {
        out.write_str("dyn ")?;
        self.write_object_predicates(predicates, out)?;
        if !self.cx.existential_predicates(predicates).is_empty() {
            out.write_str(" + ")?;
        }
        self.write_region(region, out)
    }

    // Writes the predicates of a trait object, with `+` between. What an associated item of a trait is stands in the
    // brackets of the trait where it can.
    #[cycle(write_ty)]
    pub(super) fn write_object_predicates<W: Write>(
        &self,
        predicates: &ExistentialPredicates<I>,
        out: &mut W,
    ) -> fmt::Result
        requires { IsTrue (known ((I.meaning self.now.cx.now).existential_predicates predicates.now)) }
    {
        let list = self.cx.existential_predicates(predicates);
        let mut written = 0;
        for (place, predicate) in list.iter().enumerate() {
            if place >= written {
                write_between(place, " + ", out)?;
                let behind = list.get(place.saturating_add(1)..).unwrap_or(&[]);
                let assigned = assigned_count(self.cx, predicate, behind);
                written = place.saturating_add(1).saturating_add(assigned);
                if let Some(bound) = members_at(list, place, written) {
                    self.write_object_bound(bound, out)?;
                }
            }
        }
        Ok(())
    }

    // Writes a predicate of a trait object, under its binder, and those that stand in its brackets.
    #[cycle(write_ty)]
    #[tactic(auto, using(relation_terms::proofs::Binders::under_known, crate::proofs::Parts::under_size))]
    fn write_object_bound<W: Write>(&self, bound: &[ObjectPredicate<I>], out: &mut W) -> fmt::Result
        requires { IsTrue (known (list_tree (object_predicate_tree (I.meaning self.now.cx.now)) bound.now)) }
    {
        let Some((first, assigned)) = bound.split_first() else {
            return Ok(());
        };
        let vars = self.cx.bound_vars(&first.bound_vars);
        self.write_for(vars, out)?;
        let inside = self.enter(vars.len());
        match &first.value {
            ExistentialPredicate::Trait(of) => inside.write_trait(of, assigned, out),
            ExistentialPredicate::Projection(of) => inside.write_projection(of, out),
            ExistentialPredicate::AutoTrait(def_id) => {
                out.write_str(item_text(&self.texts.items, &def_id.0))
            }
        }
    }

    // Writes a trait over its arguments, and what its associated items are behind them: `Tr<T, A = U>`.
    #[cycle(write_ty)]
    fn write_trait<W: Write>(
        &self,
        of: &ExistentialTraitRef<I::Key, I::Id>,
        assigned: &[ObjectPredicate<I>],
        out: &mut W,
    ) -> fmt::Result
        requires args { IsTrue (known ((I.meaning self.now.cx.now).args (of.now).args)) }
        requires assigned { IsTrue (known (list_tree (object_predicate_tree (I.meaning self.now.cx.now)) assigned.now)) }
    {
        out.write_str(item_text(&self.texts.items, &of.def_id.0))?;
        let count = self.cx.args(&of.args).len();
        if count == 0 && assigned.is_empty() {
            return Ok(());
        }
        out.write_str("<")?;
        self.write_args(&of.args, 0, count, out)?;
        for (place, predicate) in assigned.iter().enumerate() {
            if place > 0 || count > 0 {
                out.write_str(", ")?;
            }
            self.write_assigned(predicate, out)?;
        }
        out.write_str(">")
    }

    // Writes what an associated item is, in the brackets of its trait: `A = U`.
    #[cycle(write_ty)]
    #[tactic(auto, using(relation_terms::proofs::Binders::under_known, crate::proofs::Parts::under_size))]
    fn write_assigned<W: Write>(&self, predicate: &ObjectPredicate<I>, out: &mut W) -> fmt::Result
        requires { IsTrue (known (object_predicate_tree (I.meaning self.now.cx.now) predicate.now)) }
    {
        let ExistentialPredicate::Projection(of) = predicate.value else {
            return Ok(());
        };
        out.write_str(item_text(&self.texts.items, &of.def_id.0))?;
        out.write_str(" = ")?;
        match of.term {
            TermKind::Ty(ty) => self.write_ty(&ty, out),
            TermKind::Const(constant) => self.write_const(&constant, out),
        }
    }

    // Writes what an associated item of a trait object's trait is: `Tr<T>::A == U`. The trait's arguments stand without the
    // type that implements it.
    #[cycle(write_ty)]
    fn write_projection<W: Write>(
        &self,
        of: &ExistentialProjection<I::Key, I::Id>,
        out: &mut W,
    ) -> fmt::Result
        requires args { IsTrue (known ((I.meaning self.now.cx.now).args (of.now).args)) }
        requires term { IsTrue (known (term_tree (I.meaning self.now.cx.now) (of.now).term)) }
    {
        let name = item_text(&self.texts.items, &of.def_id.0);
        let count = self.cx.args(&of.args).len();
        match trait_text(&self.texts.items, &of.def_id.0) {
            Some(item) if 0 < item.count && item.count - 1 <= count => {
                let own = item.count - 1;
                self.write_named(item.text, &of.args, 0, own, out)?;
                out.write_str("::")?;
                self.write_named(name, &of.args, own, count, out)?;
            }
            _ => self.write_named(name, &of.args, 0, count, out)?,
        }
        out.write_str(" == ")?;
        self.write_term(&of.term, out)
    }
}
