//! Opening binders: their bodies with placeholders or new variables for what they bind.
ghost use Rattle.std.specs.Prelude.{◌≡◌, ◌<◌, IsTrue, IsSome, Some, IfOk, OnErr, length, map, slice_get};
ghost use Rattle.relation_terms.specs.Heads.{placeholder};
ghost use Rattle.relation_terms.specs.Trees.{leaf, known, list_tree};
ghost use Rattle.relation_terms.specs.Meaning.{Extends, arg_tree, bound_kind_of};
ghost use Rattle.relation_semantics.specs.ContextCalls.{KeepsRest};
ghost use Rattle.relation_semantics.specs.Bound.{BindsByList};
ghost use Rattle.relation_semantics.specs.Binders.{kinds_in, variable_kind, MakesEach, binder_tree};
ghost use Rattle.relation_semantics.specs.Binders.{placeholders_from};
ghost use Rattle.variable_tables.specs.Tables.{IsLawful};
ghost use Rattle.relation_reference.specs.RefCtxt.{store_in, context_in};
ghost use Rattle.relation_reference.specs.Opened.{MakesOne};
ghost use Rattle.relation_reference.specs.Changes.{MakesFirstNow, EntersBody, InstantiatesBody};

use crate::context::RefCtxt;
use crate::context::universes::next_universe;
use relation_folds::fold::{TypeFoldable, instantiate_bound_vars};
use relation_folds::visit::{TypeVisitable, has_escaping_bound_vars};
use relation_terms::terms::{
    Binder, BoundConst, BoundRegion, BoundTy, BoundVar, BoundVariable, BoundVariableKind,
    BoundVars, ConstKind, GenericArg, GenericArgKind, Interner, OutOfMemory, Placeholder,
    RegionKind, TyKind, UniverseIndex,
};

// How many variables a binder's list has.
fn count_of<I: Interner>(cx: &I, bound_vars: &BoundVars<I>) -> usize
    requires { IsSome ((I.meaning cx.now).bound_vars bound_vars.now) }
    ensures { result ≡ length (kinds_in ((I.meaning cx.now).bound_vars bound_vars.now)) }
{
    cx.bound_vars(bound_vars).len()
}

// The variable at a place of a binder's list.
fn variable_at<I: Interner>(cx: &I, bound_vars: &BoundVars<I>, place: usize) -> BoundVariable<I>
    requires known { IsSome ((I.meaning cx.now).bound_vars bound_vars.now) }
    requires there { place < length (kinds_in ((I.meaning cx.now).bound_vars bound_vars.now)) }
    ensures { slice_get (kinds_in ((I.meaning cx.now).bound_vars bound_vars.now)) place ≡
        Some (bound_kind_of (I.meaning cx.now) result) }
{
    cx.bound_vars(bound_vars)[place]
}

// The placeholder of a universe for the variable at a place of a binder's list.
fn placeholder<I: Interner>(
    cx: &mut I,
    universe: UniverseIndex,
    place: usize,
    variable: &BoundVariable<I>,
) -> Result<GenericArg<I>, OutOfMemory>
    ensures grown { Extends (I.meaning cx.old) (I.meaning cx.new) }
    ensures sure { IfOk result (λ a. IsTrue (known (arg_tree (I.meaning cx.new) a))) }
    ensures made { let k = bound_kind_of (I.meaning cx.old) variable.now in
        IfOk result (λ a. arg_tree (I.meaning cx.new) a ≡ leaf (placeholder k universe.0 place)) }
{
    let var = BoundVar(place);
    match *variable {
        BoundVariableKind::Ty(name) => {
            let bound = BoundTy { var, name };
            let ty = cx.mk_ty(TyKind::Placeholder(Placeholder { universe, bound }))?;
            Ok(GenericArgKind::Ty(ty))
        }
        BoundVariableKind::Region(name) => {
            let bound = BoundRegion { var, name };
            let region = cx.mk_region(RegionKind::RePlaceholder(Placeholder { universe, bound }))?;
            Ok(GenericArgKind::Lifetime(region))
        }
        BoundVariableKind::Const(name) => {
            let bound = BoundConst { var, name };
            let constant = cx.mk_const(ConstKind::Placeholder(Placeholder { universe, bound }))?;
            Ok(GenericArgKind::Const(constant))
        }
    }
}

// The placeholders of a universe for what a binder binds, each numbered by its place.
#[inline(always)]
fn placeholders<I: Interner>(
    cx: &mut I,
    universe: UniverseIndex,
    bound_vars: &BoundVars<I>,
) -> Result<Vec<GenericArg<I>>, OutOfMemory>
    requires { IsSome ((I.meaning cx.old).bound_vars bound_vars.now) }
    ensures grown { Extends (I.meaning cx.old) (I.meaning cx.new) }
    ensures sure { IfOk result (λ args. IsTrue (known (list_tree (arg_tree (I.meaning cx.new)) args.items))) }
    ensures made { let ks = kinds_in ((I.meaning cx.old).bound_vars bound_vars.now) in IfOk result (λ args.
        map (arg_tree (I.meaning cx.new)) args.items ≡ placeholders_from universe.0 0 ks) }
{
    let mut args = Vec::new(cx.alloc());
    for place in 0..count_of(cx, bound_vars) {
        let variable = variable_at(cx, bound_vars, place);
        let arg = placeholder(cx, universe, place, &variable)?;
        args.push(arg)?;
    }
    Ok(args)
}

impl<I: Interner> RefCtxt<I> {
    // A new variable of the current universe for what a binder binds. After `OutOfMemory` none was made.
    fn next_arg_infer(&mut self, variable: &BoundVariable<I>) -> Result<GenericArg<I>, OutOfMemory>
        requires { IsLawful (I.meaning self.old.interner) self.old.inner }
        ensures lawful { IsLawful (I.meaning self.new.interner) self.new.inner }
        ensures grown { Extends (I.meaning self.old.interner) (I.meaning self.new.interner) }
        ensures sure { IfOk result (λ a. IsTrue (known (arg_tree (I.meaning self.new.interner) a))) }
        ensures makes { let k = variable_kind (bound_kind_of (I.meaning self.old.interner) variable.now) in
            IfOk result (λ a. MakesOne (store_in I.meaning self.old) (store_in I.meaning self.new) k
            (arg_tree (I.meaning self.new.interner) a)) }
        ensures refused { OnErr result (store_in I.meaning self.new ≡ store_in I.meaning self.old) }
        ensures rest { KeepsRest (context_in I.meaning self.old) (context_in I.meaning self.new) }
    {
        match variable {
            BoundVariableKind::Ty(_) => {
                let ty = self.next_ty_infer()?;
                Ok(GenericArgKind::Ty(ty))
            }
            BoundVariableKind::Region(_) => {
                let region = self.next_region_infer()?;
                Ok(GenericArgKind::Lifetime(region))
            }
            BoundVariableKind::Const(_) => {
                let constant = self.next_const_infer()?;
                Ok(GenericArgKind::Const(constant))
            }
        }
    }

    // New variables of the current universe for what a binder binds, in the order of its list.
    #[inline(always)]
    fn next_args_infer(
        &mut self,
        bound_vars: &BoundVars<I>,
    ) -> Result<Vec<GenericArg<I>>, OutOfMemory>
        requires lawful { IsLawful (I.meaning self.old.interner) self.old.inner }
        requires known { IsSome ((I.meaning self.old.interner).bound_vars bound_vars.now) }
        ensures lawful { IsLawful (I.meaning self.new.interner) self.new.inner }
        ensures grown { Extends (I.meaning self.old.interner) (I.meaning self.new.interner) }
        ensures sure { IfOk result (λ args.
            IsTrue (known (list_tree (arg_tree (I.meaning self.new.interner)) args.items))) }
        ensures makes { let ks = kinds_in ((I.meaning self.old.interner).bound_vars bound_vars.now) in
            IfOk result (λ args. MakesEach self.old.inner.universe.0 (store_in I.meaning self.old) ks
            (map (arg_tree (I.meaning self.new.interner)) args.items) (store_in I.meaning self.new)) }
        ensures refused { OnErr result (MakesFirstNow I.meaning self.old self.new bound_vars.now) }
        ensures rest { KeepsRest (context_in I.meaning self.old) (context_in I.meaning self.new) }
    {
        let mut args = Vec::new(self.interner.alloc());
        for place in 0..count_of(&self.interner, bound_vars) {
            let variable = variable_at(&self.interner, bound_vars, place);
            let arg = self.next_arg_infer(&variable)?;
            args.push(arg)?;
        }
        Ok(args)
    }

    /// The body of a binder, with placeholders of a new universe for what the binder binds, which is the current one
    /// from then on. A body in which nothing is bound outside is answered as it is, and no universe is made.
    ///
    /// After `OutOfMemory` there is no new universe.
    pub fn enter_forall<T: TypeFoldable<I> + TypeVisitable<I> + Copy>(
        &mut self,
        value: Binder<I::Key, T>,
    ) -> Result<T, OutOfMemory>
        requires lawful { IsLawful (I.meaning self.old.interner) self.old.inner }
        requires value_known { IsTrue (known (binder_tree T.tree (I.meaning self.old.interner) value)) }
        requires value_binds { BindsByList (binder_tree T.tree (I.meaning self.old.interner) value) }
        ensures lawful { IsLawful (I.meaning self.new.interner) self.new.inner }
        ensures grown { Extends (I.meaning self.old.interner) (I.meaning self.new.interner) }
        ensures sure { IfOk result (λ x. IsTrue (known (T.tree (I.meaning self.new.interner) x))) }
        ensures enters { IfOk result (λ x. EntersBody I.meaning self.old self.new T.tree value x) }
        ensures refused { OnErr result (store_in I.meaning self.new ≡ store_in I.meaning self.old) }
        ensures rest { KeepsRest (context_in I.meaning self.old) (context_in I.meaning self.new) }
    {
        let body = value.value;
        if !has_escaping_bound_vars(&self.interner, &body) {
            return Ok(body);
        }
        let universe = next_universe(self.inner.universe)?;
        let args = placeholders(&mut self.interner, universe, &value.bound_vars)?;
        let entered = instantiate_bound_vars(&mut self.interner, &body, &args)?;
        let inner = &mut self.inner;
        inner.universe = universe;
        Ok(entered)
    }

    /// The body of a binder, with new variables of the current universe for what the binder binds: one for each place
    /// of its list, in that order, also where the body uses none.
    ///
    /// After `OutOfMemory` some may have been made, of which nothing is recorded.
    pub fn instantiate_binder_with_infer<T: TypeFoldable<I> + Copy>(
        &mut self,
        value: Binder<I::Key, T>,
    ) -> Result<T, OutOfMemory>
        requires lawful { IsLawful (I.meaning self.old.interner) self.old.inner }
        requires value_known { IsTrue (known (binder_tree T.tree (I.meaning self.old.interner) value)) }
        requires value_binds { BindsByList (binder_tree T.tree (I.meaning self.old.interner) value) }
        ensures lawful { IsLawful (I.meaning self.new.interner) self.new.inner }
        ensures grown { Extends (I.meaning self.old.interner) (I.meaning self.new.interner) }
        ensures sure { IfOk result (λ x. IsTrue (known (T.tree (I.meaning self.new.interner) x))) }
        ensures instantiates { IfOk result (λ x. InstantiatesBody I.meaning self.old self.new T.tree value x) }
        ensures refused { OnErr result (MakesFirstNow I.meaning self.old self.new value.bound_vars) }
        ensures rest { KeepsRest (context_in I.meaning self.old) (context_in I.meaning self.new) }
    {
        let args = self.next_args_infer(&value.bound_vars)?;
        instantiate_bound_vars(&mut self.interner, &value.value, &args)
    }
}
