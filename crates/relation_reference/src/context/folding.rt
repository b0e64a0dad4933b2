//! Resolving whatever has types, regions or constants, by a fold.
ghost use Rattle.std.specs.Prelude.{◌≡◌, IsTrue, IfOk};
ghost use Rattle.relation_terms.specs.Trees.{known};
ghost use Rattle.relation_terms.specs.Meaning.{Extends};
ghost use Rattle.relation_terms.specs.Parts.{part_tree, part_sort};
ghost use Rattle.relation_folds.specs.Folds.{answered, KnownAnswer};
ghost use Rattle.relation_semantics.specs.Stores.{resolved};
ghost use Rattle.variable_tables.specs.Tables.{store_of, IsLawful};
ghost use Rattle.relation_reference.specs.Remembering.{IsResolvedPart};
ghost use Rattle.relation_reference.specs.Resolvers.{IsVariable, variable_value};
ghost use Rattle.relation_reference.specs.Changes.{IsResolved};

use crate::context::resolving::resolve_part;
use crate::context::{InferCtxtInner, RefCtxt};
use relation_folds::fold::{Fold, TypeFoldable, TypeFolder};
use relation_semantics::variable_forms::{const_vid, float_vid, int_vid, ty_vid};
use relation_terms::terms::parts::{expect_const, expect_ty};
use relation_terms::terms::{Const, Interner, OutOfMemory, Part, PartOf, Region, RegionKind, Ty};
use std::collections::HashMap;
use std::hash::BuildHasherDefault;

// What a variable comes to. One that the tables don't have is itself.
fn resolve_variable<I: Interner>(
    cx: &mut I,
    inner: &InferCtxtInner<I::Key>,
    variable: &PartOf<I>,
    is_made: bool,
) -> Result<PartOf<I>, OutOfMemory>
    requires lawful { IsLawful (I.meaning cx.old) inner.now }
    requires known { IsTrue (known (part_tree (I.meaning cx.old) variable.now)) }
    requires variable { let m = I.meaning cx.old in
        IsVariable (store_of m inner.now) (part_tree m variable.now) is_made }
    ensures grown { Extends (I.meaning cx.old) (I.meaning cx.new) }
    ensures sure { IfOk result (λ t. IsTrue (known (part_tree (I.meaning cx.new) t))) }
    ensures sort { IfOk result (λ t. part_sort t ≡ part_sort variable.now) }
    ensures resolves { IfOk result (λ t. IsResolvedPart I.meaning cx.old cx.new inner.now variable.now t) }
{
    if is_made {
        let mut memory = HashMap::with_hasher(cx.alloc(), BuildHasherDefault::new());
        return resolve_part(cx, inner, variable, &mut memory);
    }
    Ok(*variable)
}

// The same of a type, as a folder answers it.
fn put_ty<I: Interner>(
    cx: &mut I,
    inner: &InferCtxtInner<I::Key>,
    ty: &Ty<I>,
    is_made: bool,
) -> Result<Fold<Ty<I>>, OutOfMemory>
    requires lawful { IsLawful (I.meaning cx.old) inner.now }
    requires known { IsTrue (known ((I.meaning cx.old).ty ty.now)) }
    requires variable { let m = I.meaning cx.old in IsVariable (store_of m inner.now) (m.ty ty.now) is_made }
    ensures grown { Extends (I.meaning cx.old) (I.meaning cx.new) }
    ensures sure { IfOk result (λ a. KnownAnswer (I.meaning cx.new).ty a) }
    ensures puts { let m = I.meaning cx.old in IfOk result (λ a.
        variable_value (resolved (store_of m inner.now)) (m.ty ty.now) ≡ answered (I.meaning cx.new).ty a) }
{
    let resolved = resolve_variable(cx, inner, &Part::Ty(*ty), is_made)?;
    Ok(Fold::Replace(expect_ty(&resolved)))
}

// The same of a constant.
fn put_const<I: Interner>(
    cx: &mut I,
    inner: &InferCtxtInner<I::Key>,
    constant: &Const<I>,
    is_made: bool,
) -> Result<Fold<Const<I>>, OutOfMemory>
    requires lawful { IsLawful (I.meaning cx.old) inner.now }
    requires known { IsTrue (known ((I.meaning cx.old).const_ constant.now)) }
    requires variable { let m = I.meaning cx.old in IsVariable (store_of m inner.now) (m.const_ constant.now) is_made }
    ensures grown { Extends (I.meaning cx.old) (I.meaning cx.new) }
    ensures sure { IfOk result (λ a. KnownAnswer (I.meaning cx.new).const_ a) }
    ensures puts { let m = I.meaning cx.old in IfOk result (λ a.
        variable_value (resolved (store_of m inner.now)) (m.const_ constant.now) ≡
        answered (I.meaning cx.new).const_ a) }
{
    let resolved = resolve_variable(cx, inner, &Part::Const(*constant), is_made)?;
    Ok(Fold::Replace(expect_const(&resolved)))
}

// Puts for each variable what it comes to by the tables.
#[derive(Clone, Copy)]
struct Resolver<'a, X> {
    inner: &'a InferCtxtInner<X>,
}

impl<'a, I: Interner> TypeFolder<I> for Resolver<'a, I::Key> {
    ghost use Rattle.relation_reference.specs.Resolvers.{StaysLawful, lawful_stays, values_stay};

    ghost ready = { λ m f. StaysLawful m f.inner.now };

    ghost replaces = { λ m f d t. variable_value (resolved (store_of m f.inner.now)) t };

    fn fold_ty(
        &mut self,
        cx: &mut I,
        ty: &Ty<I>,
        _depth: u128,
    ) -> Result<Fold<Ty<I>>, OutOfMemory> {
        let kind = cx.ty_kind(ty);
        if let Some(vid) = ty_vid(&kind) {
            let is_made = self.inner.types.has(vid.0);
            return put_ty(cx, self.inner, ty, is_made);
        }
        if let Some(vid) = int_vid(&kind) {
            let is_made = self.inner.ints.has(vid.0);
            return put_ty(cx, self.inner, ty, is_made);
        }
        if let Some(vid) = float_vid(&kind) {
            let is_made = self.inner.floats.has(vid.0);
            return put_ty(cx, self.inner, ty, is_made);
        }
        Ok(Fold::Descend)
    }

    fn fold_region(
        &mut self,
        cx: &mut I,
        region: &Region<I>,
        _depth: u128,
    ) -> Result<Fold<Region<I>>, OutOfMemory> {
        match cx.region_kind(region) {
            RegionKind::ReVar(_) => Ok(Fold::Replace(*region)),
            _ => Ok(Fold::Descend),
        }
    }

    fn fold_const(
        &mut self,
        cx: &mut I,
        constant: &Const<I>,
        _depth: u128,
    ) -> Result<Fold<Const<I>>, OutOfMemory> {
        if let Some(vid) = const_vid(&cx.const_kind(constant)) {
            let is_made = self.inner.consts.has(vid.0);
            return put_const(cx, self.inner, constant, is_made);
        }
        Ok(Fold::Descend)
    }

    ghost ready_on = { λ m n e f h. lawful_stays e f.inner.now h };

    ghost replaces_on = { λ m n e f h d t. values_stay e f.inner.now h t };
}

impl<I: Interner> RefCtxt<I> {
    /// What is handed in with each variable that has a term replaced by it, at every depth, and each other by its root.
    /// A variable that is not the context's stays. Nothing is recorded.
    pub fn resolve_vars_if_possible<T: TypeFoldable<I>>(
        &mut self,
        value: &T,
    ) -> Result<T, OutOfMemory>
        requires lawful { IsLawful (I.meaning self.old.interner) self.old.inner }
        requires value_known { IsTrue (known (T.tree (I.meaning self.old.interner) value.now)) }
        ensures inner { self.new.inner ≡ self.old.inner }
        ensures grown { Extends (I.meaning self.old.interner) (I.meaning self.new.interner) }
        ensures sure { IfOk result (λ x. IsTrue (known (T.tree (I.meaning self.new.interner) x))) }
        ensures resolves { IfOk result (λ x. IsResolved I.meaning self.old self.new T.tree value.now x) }
    {
        let mut resolver = Resolver { inner: &self.inner };
        value.fold_with(&mut self.interner, &mut resolver)
    }
}
