//! Reading what a context has recorded of its variables.
ghost use Rattle.std.specs.Prelude.{◌<◌, IsTrue, IfSome, IfNone, length};
ghost use Rattle.relation_terms.specs.Heads.{type_var, int_var, float_var, const_var};
ghost use Rattle.relation_terms.specs.Trees.{known};
ghost use Rattle.relation_semantics.specs.Bound.{IsWellBound};
ghost use Rattle.relation_semantics.specs.Stores.{InContext};
ghost use Rattle.relation_semantics.specs.Steps.{LeadsTo};
ghost use Rattle.relation_semantics.specs.Resolving.{IsRoot, IsShallow, IsShallowTy, IsShallowConst};
ghost use Rattle.variable_tables.specs.Tables.{IsLawful};
ghost use Rattle.relation_reference.specs.RefCtxt.{store_in, const_term};
ghost use Rattle.relation_reference.specs.Answers.{HasNoBinding};
ghost use Rattle.relation_reference.specs.Answers.{IsBoundToTy, VarReadsAsTy, VarReadsAsConst, TyReadsAs, ConstReadsAs};
ghost use Rattle.relation_reference.specs.Answers.{TyResolves, ConstResolves, TyStaysByLists, ConstStaysByLists};

use crate::context::shallow::{
    const_of_var, shallow_resolve, shallow_resolve_const, ty_of_float_var, ty_of_int_var, ty_of_var,
};
use crate::context::{RefCtxt, VariableValue};
use relation_semantics::infer_ctxt::InferCtxtLike;
use relation_terms::terms::{Const, ConstVid, FloatVid, IntVid, Interner, Ty, TyVid};

impl<I: Interner> RefCtxt<I> {
    /// The root of an integer variable's class.
    pub fn root_int_var(&self, var: IntVid) -> IntVid
        requires lawful { IsLawful (I.meaning self.now.interner) self.now.inner }
        requires made { var.0 < length self.now.inner.ints.items }
        ensures made { result.0 < length self.now.inner.ints.items }
        ensures leads { LeadsTo (store_in I.meaning self.now) int_var var.0 result.0 }
        ensures root { IsRoot (store_in I.meaning self.now) int_var result.0 }
    {
        IntVid(self.inner.ints.root_of(var.0))
    }

    /// The root of a float variable's class.
    pub fn root_float_var(&self, var: FloatVid) -> FloatVid
        requires lawful { IsLawful (I.meaning self.now.interner) self.now.inner }
        requires made { var.0 < length self.now.inner.floats.items }
        ensures made { result.0 < length self.now.inner.floats.items }
        ensures leads { LeadsTo (store_in I.meaning self.now) float_var var.0 result.0 }
        ensures root { IsRoot (store_in I.meaning self.now) float_var result.0 }
    {
        FloatVid(self.inner.floats.root_of(var.0))
    }

    /// The type that a type variable's class is bound to, or none.
    pub fn binding(&self, var: TyVid) -> Option<Ty<I>>
        requires lawful { IsLawful (I.meaning self.now.interner) self.now.inner }
        requires made { var.0 < length self.now.inner.types.items }
        ensures bound { IfSome result (λ t. IsBoundToTy I.meaning self.now var.0 t) }
        ensures unbound { IfNone result (HasNoBinding (store_in I.meaning self.now) type_var var.0) }
    {
        let root = self.root_ty_var(var);
        match self.inner.types.probe(root.0) {
            VariableValue::Known(ty) => Some(ty),
            VariableValue::Unknown => None,
            VariableValue::SameAs(_) => unreachable!(),
        }
    }

    /// The type that a type variable's class is bound to, or else the root of its class. Of another type variable that
    /// is read in turn.
    pub fn opportunistic_resolve_ty_var(&self, var: TyVid) -> Ty<I>
        requires lawful { IsLawful (I.meaning self.now.interner) self.now.inner }
        requires made { var.0 < length self.now.inner.types.items }
        ensures sure { IsTrue (known ((I.meaning self.now.interner).ty result)) }
        ensures reads { VarReadsAsTy (I.meaning self.now.interner) self.now.inner type_var var.0 result }
        ensures shallow { IsShallowTy (store_in I.meaning self.now) ((I.meaning self.now.interner).ty result) }
        ensures by_lists { IsWellBound ((I.meaning self.now.interner).ty result) }
    {
        ty_of_var(&self.interner, &self.inner, var)
    }

    /// The type that an integer variable's class is bound to, or else the root of its class.
    pub fn opportunistic_resolve_int_var(&self, var: IntVid) -> Ty<I>
        requires lawful { IsLawful (I.meaning self.now.interner) self.now.inner }
        requires made { var.0 < length self.now.inner.ints.items }
        ensures sure { IsTrue (known ((I.meaning self.now.interner).ty result)) }
        ensures reads { VarReadsAsTy (I.meaning self.now.interner) self.now.inner int_var var.0 result }
        ensures shallow { IsShallow (store_in I.meaning self.now) ((I.meaning self.now.interner).ty result) }
        ensures by_lists { IsWellBound ((I.meaning self.now.interner).ty result) }
    {
        ty_of_int_var(&self.interner, &self.inner, var)
    }

    /// The type that a float variable's class is bound to, or else the root of its class.
    pub fn opportunistic_resolve_float_var(&self, var: FloatVid) -> Ty<I>
        requires lawful { IsLawful (I.meaning self.now.interner) self.now.inner }
        requires made { var.0 < length self.now.inner.floats.items }
        ensures sure { IsTrue (known ((I.meaning self.now.interner).ty result)) }
        ensures reads { VarReadsAsTy (I.meaning self.now.interner) self.now.inner float_var var.0 result }
        ensures shallow { IsShallow (store_in I.meaning self.now) ((I.meaning self.now.interner).ty result) }
        ensures by_lists { IsWellBound ((I.meaning self.now.interner).ty result) }
    {
        ty_of_float_var(&self.interner, &self.inner, var)
    }

    /// The constant that a constant variable's class is bound to, or else the root of its class.
    pub fn opportunistic_resolve_ct_var(&self, var: ConstVid) -> Const<I>
        requires lawful { IsLawful (I.meaning self.now.interner) self.now.inner }
        requires made { var.0 < length self.now.inner.consts.items }
        ensures sure { IsTrue (known ((I.meaning self.now.interner).const_ result)) }
        ensures reads { VarReadsAsConst (I.meaning self.now.interner) self.now.inner var.0 result }
        ensures shallow { IsShallowConst (store_in I.meaning self.now) ((I.meaning self.now.interner).const_ result) }
        ensures by_lists { IsWellBound ((I.meaning self.now.interner).const_ result) }
    {
        const_of_var(&self.interner, &self.inner, var)
    }

    /// The type itself, or for a variable the type that its class is bound to, or else the root of its class. A type
    /// variable that is bound to another variable is read as that one is.
    pub fn shallow_resolve(&self, ty: &Ty<I>) -> Ty<I>
        requires lawful { IsLawful (I.meaning self.now.interner) self.now.inner }
        requires ty_known { IsTrue (known ((I.meaning self.now.interner).ty ty.now)) }
        requires ty_in { InContext (store_in I.meaning self.now) ((I.meaning self.now.interner).ty ty.now) }
        ensures sure { IsTrue (known ((I.meaning self.now.interner).ty result)) }
        ensures reads { TyReadsAs (I.meaning self.now.interner) self.now.inner ty.now result }
        ensures resolves { TyResolves (I.meaning self.now.interner) self.now.inner ty.now result }
        ensures shallow { IsShallow (store_in I.meaning self.now) ((I.meaning self.now.interner).ty result) }
        ensures by_lists { TyStaysByLists (I.meaning self.now.interner) ty.now result }
    {
        shallow_resolve(&self.interner, &self.inner, ty)
    }

    /// The constant itself, or for a variable the constant that its class is bound to, or else the root of its class.
    pub fn shallow_resolve_const(&self, constant: &Const<I>) -> Const<I>
        requires lawful { IsLawful (I.meaning self.now.interner) self.now.inner }
        requires const_known { IsTrue (known ((I.meaning self.now.interner).const_ constant.now)) }
        requires const_in { InContext (store_in I.meaning self.now) (const_term I.meaning self.now constant.now) }
        ensures sure { IsTrue (known ((I.meaning self.now.interner).const_ result)) }
        ensures reads { ConstReadsAs (I.meaning self.now.interner) self.now.inner constant.now result }
        ensures resolves { ConstResolves (I.meaning self.now.interner) self.now.inner constant.now result }
        ensures shallow { IsShallowConst (store_in I.meaning self.now) ((I.meaning self.now.interner).const_ result) }
        ensures by_lists { ConstStaysByLists (I.meaning self.now.interner) constant.now result }
    {
        shallow_resolve_const(&self.interner, &self.inner, constant)
    }
}
