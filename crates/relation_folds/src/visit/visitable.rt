//! What can be visited: keys, arguments, pairs of these, and errors.
use crate::error::{ExpectedFound, TypeError};
use crate::visit::{
    TypeSuperVisitable, TypeVisitable, TypeVisitor, super_visit_const, super_visit_ty,
    visit_alternatives_with, visit_arg_with, visit_args_with, visit_branches_with,
    visit_const_with, visit_pat_with, visit_region_with, visit_ty_with, visit_tys_with,
    visit_valtree_with,
};
use relation_terms::terms::{
    AlternativesKey, ArgsKey, BranchesKey, ConstKey, GenericArgKind, Interner, PatKey, RegionKey,
    TermKind, TyKey, TysKey, ValTreeKey,
};
use std::ops::ControlFlow;

impl<I: Interner> TypeVisitable<I> for TyKey<I::Key> {
    fn visit_with<V: TypeVisitor<I>>(&self, cx: &I, visitor: &mut V) -> ControlFlow<()> {
        visit_ty_with(cx, self, visitor)
    }
}

impl<I: Interner> TypeSuperVisitable<I> for TyKey<I::Key> {
    fn super_visit_with<V: TypeVisitor<I>>(&self, cx: &I, visitor: &mut V) -> ControlFlow<()> {
        super_visit_ty(cx, self, visitor)
    }
}

impl<I: Interner> TypeVisitable<I> for RegionKey<I::Key> {
    fn visit_with<V: TypeVisitor<I>>(&self, cx: &I, visitor: &mut V) -> ControlFlow<()> {
        visit_region_with(cx, self, visitor)
    }
}

impl<I: Interner> TypeVisitable<I> for ConstKey<I::Key> {
    fn visit_with<V: TypeVisitor<I>>(&self, cx: &I, visitor: &mut V) -> ControlFlow<()> {
        visit_const_with(cx, self, visitor)
    }
}

impl<I: Interner> TypeSuperVisitable<I> for ConstKey<I::Key> {
    fn super_visit_with<V: TypeVisitor<I>>(&self, cx: &I, visitor: &mut V) -> ControlFlow<()> {
        super_visit_const(cx, self, visitor)
    }
}

impl<I: Interner> TypeVisitable<I> for GenericArgKind<I::Key> {
    fn visit_with<V: TypeVisitor<I>>(&self, cx: &I, visitor: &mut V) -> ControlFlow<()> {
        visit_arg_with(cx, self, visitor)
    }
}

impl<I: Interner> TypeVisitable<I> for TermKind<I::Key> {
    fn visit_with<V: TypeVisitor<I>>(&self, cx: &I, visitor: &mut V) -> ControlFlow<()> {
        match self {
            TermKind::Ty(ty) => visit_ty_with(cx, ty, visitor),
            TermKind::Const(constant) => visit_const_with(cx, constant, visitor),
        }
    }
}

impl<I: Interner> TypeVisitable<I> for ArgsKey<I::Key> {
    fn visit_with<V: TypeVisitor<I>>(&self, cx: &I, visitor: &mut V) -> ControlFlow<()> {
        visit_args_with(cx, self, visitor)
    }
}

impl<I: Interner> TypeVisitable<I> for TysKey<I::Key> {
    fn visit_with<V: TypeVisitor<I>>(&self, cx: &I, visitor: &mut V) -> ControlFlow<()> {
        visit_tys_with(cx, self, visitor)
    }
}

impl<I: Interner> TypeVisitable<I> for ValTreeKey<I::Key> {
    fn visit_with<V: TypeVisitor<I>>(&self, cx: &I, visitor: &mut V) -> ControlFlow<()> {
        visit_valtree_with(cx, self, visitor)
    }
}

impl<I: Interner> TypeVisitable<I> for BranchesKey<I::Key> {
    fn visit_with<V: TypeVisitor<I>>(&self, cx: &I, visitor: &mut V) -> ControlFlow<()> {
        visit_branches_with(cx, self, visitor)
    }
}

impl<I: Interner> TypeVisitable<I> for PatKey<I::Key> {
    fn visit_with<V: TypeVisitor<I>>(&self, cx: &I, visitor: &mut V) -> ControlFlow<()> {
        visit_pat_with(cx, self, visitor)
    }
}

impl<I: Interner> TypeVisitable<I> for AlternativesKey<I::Key> {
    fn visit_with<V: TypeVisitor<I>>(&self, cx: &I, visitor: &mut V) -> ControlFlow<()> {
        visit_alternatives_with(cx, self, visitor)
    }
}

impl<I: Interner, T: TypeVisitable<I>> TypeVisitable<I> for ExpectedFound<T> {
    fn visit_with<V: TypeVisitor<I>>(&self, cx: &I, visitor: &mut V) -> ControlFlow<()> {
        self.expected.visit_with(cx, visitor)?;
        self.found.visit_with(cx, visitor)
    }
}

/// The terms that it names, in order.
impl<I: Interner> TypeVisitable<I> for TypeError<I::Key, I::Id, I::Name> {
    fn visit_with<V: TypeVisitor<I>>(&self, cx: &I, visitor: &mut V) -> ControlFlow<()> {
        match self {
            TypeError::ArraySize(pair) | TypeError::ConstMismatch(pair) => {
                pair.visit_with(cx, visitor)
            }
            TypeError::RegionsDoesNotOutlive(longer, shorter) => {
                longer.visit_with(cx, visitor)?;
                shorter.visit_with(cx, visitor)
            }
            TypeError::RegionsInsufficientlyPolymorphic(_, region) => {
                region.visit_with(cx, visitor)
            }
            TypeError::Sorts(pair) | TypeError::ArgumentSorts(pair, _) => {
                pair.visit_with(cx, visitor)
            }
            TypeError::CyclicTy(ty) => ty.visit_with(cx, visitor),
            TypeError::CyclicConst(constant) => constant.visit_with(cx, visitor),
            TypeError::ExistentialMismatch(pair) => pair.visit_with(cx, visitor),
            _ => ControlFlow::Continue(()),
        }
    }
}
