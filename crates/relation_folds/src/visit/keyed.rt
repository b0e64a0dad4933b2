//! Visits by keys: of a type, a region, a constant, a value tree, a pattern, an argument and of lists of these.
ghost use Rattle.std.specs.Prelude.{IsTrue};
ghost use Rattle.relation_terms.specs.Trees.{known};
ghost use Rattle.relation_terms.specs.Meaning.{arg_tree};
ghost use Rattle.relation_folds.specs.Visits.{Walks, WalksParts, WalksAlternatives, WalksPredicates};

use crate::visit::TypeVisitor;
use crate::visit::walk::{visit_list, visit_part};
use relation_terms::terms::parts::parts_of;
use relation_terms::terms::{
    Alternatives, Branches, Const, ExistentialPredicates, GenericArg, GenericArgKind, GenericArgs,
    Interner, Part, Parts, Pat, Region, Ty, Tys, ValTree,
};
use std::ops::ControlFlow;

/// Goes over a type: asks the visitor about it, and then over its parts where the visitor enters it.
pub fn visit_ty_with<I: Interner, V: TypeVisitor<I>>(
    cx: &I,
    ty: &Ty<I>,
    visitor: &mut V,
) -> ControlFlow<()>
    requires { IsTrue (known ((I.meaning cx.now).ty ty.now)) }
    ensures { Walks (V.visits cx.now) 0 visitor.old ((I.meaning cx.now).ty ty.now) visitor.new result }
{
    visit_part(cx, &Part::Ty(*ty), 0, visitor)
}

/// Goes over the parts of a type, without the type itself.
pub fn super_visit_ty<I: Interner, V: TypeVisitor<I>>(
    cx: &I,
    ty: &Ty<I>,
    visitor: &mut V,
) -> ControlFlow<()>
    requires { IsTrue (known ((I.meaning cx.now).ty ty.now)) }
    ensures { WalksParts (V.visits cx.now) visitor.old ((I.meaning cx.now).ty ty.now) visitor.new result }
{
    visit_list(cx, &parts_of(cx, &Part::Ty(*ty)), 0, visitor)
}

/// Asks the visitor about a region.
pub fn visit_region_with<I: Interner, V: TypeVisitor<I>>(
    cx: &I,
    region: &Region<I>,
    visitor: &mut V,
) -> ControlFlow<()>
    requires { IsTrue (known ((I.meaning cx.now).region region.now)) }
    ensures { Walks (V.visits cx.now) 0 visitor.old ((I.meaning cx.now).region region.now) visitor.new result }
{
    visit_part(cx, &Part::Region(*region), 0, visitor)
}

/// Goes over a constant: asks the visitor about it, and then over its parts where the visitor enters it.
pub fn visit_const_with<I: Interner, V: TypeVisitor<I>>(
    cx: &I,
    constant: &Const<I>,
    visitor: &mut V,
) -> ControlFlow<()>
    requires { IsTrue (known ((I.meaning cx.now).const_ constant.now)) }
    ensures { Walks (V.visits cx.now) 0 visitor.old ((I.meaning cx.now).const_ constant.now) visitor.new result }
{
    visit_part(cx, &Part::Const(*constant), 0, visitor)
}

/// Goes over the parts of a constant, without the constant itself.
pub fn super_visit_const<I: Interner, V: TypeVisitor<I>>(
    cx: &I,
    constant: &Const<I>,
    visitor: &mut V,
) -> ControlFlow<()>
    requires { IsTrue (known ((I.meaning cx.now).const_ constant.now)) }
    ensures { WalksParts (V.visits cx.now) visitor.old ((I.meaning cx.now).const_ constant.now) visitor.new result }
{
    visit_list(cx, &parts_of(cx, &Part::Const(*constant)), 0, visitor)
}

/// Goes over the constants that a value is made of.
pub fn visit_valtree_with<I: Interner, V: TypeVisitor<I>>(
    cx: &I,
    value: &ValTree<I>,
    visitor: &mut V,
) -> ControlFlow<()>
    requires { IsTrue (known ((I.meaning cx.now).valtree value.now)) }
    ensures { Walks (V.visits cx.now) 0 visitor.old ((I.meaning cx.now).valtree value.now) visitor.new result }
{
    visit_part(cx, &Part::ValTree(*value), 0, visitor)
}

/// Goes over a list of constants, in order.
pub fn visit_branches_with<I: Interner, V: TypeVisitor<I>>(
    cx: &I,
    branches: &Branches<I>,
    visitor: &mut V,
) -> ControlFlow<()>
    requires { IsTrue (known ((I.meaning cx.now).branches branches.now)) }
    ensures { Walks (V.visits cx.now) 0 visitor.old ((I.meaning cx.now).branches branches.now) visitor.new result }
{
    visit_list(cx, &Parts::Branches(*branches), 0, visitor)
}

/// Goes over what a pattern is made of.
pub fn visit_pat_with<I: Interner, V: TypeVisitor<I>>(
    cx: &I,
    pat: &Pat<I>,
    visitor: &mut V,
) -> ControlFlow<()>
    requires { IsTrue (known ((I.meaning cx.now).pat pat.now)) }
    ensures { Walks (V.visits cx.now) 0 visitor.old ((I.meaning cx.now).pat pat.now) visitor.new result }
{
    visit_part(cx, &Part::Pat(*pat), 0, visitor)
}

/// Goes over a list of patterns, in order.
pub fn visit_alternatives_with<I: Interner, V: TypeVisitor<I>>(
    cx: &I,
    alternatives: &Alternatives<I>,
    visitor: &mut V,
) -> ControlFlow<()>
    requires { IsTrue (known ((I.meaning cx.now).alternatives alternatives.now)) }
    ensures { WalksAlternatives (V.visits cx.now) (I.meaning cx.now) visitor.old alternatives.now visitor.new result }
{
    visit_list(cx, &Parts::Alternatives(*alternatives), 0, visitor)
}

/// Goes over what is given for a generic parameter.
pub fn visit_arg_with<I: Interner, V: TypeVisitor<I>>(
    cx: &I,
    arg: &GenericArg<I>,
    visitor: &mut V,
) -> ControlFlow<()>
    requires { IsTrue (known (arg_tree (I.meaning cx.now) arg.now)) }
    ensures { Walks (V.visits cx.now) 0 visitor.old (arg_tree (I.meaning cx.now) arg.now) visitor.new result }
{
    match arg {
        GenericArgKind::Lifetime(region) => visit_region_with(cx, region, visitor),
        GenericArgKind::Ty(ty) => visit_ty_with(cx, ty, visitor),
        GenericArgKind::Const(constant) => visit_const_with(cx, constant, visitor),
    }
}

/// Goes over a list of arguments, in order.
pub fn visit_args_with<I: Interner, V: TypeVisitor<I>>(
    cx: &I,
    args: &GenericArgs<I>,
    visitor: &mut V,
) -> ControlFlow<()>
    requires { IsTrue (known ((I.meaning cx.now).args args.now)) }
    ensures { Walks (V.visits cx.now) 0 visitor.old ((I.meaning cx.now).args args.now) visitor.new result }
{
    visit_list(cx, &Parts::Args(*args), 0, visitor)
}

/// Goes over a list of types, in order.
pub fn visit_tys_with<I: Interner, V: TypeVisitor<I>>(
    cx: &I,
    tys: &Tys<I>,
    visitor: &mut V,
) -> ControlFlow<()>
    requires { IsTrue (known ((I.meaning cx.now).tys tys.now)) }
    ensures { Walks (V.visits cx.now) 0 visitor.old ((I.meaning cx.now).tys tys.now) visitor.new result }
{
    visit_list(cx, &Parts::Tys(*tys), 0, visitor)
}

/// Goes over a list of a trait object's predicates, in order, each under its binder.
pub fn visit_predicates_with<I: Interner, V: TypeVisitor<I>>(
    cx: &I,
    predicates: &ExistentialPredicates<I>,
    visitor: &mut V,
) -> ControlFlow<()>
    requires { IsTrue (known ((I.meaning cx.now).existential_predicates predicates.now)) }
    ensures { WalksPredicates (V.visits cx.now) (I.meaning cx.now) visitor.old predicates.now visitor.new result }
{
    visit_list(cx, &Parts::Predicates(*predicates), 0, visitor)
}
