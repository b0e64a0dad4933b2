//! The key of an item over its arguments.
ghost use Rattle.std.specs.Prelude.{◌≡◌, Some, IsTrue, IfSome};
ghost use Rattle.relation_terms.specs.Trees.{known, list_tree};
ghost use Rattle.relation_terms.specs.Meaning.{Extends, arg_tree};
ghost use Rattle.text_terms.specs.Terms.{item_tree};
ghost use Rattle.text_terms.specs.Built.{MakesTree, item_over, IsItemForm, IsConstItemForm};

use crate::building::making::{make_const, make_ty};
use relation_terms::terms::{
    AdtId, AliasTy, AliasTyKind, ClosureId, ConstForm, ConstKind, CoroutineClosureId, CoroutineId,
    ForeignId, FreeTyAliasId, FunctionId, GenericArg, GenericArgs, InherentAssocTyId, Interner,
    OpaqueTyId, TraitAssocTyId, TyForm, TyKind, UnevaluatedConst, UnevaluatedConstId,
};
use text_reading::reading::ItemSort;

// The form of an item over arguments that is a type of its own. Another item has no such form.
fn item_form<I: Interner>(sort: ItemSort, id: I::Id, args: GenericArgs<I>) -> Option<TyForm<I>>
    ensures { IfSome result (IsItemForm I.Key I.Id I.Name sort id args) }
{
    match sort {
        ItemSort::Struct => Some(TyKind::Adt(AdtId(id), args)),
        ItemSort::Fn => Some(TyKind::FnDef(FunctionId(id), args)),
        ItemSort::Closure => Some(TyKind::Closure(ClosureId(id), args)),
        ItemSort::Coroutine => Some(TyKind::Coroutine(CoroutineId(id), args)),
        ItemSort::CoroutineClosure => {
            Some(TyKind::CoroutineClosure(CoroutineClosureId(id), args))
        }
        ItemSort::CoroutineWitness => Some(TyKind::CoroutineWitness(CoroutineId(id), args)),
        _ => None,
    }
}

// The form of an alias of a type over arguments. Another item has no such form.
fn alias_form<I: Interner>(sort: ItemSort, id: I::Id, args: GenericArgs<I>) -> Option<TyForm<I>>
    ensures { IfSome result (IsItemForm I.Key I.Id I.Name sort id args) }
{
    let kind = match sort {
        ItemSort::AssocTy => AliasTyKind::Projection {
            def_id: TraitAssocTyId(id),
        },
        ItemSort::InherentTy => AliasTyKind::Inherent {
            def_id: InherentAssocTyId(id),
        },
        ItemSort::Opaque => AliasTyKind::Opaque {
            def_id: OpaqueTyId(id),
        },
        ItemSort::FreeTy => AliasTyKind::Free {
            def_id: FreeTyAliasId(id),
        },
        _ => return None,
    };
    Some(TyKind::Alias(AliasTy { kind, args }))
}

// The form of a constant that is an item over arguments, and is not evaluated. Another item has no such form.
fn const_item_form<I: Interner>(
    sort: ItemSort,
    id: I::Id,
    args: GenericArgs<I>,
) -> Option<ConstForm<I>>
    ensures { IfSome result (IsConstItemForm I.Key I.Id I.Name sort id args) }
{
    let def = UnevaluatedConstId(id);
    let form = ConstKind::Unevaluated(UnevaluatedConst { def, args });
    match sort {
        ItemSort::AssocConst | ItemSort::FreeConst | ItemSort::InherentConst => Some(form),
        _ => None,
    }
}

// An item over arguments whose list was made. A trait over arguments is no term.
fn make_over<I: Interner>(
    cx: &mut I,
    sort: ItemSort,
    id: I::Id,
    args: GenericArgs<I>,
) -> Option<GenericArg<I>>
    requires { IsTrue (known ((I.meaning cx.old).args args)) }
    ensures grown { Extends (I.meaning cx.old) (I.meaning cx.new) }
    ensures made { let m = I.meaning cx.old in
        MakesTree (I.meaning cx.new) (item_tree sort (Some (m.id id)) (m.args args)) result }
{
    if let Some(form) = item_form::<I>(sort, id, args) {
        return make_ty(cx, form);
    }
    if let Some(form) = alias_form::<I>(sort, id, args) {
        return make_ty(cx, form);
    }
    let form = const_item_form::<I>(sort, id, args)?;
    make_const(cx, form)
}

// An item over its arguments.
pub(super) fn make_item<I: Interner>(
    cx: &mut I,
    sort: ItemSort,
    id: I::Id,
    args: &[GenericArg<I>],
) -> Option<GenericArg<I>>
    requires { IsTrue (known (list_tree (arg_tree (I.meaning cx.old)) args.now)) }
    ensures grown { Extends (I.meaning cx.old) (I.meaning cx.new) }
    ensures made { MakesTree (I.meaning cx.new) (item_over (I.meaning cx.old) sort id args.now) result }
{
    if sort == ItemSort::Foreign {
        return make_ty(cx, TyKind::Foreign(ForeignId(id)));
    }
    let Ok(args) = cx.mk_args(args) else {
        return None;
    };
    make_over(cx, sort, id, args)
}
