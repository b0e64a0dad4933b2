//! A type over an item, related with itself by its arguments, through the relation of terms without variables.
ghost use Rattle.std.specs.Prelude.{◌≡◌, ◌≢◌, IfOk, IsTrue, []};
ghost use Rattle.relation_terms.specs.Heads.{adt};
ghost use Rattle.relation_terms.specs.Trees.{node, known};
ghost use Rattle.relation_terms.specs.Meaning.{Extends};
ghost use Rattle.term_enums.specs.declared.Variance.TheVariants.{Bivariant};
ghost use Rattle.reference_interner.specs.Adding.{meaning_in};
ghost use Rattle.relation_semantics.specs.Lawful.{Asked};
ghost use Rattle.plain_relation.specs.Concrete.{IsConcrete};
ghost use Rattle.plain_relation.specs.Plain.{plain_state, plain_manner};

use crate::relating::{add_contravariant, args_ask_nothing, make_args, make_byte};
use plain_relation::PlainRelation;
use reference_interner::{ItemId, NodeKey, RefInterner};
use relation_folds::error::RelateResult;
use relation_terms::terms::{
    AdtId, ArgsKey, DefId, GenericArgs, Interner, OutOfMemory, Ty, TyKey, TyKind, Variance,
};
use std::test::Fail;
use type_relations::relate::relate_ty_args;

/// A type over an item, and its arguments.
#[derive(Clone, Copy)]
struct OverItem<X> {
    ty: TyKey<X>,
    args: ArgsKey<X>,
}

// The type of an item over a list of arguments.
fn make_item<I: Interner>(
    cx: &mut I,
    item: &I::Id,
    args: GenericArgs<I>,
) -> Result<Ty<I>, OutOfMemory>
    requires { IsTrue (known ((I.meaning cx.old).args args)) }
    ensures grown { Extends (I.meaning cx.old) (I.meaning cx.new) }
    ensures sure { IfOk result (λ k. IsTrue (known ((I.meaning cx.new).ty k))) }
    ensures made { IfOk result (λ k. (I.meaning cx.new).ty k ≡
        node (adt ((I.meaning cx.old).id item.now)) ((I.meaning cx.old).args args)) }
{
    cx.mk_ty(TyKind::Adt(AdtId(*item), args))
}

// The same of one argument.
fn make_over<I: Interner>(
    cx: &mut I,
    item: &I::Id,
    argument: &TyKey<I::Key>,
) -> Result<OverItem<I::Key>, OutOfMemory>
    requires { IsConcrete ((I.meaning cx.old).ty argument.now) }
    ensures concrete { IfOk result (λ t. IsConcrete ((I.meaning cx.new).args t.args)) }
    ensures is { IfOk result (λ t. (I.meaning cx.new).ty t.ty ≡
        node (adt ((I.meaning cx.new).id item.now)) ((I.meaning cx.new).args t.args)) }
{
    let args = make_args(cx, argument)?;
    let ty = make_item(cx, item, args)?;
    Ok(OverItem { ty, args })
}

// The relation without variables, after it has related the type with itself, and the answer.
fn related_over(
    cx: RefInterner,
    variance: Variance,
    item: ItemId,
    over: &OverItem<NodeKey>,
) -> RelateResult<RefInterner, (Ty<RefInterner>, PlainRelation<RefInterner>)>
    requires decides { variance ≢ Bivariant }
    requires asked { Asked plain_manner (plain_state (meaning_in cx) variance []) variance
        ((meaning_in cx).ty (over.now).ty) ((meaning_in cx).ty (over.now).ty) }
    requires args_known { IsTrue (known ((meaning_in cx).args (over.now).args)) }
    requires is { (meaning_in cx).ty (over.now).ty ≡
        node (adt ((meaning_in cx).id item)) ((meaning_in cx).args (over.now).args) }
{
    let mut relation = PlainRelation::new(cx, variance);
    let answer = relate_ty_args(
        &mut relation,
        &over.ty,
        &over.ty,
        &DefId(item),
        &over.args,
        &over.args,
        |cx: &mut RefInterner, args: GenericArgs<RefInterner>|
            requires { IsTrue (known ((meaning_in cx.old).args args)) }
            ensures grown { Extends (meaning_in cx.old) (meaning_in cx.new) }
            ensures sure { IfOk result (λ k. IsTrue (known ((meaning_in cx.new).ty k))) }
            ensures made { IfOk result (λ k. (meaning_in cx.new).ty k ≡
                node (adt ((meaning_in cx.old).id item)) ((meaning_in cx.old).args args)) }
        { make_item(cx, &item, args) },
    )?;
    Ok((answer, relation))
}

// Whether the answer is the type, and nothing is asked of regions.
fn asks_over(
    cx: RefInterner,
    item: ItemId,
    over: &OverItem<NodeKey>,
) -> RelateResult<RefInterner, bool>
    requires concrete { IsConcrete ((meaning_in cx).args (over.now).args) }
    requires is { (meaning_in cx).ty (over.now).ty ≡
        node (adt ((meaning_in cx).id item)) ((meaning_in cx).args (over.now).args) }
{
    let (answer, relation) = related_over(cx, Variance::Covariant, item, over)?;
    Ok((answer == over.ty) & relation.constraints.is_empty())
}

#[test]
fn types_over_an_item_are_related(rt: HostRuntime) -> Result<(), Fail> {
    let mut cx = RefInterner::new(rt.alloc());
    let item = add_contravariant(&mut cx, rt.alloc())?;
    let byte = make_byte(&mut cx)?;
    let over = make_over(&mut cx, &item, &byte)?;
    assert!(rt; asks_over(cx, item, &over) == Ok(true));
    let mut cx = RefInterner::new(rt.alloc());
    let byte = make_byte(&mut cx)?;
    let over = make_over(&mut cx, &item, &byte)?;
    assert!(rt; args_ask_nothing(cx, &DefId(item), &over.args) == Ok(true));
    Ok(())
}
