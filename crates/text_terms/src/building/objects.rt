//! The key of a trait object, and what one implements, by the keys of their parts.
ghost use Rattle.std.specs.Prelude.{◌≡◌, Some, IsTrue};
ghost use Rattle.relation_terms.specs.Heads.{existential_trait, existential_projection};
ghost use Rattle.relation_terms.specs.Trees.{known, node, cons, list_tree};
ghost use Rattle.relation_terms.specs.Meaning.{Extends, arg_tree, bound_kinds, existential_tree, under};
ghost use Rattle.text_terms.specs.Terms.{object_tree};
ghost use Rattle.text_terms.specs.Built.{AreKnown, AreInnerKnown, MakesObject, MakesPredicate, MakesInner};
ghost use Rattle.text_terms.specs.Built.{MakesTree, inner_tree};

use crate::building::binders::variables_at;
use crate::building::inner::{Inner, InnerOf, predicates_of, term_of};
use crate::building::lists::{key_at, keys_at, region_at};
use crate::building::making::{make_ty, name_at};
use relation_terms::predicate::{ExistentialPredicate, ExistentialProjection, ExistentialTraitRef};
use relation_terms::terms::{
    Binder, BoundVariable, GenericArg, Interner, Region, TraitAssocTermId, TraitId, TyKind,
};
use text_reading::naming::Term;

// What is implemented, under the binder of those variables.
fn make_under<I: Interner>(
    cx: &mut I,
    variables: &[BoundVariable<I>],
    value: ExistentialPredicate<I::Key, I::Id>,
) -> Option<InnerOf<I>>
    requires { IsTrue (known (existential_tree (I.meaning cx.old) value)) }
    ensures grown { Extends (I.meaning cx.old) (I.meaning cx.new) }
    ensures made { let m = I.meaning cx.old in
        let tree = under (Some (bound_kinds m variables.now)) (existential_tree m value) in
        MakesInner (I.meaning cx.new) tree result }
{
    let Ok(bound_vars) = cx.mk_bound_vars(variables) else {
        return None;
    };
    Some(Inner::Predicate(Binder { value, bound_vars }))
}

// That a trait is implemented, over these arguments.
fn make_implements<I: Interner>(
    cx: &mut I,
    variables: &[BoundVariable<I>],
    id: I::Id,
    args: &[GenericArg<I>],
) -> Option<InnerOf<I>>
    requires { IsTrue (known (list_tree (arg_tree (I.meaning cx.old)) args.now)) }
    ensures grown { Extends (I.meaning cx.old) (I.meaning cx.new) }
    ensures made { let m = I.meaning cx.old in
        let value = node (existential_trait (m.id id)) (list_tree (arg_tree m) args.now) in
        MakesInner (I.meaning cx.new) (under (Some (bound_kinds m variables.now)) value) result }
{
    let Ok(args) = cx.mk_args(args) else {
        return None;
    };
    let def_id = TraitId(id);
    let of = ExistentialTraitRef { def_id, args };
    make_under(cx, variables, ExistentialPredicate::Trait(of))
}

// What a trait's type or constant is, over these arguments.
fn make_projects<I: Interner>(
    cx: &mut I,
    variables: &[BoundVariable<I>],
    id: I::Id,
    args: &[GenericArg<I>],
    key: GenericArg<I>,
) -> Option<InnerOf<I>>
    requires args { IsTrue (known (list_tree (arg_tree (I.meaning cx.old)) args.now)) }
    requires key { IsTrue (known (arg_tree (I.meaning cx.old) key)) }
    ensures grown { Extends (I.meaning cx.old) (I.meaning cx.new) }
    ensures made { let m = I.meaning cx.old in
        let value = node (existential_projection (m.id id)) (cons (arg_tree m key) (list_tree (arg_tree m) args.now)) in
        MakesInner (I.meaning cx.new) (under (Some (bound_kinds m variables.now)) value) result }
{
    let term = term_of(&key)?;
    let Ok(args) = cx.mk_args(args) else {
        return None;
    };
    let def_id = TraitAssocTermId(id);
    let of = ExistentialProjection { def_id, args, term };
    make_under(cx, variables, ExistentialPredicate::Projection(of))
}

// A trait object over its predicates.
fn make_dynamic<I: Interner>(
    cx: &mut I,
    inners: &[InnerOf<I>],
    region: Region<I>,
) -> Option<GenericArg<I>>
    requires inners { IsTrue (known (list_tree (inner_tree (I.meaning cx.old)) inners.now)) }
    requires region { IsTrue (known ((I.meaning cx.old).region region)) }
    ensures grown { Extends (I.meaning cx.old) (I.meaning cx.new) }
    ensures made { let m = I.meaning cx.old in
        let tree = object_tree (list_tree (inner_tree m) inners.now) (m.region region) in
        MakesTree (I.meaning cx.new) tree result }
{
    let list = predicates_of(cx.alloc(), inners)?;
    let Ok(predicates) = cx.mk_existential_predicates(&list) else {
        return None;
    };
    make_ty(cx, TyKind::Dynamic(predicates, region))
}

// A trait object. A term that is none has no key.
pub(super) fn make_object<I: Interner>(
    cx: &mut I,
    numbers: &[usize],
    built: &[Option<GenericArg<I>>],
    inners: &[Option<InnerOf<I>>],
    term: Term,
) -> Option<GenericArg<I>>
    requires keys { AreKnown (I.meaning cx.old) built.now }
    requires inners { AreInnerKnown (I.meaning cx.old) inners.now }
    ensures grown { Extends (I.meaning cx.old) (I.meaning cx.new) }
    ensures made { MakesObject (I.meaning cx.old) (I.meaning cx.new) numbers.now built.now inners.now term result }
{
    match term {
        Term::Object(parts, region) => {
            let list = keys_at(cx.alloc(), numbers, inners, parts)?;
            let region = region_at(built, region)?;
            make_dynamic(cx, &list, region)
        }
        _ => None,
    }
}

// What a trait object implements. A term that is none of that has none.
pub(super) fn make_predicate<I: Interner>(
    cx: &mut I,
    ids: &[I::Id],
    numbers: &[usize],
    built: &[Option<GenericArg<I>>],
    term: Term,
) -> Option<InnerOf<I>>
    requires { AreKnown (I.meaning cx.old) built.now }
    ensures grown { Extends (I.meaning cx.old) (I.meaning cx.new) }
    ensures made { MakesPredicate (I.meaning cx.old) (I.meaning cx.new) ids.now numbers.now built.now term result }
{
    match term {
        Term::Implements(variables, item, args) => {
            let variables = variables_at(&*cx, numbers, built, variables)?;
            let id = name_at(ids, item)?;
            let args = keys_at(cx.alloc(), numbers, built, args)?;
            make_implements(cx, &variables, id, &args)
        }
        Term::Projects(variables, item, args, key) => {
            let variables = variables_at(&*cx, numbers, built, variables)?;
            let id = name_at(ids, item)?;
            let args = keys_at(cx.alloc(), numbers, built, args)?;
            let key = key_at(built, key)?;
            make_projects(cx, &variables, id, &args, key)
        }
        Term::IsAuto(variables, item) => {
            let variables = variables_at(&*cx, numbers, built, variables)?;
            let id = name_at(ids, item)?;
            make_under(cx, &variables, ExistentialPredicate::AutoTrait(TraitId(id)))
        }
        _ => None,
    }
}
