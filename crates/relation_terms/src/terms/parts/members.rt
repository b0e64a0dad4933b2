//! Lists of parts: how many members they have, each by its place, and lists of others.
ghost use Rattle.std.specs.Prelude.{◌≡◌, ◌<◌, IsTrue, IfOk, OnErr, map};
ghost use Rattle.relation_terms.specs.Trees.{known, count, nth, list_tree, IsList, front, last};
ghost use Rattle.relation_terms.specs.Meaning.{Extends};
ghost use Rattle.relation_terms.specs.Parts.{part_tree, parts_tree, part_of_arg, Fit, Alike, AreArgs, AreTys};
ghost use Rattle.relation_terms.specs.Parts.{AreConsts, ArePats, ArePredicates, part_of_predicate, IsTermArgs};
ghost use Rattle.relation_terms.specs.Parts.{IsTermList, MakesParts};
ghost use Rattle.relation_terms.specs.declared.terms.part_kind.Part.TheVariants.{Ty as TyPart};
ghost use Rattle.relation_terms.specs.declared.terms.part_kind.Part.TheVariants.{Const as ConstPart};
ghost use Rattle.relation_terms.specs.declared.terms.part_kind.Part.TheVariants.{Pat as PatPart};

use crate::predicate::ExistentialPredicate;
use crate::terms::parts::keys::{
    expect_arg, expect_const, expect_pat, expect_predicate, expect_term, expect_ty, of_arg,
    of_predicate, of_term,
};
use crate::terms::{
    Binder, ConstKey, GenericArgKind, Interner, OutOfMemory, Part, PartOf, Parts, PartsOf, PatKey,
    Ty, TyKey, Tys,
};
use std::alloc::Global;

// The last type of a list that has one.
pub fn last_of<I: Interner>(cx: &I, tys: &Tys<I>) -> Ty<I>
    requires { IsTrue (known (front ((I.meaning cx.now).tys tys.now))) }
    ensures sure { IsTrue (known ((I.meaning cx.now).ty result)) }
    ensures means { (I.meaning cx.now).ty result ≡ last ((I.meaning cx.now).tys tys.now) }
{
    let list = cx.tys(tys);
    list[list.len() - 1]
}

/// How many members a list of parts has. The interner has to know the list.
#[inline(always)]
pub fn member_count<I: Interner>(cx: &I, parts: &PartsOf<I>) -> usize
    requires { IsTrue (known (parts_tree (I.meaning cx.now) parts.now)) }
    ensures counts { result ≡ count (parts_tree (I.meaning cx.now) parts.now) }
    ensures is_list { IsList (parts_tree (I.meaning cx.now) parts.now) }
{
    match parts {
        Parts::Empty => 0,
        Parts::One(_) => 1,
        Parts::Two(..) => 2,
        Parts::Args(args) => cx.args(args).len(),
        Parts::Tys(tys) => cx.tys(tys).len(),
        Parts::Branches(branches) => cx.branches(branches).len(),
        Parts::Alternatives(alternatives) => cx.alternatives(alternatives).len(),
        Parts::TermArgs(_, args) => 1 + cx.args(args).len(),
        Parts::Inputs(tys) => cx.tys(tys).len() - 1,
        Parts::Predicates(predicates) => cx.existential_predicates(predicates).len(),
    }
}

/// The member of a list of parts at a place.
///
/// The interner has to know the list, and the place has to be below `member_count`. The interner knows the member too.
#[inline(always)]
pub fn member<I: Interner>(cx: &I, parts: &PartsOf<I>, i: usize) -> PartOf<I>
    requires list_known { IsTrue (known (parts_tree (I.meaning cx.now) parts.now)) }
    requires in_bounds { i < count (parts_tree (I.meaning cx.now) parts.now) }
    ensures sure { IsTrue (known (part_tree (I.meaning cx.now) result)) }
    ensures means { part_tree (I.meaning cx.now) result ≡ nth i (parts_tree (I.meaning cx.now) parts.now) }
{
    match parts {
        Parts::Empty => unreachable!(),
        Parts::One(only) => *only,
        Parts::Two(first, _) if i == 0 => *first,
        Parts::Two(_, second) => *second,
        Parts::Args(args) => of_arg(&cx.args(args)[i]),
        Parts::Tys(tys) => Part::Ty(cx.tys(tys)[i]),
        Parts::Branches(branches) => Part::Const(cx.branches(branches)[i]),
        Parts::Alternatives(alternatives) => Part::Pat(cx.alternatives(alternatives)[i]),
        Parts::TermArgs(term, _) if i == 0 => of_term(term),
        Parts::TermArgs(_, args) => of_arg(&cx.args(args)[i - 1]),
        Parts::Inputs(tys) => Part::Ty(cx.tys(tys)[i]),
        Parts::Predicates(predicates) => of_predicate(&cx.existential_predicates(predicates)[i]),
    }
}

// Parts that are arguments, as the list of these.
fn args_of<X: Copy, D: Copy>(
    parts: &[Part<X, D>],
    alloc: Global,
) -> Result<Vec<GenericArgKind<X>>, OutOfMemory>
    requires { AreArgs parts.now }
    ensures { IfOk result (λ list. map part_of_arg list.items ≡ parts.now) }
{
    let mut list = Vec::new(alloc);
    for part in parts {
        list.push(expect_arg(part))?;
    }
    Ok(list)
}

// Parts that are types, as the list of these.
fn tys_of<X: Copy, D: Copy>(
    parts: &[Part<X, D>],
    alloc: Global,
) -> Result<Vec<TyKey<X>>, OutOfMemory>
    requires { AreTys parts.now }
    ensures { IfOk result (λ list. map (λ t. TyPart t) list.items ≡ parts.now) }
{
    let mut list = Vec::new(alloc);
    for part in parts {
        list.push(expect_ty(part))?;
    }
    Ok(list)
}

// Parts that are constants, as the list of these. What is seldom made stands apart: so `make_parts` is short enough to
// be made one with its callers, which know the list's sort.
#[inline(never)]
fn consts_of<X: Copy, D: Copy>(
    parts: &[Part<X, D>],
    alloc: Global,
) -> Result<Vec<ConstKey<X>>, OutOfMemory>
    requires { AreConsts parts.now }
    ensures { IfOk result (λ list. map (λ c. ConstPart c) list.items ≡ parts.now) }
{
    let mut list = Vec::new(alloc);
    for part in parts {
        list.push(expect_const(part))?;
    }
    Ok(list)
}

// Parts that are patterns, as the list of these.
#[inline(never)]
fn pats_of<X: Copy, D: Copy>(
    parts: &[Part<X, D>],
    alloc: Global,
) -> Result<Vec<PatKey<X>>, OutOfMemory>
    requires { ArePats parts.now }
    ensures { IfOk result (λ list. map (λ p. PatPart p) list.items ≡ parts.now) }
{
    let mut list = Vec::new(alloc);
    for part in parts {
        list.push(expect_pat(part))?;
    }
    Ok(list)
}

// Parts that are predicates of a trait object, as the list of these.
#[inline(never)]
fn predicates_of<X: Copy, D: Copy>(
    parts: &[Part<X, D>],
    alloc: Global,
) -> Result<Vec<Binder<X, ExistentialPredicate<X, D>>>, OutOfMemory>
    requires { ArePredicates parts.now }
    ensures { IfOk result (λ list. map part_of_predicate list.items ≡ parts.now) }
{
    let mut list = Vec::new(alloc);
    for part in parts {
        list.push(expect_predicate(part))?;
    }
    Ok(list)
}

// The list of a term, then arguments, of which these are the members.
#[inline(never)]
fn make_term_args<I: Interner>(cx: &mut I, members: &[PartOf<I>]) -> Result<PartsOf<I>, OutOfMemory>
    requires members_known { IsTrue (known (list_tree (part_tree (I.meaning cx.old)) members.now)) }
    requires fits { IsTermList members.now }
    ensures grown { Extends (I.meaning cx.old) (I.meaning cx.new) }
    ensures sure { IfOk result (λ ps. IsTrue (known (parts_tree (I.meaning cx.new) ps))) }
    ensures made { MakesParts (I.meaning cx.old) (I.meaning cx.new) members.now result }
    ensures is { IfOk result (λ ps. IsTermArgs ps) }
    ensures refused { OnErr result (I.meaning cx.new ≡ I.meaning cx.old) }
{
    let term = expect_term(&members[0]);
    let list = args_of(&members[1..], cx.alloc())?;
    let made = cx.mk_args(&list)?;
    Ok(Parts::TermArgs(term, made))
}

// The inputs that these members are, before the last type of a list.
#[inline(never)]
fn make_inputs<I: Interner>(
    cx: &mut I,
    tys: &Tys<I>,
    members: &[PartOf<I>],
) -> Result<Tys<I>, OutOfMemory>
    requires tys_known { IsTrue (known (front ((I.meaning cx.old).tys tys.now))) }
    requires members_known { IsTrue (known (list_tree (part_tree (I.meaning cx.old)) members.now)) }
    requires fits { AreTys members.now }
    ensures grown { Extends (I.meaning cx.old) (I.meaning cx.new) }
    ensures sure { IfOk result (λ k. IsTrue (known (front ((I.meaning cx.new).tys k)))) }
    ensures made { IfOk result (λ k. front ((I.meaning cx.new).tys k) ≡
        list_tree (part_tree (I.meaning cx.old)) members.now) }
    ensures refused { OnErr result (I.meaning cx.new ≡ I.meaning cx.old) }
{
    let last = last_of(cx, tys);
    let mut list = tys_of(members, cx.alloc())?;
    list.push(last)?;
    cx.mk_type_list(&list)
}

// The list of the same inputs and this output: the same list where it is the one that the list has.
pub fn with_output<I: Interner>(
    cx: &mut I,
    tys: &Tys<I>,
    output: Ty<I>,
) -> Result<Tys<I>, OutOfMemory>
    requires tys_known { IsTrue (known (front ((I.meaning cx.old).tys tys.now))) }
    requires output_known { IsTrue (known ((I.meaning cx.old).ty output)) }
    ensures grown { Extends (I.meaning cx.old) (I.meaning cx.new) }
    ensures sure { IfOk result (λ k. IsTrue (known (front ((I.meaning cx.new).tys k)))) }
    ensures inputs { IfOk result (λ k. front ((I.meaning cx.new).tys k) ≡ front ((I.meaning cx.old).tys tys.now)) }
    ensures output { IfOk result (λ k. last ((I.meaning cx.new).tys k) ≡ (I.meaning cx.old).ty output) }
{
    if last_of(cx, tys) == output {
        return Ok(*tys);
    }
    let mut list = inputs_of(cx, tys)?;
    list.push(output)?;
    cx.mk_type_list(&list)
}

// All types of a list but the last.
fn inputs_of<I: Interner>(cx: &I, tys: &Tys<I>) -> Result<Vec<Ty<I>>, OutOfMemory>
    requires { IsTrue (known (front ((I.meaning cx.now).tys tys.now))) }
    ensures { IfOk result (λ it. list_tree (I.meaning cx.now).ty it.items ≡ front ((I.meaning cx.now).tys tys.now)) }
{
    let list = cx.tys(tys);
    let mut inputs = Vec::new(cx.alloc());
    inputs.extend_from_slice(&list[..list.len() - 1])?;
    Ok(inputs)
}

/// The list of these members, which stands as that one does: `members` has as many as `like`, each of the sort of the
/// one at its place.
///
/// The interner has to know both. Answers `OutOfMemory` where a growth was refused, which leaves the meaning of all
/// keys as it was.
#[inline(always)]
pub fn make_parts<I: Interner>(
    cx: &mut I,
    like: &PartsOf<I>,
    members: &[PartOf<I>],
) -> Result<PartsOf<I>, OutOfMemory>
    requires like_known { IsTrue (known (parts_tree (I.meaning cx.old) like.now)) }
    requires members_known { IsTrue (known (list_tree (part_tree (I.meaning cx.old)) members.now)) }
    requires fits { Fit members.now (parts_tree (I.meaning cx.old) like.now) }
    ensures grown { Extends (I.meaning cx.old) (I.meaning cx.new) }
    ensures sure { IfOk result (λ ps. IsTrue (known (parts_tree (I.meaning cx.new) ps))) }
    ensures made { MakesParts (I.meaning cx.old) (I.meaning cx.new) members.now result }
    ensures alike { IfOk result (λ ps. Alike like.now ps) }
    ensures refused { OnErr result (I.meaning cx.new ≡ I.meaning cx.old) }
{
    match like {
        Parts::Empty => Ok(Parts::Empty),
        Parts::One(_) => Ok(Parts::One(members[0])),
        Parts::Two(..) => Ok(Parts::Two(members[0], members[1])),
        Parts::Args(_) => {
            let list = args_of(members, cx.alloc())?;
            let made = cx.mk_args(&list)?;
            Ok(Parts::Args(made))
        }
        Parts::Tys(_) => {
            let list = tys_of(members, cx.alloc())?;
            let made = cx.mk_type_list(&list)?;
            Ok(Parts::Tys(made))
        }
        Parts::Branches(_) => {
            let list = consts_of(members, cx.alloc())?;
            let made = cx.mk_branches(&list)?;
            Ok(Parts::Branches(made))
        }
        Parts::Alternatives(_) => {
            let list = pats_of(members, cx.alloc())?;
            let made = cx.mk_alternatives(&list)?;
            Ok(Parts::Alternatives(made))
        }
        Parts::TermArgs(..) => make_term_args(cx, members),
        Parts::Inputs(tys) => Ok(Parts::Inputs(make_inputs(cx, tys, members)?)),
        Parts::Predicates(_) => {
            let list = predicates_of(members, cx.alloc())?;
            let made = cx.mk_existential_predicates(&list)?;
            Ok(Parts::Predicates(made))
        }
    }
}
