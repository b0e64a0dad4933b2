//! Relating the arguments of items.
ghost use Rattle.std.specs.Prelude.{◌≡◌, ◌≢◌, ◌<◌, Some, None, IsTrue, IfOk};
ghost use Rattle.term_enums.specs.declared.Variance.TheVariants.{Bivariant};
ghost use Rattle.relation_terms.specs.Heads.{arguments};
ghost use Rattle.relation_terms.specs.Trees.{known, node, count, nth, IsList, list_tree};
ghost use Rattle.relation_terms.specs.Meaning.{Extends, arg_tree};
ghost use Rattle.relation_semantics.specs.Lawful.{WithMeaning, OnlyMemory};
ghost use Rattle.relation_steps.specs.Keyed.{AreAsMany, AreOver, RelatedOver, over_item, over_args};
ghost use Rattle.relation_recursion.specs.Makers.{TakesLists, GrowsByCall, MakesOverList};
ghost use Rattle.relation_steps.specs.Terms.{AskedTerms, RelatedTerms};
ghost use Rattle.relation_steps.specs.Arguments.{args_head, AreOverItem};
ghost use Rattle.relation_semantics.specs.Parts.{head_of};

use crate::reading::note_declared;
use crate::structural::relate_with_variance;
use part_variances::variances::variance_of;
use relation_folds::error::RelateResult;
use relation_steps::arguments::{ArgVariances, arg_at, args_count};
use relation_steps::type_relation::TypeRelation;
use relation_terms::terms::{
    DefId, GenericArg, GenericArgs, Interner, ItemOf, OutOfMemory, Ty, TyKind,
};

// The number of arguments of a list, and the one at a place, in a relation's words.
fn args_count_of<I: Interner, R: TypeRelation<I>>(r: &R, args: &GenericArgs<I>) -> usize
    requires { IsTrue (known ((R.state r.now).meaning.args args.now)) }
    ensures counts { result ≡ count ((R.state r.now).meaning.args args.now) }
    ensures is_list { IsList ((R.state r.now).meaning.args args.now) }
{
    args_count(r.cx(), args)
}

fn arg_of<I: Interner, R: TypeRelation<I>>(r: &R, args: &GenericArgs<I>, i: usize) -> GenericArg<I>
    requires args_known { IsTrue (known ((R.state r.now).meaning.args args.now)) }
    requires in_bounds { i < count ((R.state r.now).meaning.args args.now) }
    ensures sure { IsTrue (known (arg_tree (R.state r.now).meaning result)) }
    ensures means { arg_tree (R.state r.now).meaning result ≡ nth i ((R.state r.now).meaning.args args.now) }
{
    arg_at(r.cx(), args, i)
}

// The list of these arguments.
fn make_args<I: Interner, R: TypeRelation<I>>(
    r: &mut R,
    args: &[GenericArg<I>],
) -> RelateResult<I, GenericArgs<I>>
    requires lawful { (R.state r.old).lawful }
    requires args_known { IsTrue (known (list_tree (arg_tree (R.state r.old).meaning) args.now)) }
    ensures extends { Extends (R.state r.old).meaning (R.state r.new).meaning }
    ensures grown { WithMeaning (R.state r.old) (R.state r.new).meaning (R.state r.new) }
    ensures fault { OnlyMemory result }
    ensures sure { IfOk result (λ k. IsTrue (known ((R.state r.new).meaning.args k))) }
    ensures means { let m = (R.state r.old).meaning in
        IfOk result (λ k. (R.state r.new).meaning.args k ≡ list_tree (arg_tree m) args.now) }
{
    r.lemma_interner_grows();
    let made = r.cx_mut().mk_args(args)?;
    Ok(made)
}

// Relates the arguments of two lists pair by pair.
pub(crate) fn relate_args<I: Interner, R: TypeRelation<I>>(
    r: &mut R,
    variances: &ArgVariances<I::Id>,
    a: &GenericArgs<I>,
    b: &GenericArgs<I>,
) -> RelateResult<I, GenericArgs<I>>
    requires lawful { (R.state r.old).lawful }
    requires decides { (R.state r.old).ambient ≢ Bivariant }
    requires asked { AskedTerms R.manner None (over_args variances.now) (R.state r.old) a.now b.now }
    requires as_many { AreAsMany (R.state r.old) a.now b.now }
    ensures { RelatedOver R.manner (R.state r.old) (R.state r.new) variances.now a.now b.now result }
{
    let n = args_count_of::<I, R>(r, a);
    let mut answers = Vec::new(r.cx().alloc());
    for i in 0..n {
        let x = arg_of::<I, R>(r, a, i);
        let y = arg_of::<I, R>(r, b, i);
        let variance = variance_of::<I, R>(r, variances, i);
        let answer = relate_with_variance(r, variance, &x, &y)?;
        answers.push(answer)?;
    }
    make_args(r, answers.as_slice())
}

/// Relates two lists of as many arguments invariantly, seen from the ambient variance, and answers the list of what
/// they answered.
///
/// Both are the relation's, which takes them at the ambient variance; that is not `Bivariant`.
///
/// Answers `Unrelated` with the error of the first pair that is not related, and only where no assignment made the
/// lists one; `Budget` only where no instantiation is left, and `Memory` where a growth was refused.
pub fn relate_args_invariantly<I: Interner, R: TypeRelation<I>>(
    r: &mut R,
    a: &GenericArgs<I>,
    b: &GenericArgs<I>,
) -> RelateResult<I, GenericArgs<I>>
    requires lawful { (R.state r.old).lawful }
    requires decides { (R.state r.old).ambient ≢ Bivariant }
    requires asked { AskedTerms R.manner (Some arguments) (λ m. m.args) (R.state r.old) a.now b.now }
    requires as_many { AreAsMany (R.state r.old) a.now b.now }
    ensures { RelatedTerms R.manner (Some arguments) (λ m. m.args) (R.state r.old) (R.state r.new) a.now b.now result }
{
    relate_args(r, &ArgVariances::Invariant, a, b)
}

/// Relates two lists of as many arguments at the variances that an item declares, seen from the ambient one, and
/// answers the list of what they answered. Arguments that the item declares bivariant are not looked at, unless the
/// ambient variance is `Invariant`.
///
/// Both are the relation's, which takes them at the ambient variance; that is not `Bivariant`.
///
/// Answers `Unrelated` with the error of the first pair that is not related, and only where no assignment made the
/// lists one; `Budget` only where no instantiation is left, and `Memory` where a growth was refused.
pub fn relate_args_with_variances<I: Interner, R: TypeRelation<I>>(
    r: &mut R,
    def_id: &ItemOf<I>,
    a: &GenericArgs<I>,
    b: &GenericArgs<I>,
) -> RelateResult<I, GenericArgs<I>>
    requires lawful { (R.state r.old).lawful }
    requires decides { (R.state r.old).ambient ≢ Bivariant }
    requires asked { AskedTerms R.manner None (over_item def_id.now) (R.state r.old) a.now b.now }
    requires as_many { AreAsMany (R.state r.old) a.now b.now }
    ensures { RelatedTerms R.manner None (over_item def_id.now) (R.state r.old) (R.state r.new) a.now b.now result }
{
    relate_args(r, &ArgVariances::Adt(DefId(def_id.0)), a, b)
}

// The type that a call makes of arguments.
fn make_over<
    I: Interner,
    R: TypeRelation<I>,
    F: FnOnce(&mut I, GenericArgs<I>) -> Result<Ty<I>, OutOfMemory>,
>(r: &mut R, _form: &Ty<I>, args: GenericArgs<I>, mk: F) -> RelateResult<I, Ty<I>>
    requires lawful { (R.state r.old).lawful }
    requires args_known { IsTrue (known ((R.state r.old).meaning.args args)) }
    requires callable { TakesLists (λ x. I.meaning x.now) (R.state r.old) (F.pre mk) }
    requires grows { GrowsByCall (λ x. I.meaning x.now) (F.post mk) }
    requires makes { MakesOverList (λ x. I.meaning x.now) (R.state r.old) _form.now (F.post mk) }
    ensures extends { Extends (R.state r.old).meaning (R.state r.new).meaning }
    ensures grown { WithMeaning (R.state r.old) (R.state r.new).meaning (R.state r.new) }
    ensures fault { OnlyMemory result }
    ensures sure { IfOk result (λ k. IsTrue (known ((R.state r.new).meaning.ty k))) }
    ensures means { let m = (R.state r.old).meaning in
        IfOk result (λ k. (R.state r.new).meaning.ty k ≡ node (head_of (m.ty _form.now)) (m.args args)) }
{
    r.lemma_interner_grows();
    let made = mk(r.cx_mut(), args)?;
    Ok(made)
}

// How the arguments of a type over an item are related.
fn item_variances<I: Interner, R: TypeRelation<I>>(
    r: &R,
    ty: &Ty<I>,
    def_id: &ItemOf<I>,
) -> ArgVariances<I::Id>
    requires { IsTrue (known ((R.state r.now).meaning.ty ty.now)) }
    ensures { let m = (R.state r.now).meaning in let h = args_head m result in
        (b ts us : _) → AreOverItem (m.id (def_id.now).0) (m.ty ty.now) b ts us →
        (m.ty ty.now ≡ node h ts) × (b ≡ node h us) }
{
    let kind = r.cx().ty_kind(ty);
    let def_id = DefId(def_id.0);
    match &kind {
        TyKind::FnDef(..) => ArgVariances::FnDef(def_id),
        _ => ArgVariances::Adt(def_id),
    }
}

/// Relates two types over one item by their arguments, at the variances that the item declares, has the relation take
/// note of it where it reads declared variances, and answers what `mk` makes of the answer for the arguments.
///
/// Both types are the relation's, which takes them at the ambient variance; that is not `Bivariant`. The lists are
/// theirs, with as many arguments. `mk` is handed the relation's interner, which has only grown, and makes of a known
/// list the type of their form over it, or answers want of memory.
///
/// Answers `Unrelated` with the error of the first pair that is not related, and only where no assignment made the
/// types one; `Budget` only where no instantiation is left, and `Memory` where a growth was refused, by `mk` too.
/// Upstream this is a call of the relation.
pub fn relate_ty_args<
    I: Interner,
    R: TypeRelation<I>,
    F: FnOnce(&mut I, GenericArgs<I>) -> Result<Ty<I>, OutOfMemory>,
>(
    r: &mut R,
    a_ty: &Ty<I>,
    b_ty: &Ty<I>,
    def_id: &ItemOf<I>,
    a_args: &GenericArgs<I>,
    b_args: &GenericArgs<I>,
    mk: F,
) -> RelateResult<I, Ty<I>>
    requires lawful { (R.state r.old).lawful }
    requires decides { (R.state r.old).ambient ≢ Bivariant }
    requires asked { AskedTerms R.manner None (λ m. m.ty) (R.state r.old) a_ty.now b_ty.now }
    requires args_known { IsTrue (known ((R.state r.old).meaning.args a_args.now)) }
    requires over { AreOver (R.state r.old) def_id.now a_ty.now b_ty.now a_args.now b_args.now }
    requires as_many { AreAsMany (R.state r.old) a_args.now b_args.now }
    requires callable { TakesLists (λ x. I.meaning x.now) (R.state r.old) (F.pre mk) }
    requires grows { GrowsByCall (λ x. I.meaning x.now) (F.post mk) }
    requires makes { MakesOverList (λ x. I.meaning x.now) (R.state r.old) a_ty.now (F.post mk) }
    ensures { RelatedTerms R.manner None (λ m. m.ty) (R.state r.old) (R.state r.new) a_ty.now b_ty.now result }
{
    let variances = item_variances::<I, R>(r, a_ty, def_id);
    let args = relate_args(r, &variances, a_args, b_args)?;
    note_declared(r, a_ty, b_ty, def_id, a_args, b_args)?;
    make_over(r, a_ty, args, mk)
}
