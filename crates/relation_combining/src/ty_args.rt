//! What is asked of types over one item, whose arguments were related: whether bivariant ones are left open.
ghost use Rattle.std.specs.Prelude.{◌≡◌, [], ◌∷◌, IsTrue, IfOk, map};
ghost use Rattle.relation_terms.specs.Trees.{known};
ghost use Rattle.relation_terms.specs.Meaning.{arg_tree};
ghost use Rattle.relation_semantics.specs.Contexts.{KnowsTy};
ghost use Rattle.relation_semantics.specs.ContextCalls.{Grows};
ghost use Rattle.relation_semantics.specs.Goals.{well_formed_predicate};
ghost use Rattle.relation_semantics.specs.Lawful.{RelatesByDeclared, items_of};
ghost use Rattle.relation_semantics.specs.Stores.{IsTermIn};
ghost use Rattle.relation_steps.specs.Bivariance.{is_left_open, TellsOpen, TellsEitherOpen, AsksWellFormed};
ghost use Rattle.relation_steps.specs.Keyed.{AreOver, NotedTys};

use crate::combine::PredicateEmittingRelation;
use relation_folds::error::RelateResult;
use relation_goals::recording::dummy_predicate;
use relation_semantics::infer_ctxt::InferCtxtLike;
use relation_semantics::variances::declared_variance;
use relation_steps::arguments::{arg_at, args_count};
use relation_terms::predicate::{ClauseKind, PredicateKind};
use relation_terms::terms::{
    GenericArg, GenericArgKind, GenericArgs, Interner, ItemOf, OutOfMemory, Predicate, TermKind,
    Ty, Variance,
};

// Whether a variable, but of regions, stands in what an argument comes to. Nothing is recorded.
fn is_left_open<Infcx: InferCtxtLike>(
    infcx: &mut Infcx,
    arg: &GenericArg<Infcx::Interner>,
) -> Result<bool, OutOfMemory>
    requires lawful { (Infcx.state infcx.old).lawful }
    requires arg_known { IsTrue (known (arg_tree (Infcx.state infcx.old).meaning arg.now)) }
    requires arg_in { let c = Infcx.state infcx.old in IsTermIn c.store (arg_tree c.meaning arg.now) }
    ensures grows { Grows (Infcx.state infcx.old) (Infcx.state infcx.new) }
    ensures same_record { (Infcx.state infcx.new).store ≡ (Infcx.state infcx.old).store }
    ensures tells { let c = Infcx.state infcx.old in
        IfOk result (λ b. b ≡ is_left_open c.store (arg_tree c.meaning arg.now)) }
{
    match arg {
        GenericArgKind::Lifetime(_) => Ok(false),
        GenericArgKind::Ty(ty) => {
            let resolved = infcx.resolve_vars_if_possible(ty)?;
            Ok(infcx.cx().ty_flags(&resolved).has_non_region_infer)
        }
        GenericArgKind::Const(constant) => {
            let resolved = infcx.resolve_vars_if_possible(constant)?;
            Ok(infcx.cx().const_flags(&resolved).has_non_region_infer)
        }
    }
}

// Whether an argument of a list that an item declares bivariant is left open. Nothing is recorded.
fn has_open_argument<Infcx: InferCtxtLike>(
    infcx: &mut Infcx,
    def_id: &ItemOf<Infcx::Interner>,
    args: &GenericArgs<Infcx::Interner>,
) -> Result<bool, OutOfMemory>
    requires lawful { (Infcx.state infcx.old).lawful }
    requires args_known { IsTrue (known ((Infcx.state infcx.old).meaning.args args.now)) }
    requires args_in { let c = Infcx.state infcx.old in IsTermIn c.store (c.meaning.args args.now) }
    ensures grows { Grows (Infcx.state infcx.old) (Infcx.state infcx.new) }
    ensures same_record { (Infcx.state infcx.new).store ≡ (Infcx.state infcx.old).store }
    ensures tells { let c = Infcx.state infcx.old in let m = c.meaning in
        TellsOpen (items_of m) c.store (m.id (def_id.now).0) (m.args args.now) result }
{
    let n = args_count(infcx.cx(), args);
    for i in 0..n {
        if let Variance::Bivariant = declared_variance(infcx.cx(), def_id, i) {
            let arg = arg_at(infcx.cx(), args, i);
            if is_left_open(infcx, &arg)? {
                return Ok(true);
            }
        }
    }
    Ok(false)
}

// The same of one of two lists.
fn have_open_argument<Infcx: InferCtxtLike>(
    infcx: &mut Infcx,
    def_id: &ItemOf<Infcx::Interner>,
    a_args: &GenericArgs<Infcx::Interner>,
    b_args: &GenericArgs<Infcx::Interner>,
) -> Result<bool, OutOfMemory>
    requires lawful { (Infcx.state infcx.old).lawful }
    requires a_known { IsTrue (known ((Infcx.state infcx.old).meaning.args a_args.now)) }
    requires b_known { IsTrue (known ((Infcx.state infcx.old).meaning.args b_args.now)) }
    requires a_in { let c = Infcx.state infcx.old in IsTermIn c.store (c.meaning.args a_args.now) }
    requires b_in { let c = Infcx.state infcx.old in IsTermIn c.store (c.meaning.args b_args.now) }
    ensures grows { Grows (Infcx.state infcx.old) (Infcx.state infcx.new) }
    ensures same_record { (Infcx.state infcx.new).store ≡ (Infcx.state infcx.old).store }
    ensures tells { let c = Infcx.state infcx.old in let m = c.meaning in TellsEitherOpen (items_of m) c.store
        (m.id (def_id.now).0) (m.args a_args.now) (m.args b_args.now) result }
{
    if has_open_argument(infcx, def_id, a_args)? {
        return Ok(true);
    }
    has_open_argument(infcx, def_id, b_args)
}

// The predicates that two types are well formed. Nothing is recorded.
fn both_well_formed<Infcx: InferCtxtLike>(
    infcx: &mut Infcx,
    a: &Ty<Infcx::Interner>,
    b: &Ty<Infcx::Interner>,
) -> Result<Vec<Predicate<Infcx::Interner>>, OutOfMemory>
    requires lawful { (Infcx.state infcx.old).lawful }
    requires a_known { KnowsTy (Infcx.state infcx.old) a.now }
    requires b_known { KnowsTy (Infcx.state infcx.old) b.now }
    ensures grows { Grows (Infcx.state infcx.old) (Infcx.state infcx.new) }
    ensures same_record { (Infcx.state infcx.new).store ≡ (Infcx.state infcx.old).store }
    ensures made { let m = (Infcx.state infcx.old).meaning in let n = (Infcx.state infcx.new).meaning in
        IfOk result (λ ps. map n.predicate ps.items ≡
        well_formed_predicate (m.ty a.now) ∷ well_formed_predicate (m.ty b.now) ∷ []) }
{
    let mut predicates = Vec::new(infcx.cx().alloc());
    let a_kind = PredicateKind::Clause(ClauseKind::WellFormed(TermKind::Ty(*a)));
    let b_kind = PredicateKind::Clause(ClauseKind::WellFormed(TermKind::Ty(*b)));
    predicates.push(dummy_predicate(infcx, a_kind)?)?;
    predicates.push(dummy_predicate(infcx, b_kind)?)?;
    Ok(predicates)
}

/// Registers, in the relation's environment, that two types over one item are well formed, the first one's first, where
/// an argument of either that the item declares bivariant is left open: a variable, but of regions, stands in what it
/// comes to. Relating the types has left that argument aside, so nothing else would ever say what the variable is.
///
/// Both types are the relation's, and the lists are theirs. It is called where their arguments were related at the
/// variances that the item declares. Answers `Memory` where a growth was refused, else nothing.
/// Upstream it relates the arguments too, and looks at each as its place comes.
pub fn combine_ty_args<Infcx: InferCtxtLike, R: PredicateEmittingRelation<Infcx>>(
    r: &mut R,
    a_ty: &Ty<Infcx::Interner>,
    b_ty: &Ty<Infcx::Interner>,
    def_id: &ItemOf<Infcx::Interner>,
    a_args: &GenericArgs<Infcx::Interner>,
    b_args: &GenericArgs<Infcx::Interner>,
) -> RelateResult<Infcx::Interner, ()>
    requires lawful { (R.state r.old).lawful }
    requires a_known { IsTrue (known ((R.state r.old).meaning.ty a_ty.now)) }
    requires b_known { IsTrue (known ((R.state r.old).meaning.ty b_ty.now)) }
    requires a_in { let q = R.state r.old in IsTermIn q.store (q.meaning.ty a_ty.now) }
    requires b_in { let q = R.state r.old in IsTermIn q.store (q.meaning.ty b_ty.now) }
    requires by_declared { RelatesByDeclared (R.state r.old) }
    requires over { AreOver (R.state r.old) def_id.now a_ty.now b_ty.now a_args.now b_args.now }
    ensures noted { NotedTys (R.state r.old) (R.state r.new) a_ty.now b_ty.now result }
    ensures registers { AsksWellFormed R.state r.old r.new def_id.now a_ty.now b_ty.now a_args.now b_args.now result }
{
    r.lemma_context_grows();
    if !have_open_argument(r.infcx_mut(), def_id, a_args, b_args)? {
        return Ok(());
    }
    r.lemma_context_grows();
    let predicates = both_well_formed(r.infcx_mut(), a_ty, b_ty)?;
    r.register_predicates(predicates.as_slice())?;
    Ok(())
}
