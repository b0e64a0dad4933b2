//! Relations in steps, none of which relates anything by itself.
ghost use Rattle.std.specs.Prelude.{◌≡◌, ◌≢◌, ◌<◌, None, IfSome, IfNone};
ghost use Rattle.std.specs.Borrow.{sem, Lends};
ghost use Rattle.term_enums.specs.declared.Variance.{Variance};
ghost use Rattle.term_enums.specs.declared.Variance.TheVariants.{Invariant, Bivariant};
ghost use Rattle.relation_semantics.specs.Stores.{IsSound};
ghost use Rattle.relation_semantics.specs.Lawful.{State, Manners, TakesParts, Turned, RelatesByDeclared};
ghost use Rattle.relation_semantics.specs.Lawful.{RemembersRelated};
ghost use Rattle.relation_steps.specs.Following.{FollowsInterner};
ghost use Rattle.relation_steps.specs.Rounds.{AskedBinders, OpenedBinders};
ghost use Rattle.relation_steps.specs.Keyed.{RelatedRegions, ShownTys, TysAskNone, SteppedConsts, SteppedTys};
ghost use Rattle.relation_steps.specs.Keyed.{TysStepRecords, ConstsStepRecords, TysStepAtOnce, AreOver, RecordsAsked};
ghost use Rattle.relation_steps.specs.Keyed.{NotedTys, TysAskOpen, variances_in, Decides};
ghost use Rattle.relation_steps.specs.Terms.{AskedTerms};

use relation_folds::error::RelateResult;
use relation_folds::fold::TypeFoldable;
use relation_folds::visit::TypeVisitable;
use relation_semantics::infer_ctxt::BinderOf;
use relation_semantics::relate::Step;
use relation_terms::terms::{Const, GenericArgs, Interner, ItemOf, Region, Ty, Variance};

/// What stands as a relation does. All that is said of one relation speaks of this state.
pub trait HasState<I: Interner> {
    // The relation as it stands.
    ghost state: { Self → State I.Key I.Id I.Name };
}

/// A relation of types, regions and constants, at an ambient variance.
///
/// It is given in steps: each answers what comes of two terms, or which two are to be related next. No step relates
/// these itself, so one recursion serves all relations, and what it does follows from what the steps do.
///
/// The steps ask for terms that the relation's interner knows, that are the relation's own and that it takes at the
/// ambient variance, which is not `Bivariant`. No relation takes what a binder does not bind as its list says, nor what
/// stands for a variable.
pub trait TypeRelation<I: Interner>: HasState<I> {
    // The interner of its terms.
    ghost interner: { Self → I };

    // The relation with another interner.
    ghost with_interner: { Self → I → Self };

    // Which terms it takes, and what it promises, by how it is set up.
    ghost manner: { Manners };

    /// The interner of the terms.
    fn cx(&self) -> &I
        ensures { I.meaning result.now ≡ (Self.state self.now).meaning };

    /// The interner, to make terms.
    fn cx_mut(&mut self) -> &mut I
        ensures* lends { sem 𝓛 (Lends Self.row I.row self.entry result (with_interner self.entry.now)) }
        ensures value { I.meaning result.now ≡ (Self.state self.old).meaning };

    /// Does nothing: it shows that making terms changes nothing of the relation but what its interner knows.
    fn lemma_interner_grows(&self)
        ensures { FollowsInterner I.meaning Self.state with_interner self.now };

    /// The variance at which terms are related.
    fn ambient(&self) -> Variance
        ensures { result ≡ (Self.state self.now).ambient };

    /// Relates at this variance from now on.
    fn set_ambient(&mut self, v: Variance)
        ensures { Turned v (Self.state self.old) (Self.state self.new) };

    /// The variances at which the arguments of an item's types are related: those that the item declares; or none, for
    /// all of them invariantly, where the ambient variance is `Invariant`. There it answers variances only where the
    /// relation's settings say so.
    fn item_variances(&self, def_id: &ItemOf<I>) -> Option<&[Variance]>
        ensures declared { IfSome result (λ vs. vs.now ≡ variances_in (Self.state self.now) def_id.now) }
        ensures by_declared { let r = Self.state self.now in IfSome result (λ _. Decides r → RelatesByDeclared r) }
        ensures none { IfNone result ((Self.state self.now).ambient ≡ Invariant) };

    /// What comes of two types. Of two bare ones, where the relation promises to record just what
    /// is asked for: `Done` says that just that was recorded and registered, `Parts` that these
    /// two are left, with nothing recorded yet, and `Again` doesn't come.
    fn tys(&mut self, a: &Ty<I>, b: &Ty<I>) -> RelateResult<I, Step<Ty<I>>>
        requires lawful { (Self.state self.old).lawful }
        requires decides { (Self.state self.old).ambient ≢ Bivariant }
        requires asked { AskedTerms manner None (λ m. m.ty) (Self.state self.old) a.now b.now }
        ensures stepped { SteppedTys manner (Self.state self.old) (Self.state self.new) a.now b.now result }
        ensures records { TysStepRecords manner (Self.state self.old) (Self.state self.new) a.now b.now result }
        ensures registers { TysStepAtOnce manner (Self.state self.old) (Self.state self.new) a.now b.now result };

    /// What comes of two constants. Of two bare ones its answers say what those of `tys` do.
    fn consts(&mut self, a: &Const<I>, b: &Const<I>) -> RelateResult<I, Step<Const<I>>>
        requires lawful { (Self.state self.old).lawful }
        requires decides { (Self.state self.old).ambient ≢ Bivariant }
        requires asked { AskedTerms manner None (λ m. m.const_) (Self.state self.old) a.now b.now }
        ensures stepped { SteppedConsts manner (Self.state self.old) (Self.state self.new) a.now b.now result }
        ensures records { ConstsStepRecords manner (Self.state self.old) (Self.state self.new) a.now b.now result };

    /// Relates two regions.
    fn regions(&mut self, a: &Region<I>, b: &Region<I>) -> RelateResult<I, Region<I>>
        requires lawful { (Self.state self.old).lawful }
        requires decides { (Self.state self.old).ambient ≢ Bivariant }
        requires asked { AskedTerms manner None (λ m. m.region) (Self.state self.old) a.now b.now }
        ensures related { RelatedRegions manner (Self.state self.old) (Self.state self.new) a.now b.now result }
        ensures recorded { RecordsAsked manner (Self.state self.old) (Self.state self.new) a.now b.now result };

    /// The bodies of two binders that are to be related in a round, 0 or 1, the left one's first; or none.
    ///
    /// There is a round 1 only at `Invariant`, where a body uses what its binder binds: then each round relates one
    /// side's variables to placeholders for the other's. In all other cases round 0 relates the binders, and its
    /// bodies are to be related once. Upstream this is `binders`, which relates them too.
    ///
    /// # Errors
    /// `Memory` where a growth was refused.
    fn open_binders<T: TypeFoldable<I> + TypeVisitable<I> + Copy>(
        &mut self,
        a: &BinderOf<I, T>,
        b: &BinderOf<I, T>,
        round: usize,
    ) -> RelateResult<I, Option<(T, T)>>
        requires lawful { (Self.state self.old).lawful }
        requires decides { (Self.state self.old).ambient ≢ Bivariant }
        requires round { round < 2 }
        requires asked { AskedBinders manner T.tree (Self.state self.old) a.now b.now }
        ensures { OpenedBinders manner T.tree (Self.state self.old) (Self.state self.new) round a.now b.now result };

    /// Takes note that two types, as `tys` read them, were related. No goal is asked of them alone.
    fn note_tys(&mut self, a: &Ty<I>, b: &Ty<I>) -> RelateResult<I, ()>
        requires lawful { (Self.state self.old).lawful }
        requires decides { (Self.state self.old).ambient ≢ Bivariant }
        requires asked { AskedTerms manner None (λ m. m.ty) (Self.state self.old) a.now b.now }
        requires related { ShownTys manner (Self.state self.old) a.now b.now }
        requires alone { TysAskNone (Self.state self.old) a.now b.now }
        ensures { NotedTys (Self.state self.old) (Self.state self.new) a.now b.now result };

    /// Takes note that the arguments of two types over one item were related at the variances that it declares, and so
    /// the types. The lists are theirs.
    fn note_ty_args(
        &mut self,
        a_ty: &Ty<I>,
        b_ty: &Ty<I>,
        def_id: &ItemOf<I>,
        a_args: &GenericArgs<I>,
        b_args: &GenericArgs<I>,
    ) -> RelateResult<I, ()>
        requires lawful { (Self.state self.old).lawful }
        requires decides { (Self.state self.old).ambient ≢ Bivariant }
        requires asked { AskedTerms manner None (λ m. m.ty) (Self.state self.old) a_ty.now b_ty.now }
        requires by_declared { RelatesByDeclared (Self.state self.old) }
        requires over { AreOver (Self.state self.old) def_id.now a_ty.now b_ty.now a_args.now b_args.now }
        requires related { ShownTys manner (Self.state self.old) a_ty.now b_ty.now }
        ensures noted { NotedTys (Self.state self.old) (Self.state self.new) a_ty.now b_ty.now result }
        ensures asks { TysAskOpen manner (Self.state self.old) (Self.state self.new) a_ty.now b_ty.now result };

    // Its keys mean what they mean to the interner.
    ghost reads: { (r : Self) → (Self.state r).meaning ≡ I.meaning (interner r) };

    // What a lawful relation has recorded is sound.
    ghost sound: { (r : Self) → (Self.state r).lawful → IsSound (Self.state r).store };

    // What a lawful relation remembers was related.
    ghost remembers_related: { (r : Self) → (Self.state r).lawful → RemembersRelated manner (Self.state r) };

    // What it takes goes through forms.
    ghost takes_parts: { TakesParts manner };
}
