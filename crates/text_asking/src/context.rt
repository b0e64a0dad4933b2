//! A question's context, and relating in it.
ghost use Rattle.std.specs.Prelude.{◌≡◌, ◌≢◌, ℕ, suc, ◌<◌, ◌≤◌, max, IfOk, IsOk, OnOk};
ghost use Rattle.std.specs.List.{All};
ghost use Rattle.term_enums.specs.declared.Variance.TheVariants.{Bivariant};
ghost use Rattle.relation_terms.specs.Heads.{VarKind};
ghost use Rattle.relation_terms.specs.Meaning.{Extends};
ghost use Rattle.context_relation.specs.Relating.{TaintsForError};
ghost use Rattle.type_relations.specs.Contract.{CanRelate, RelatesBoth, LosesNone, FaultIsTrue, AsksOnly, LeavesRest};
ghost use Rattle.variable_tables.specs.Tables.{IsLawful};
ghost use Rattle.text_asking.specs.Asking.{HasNamed, HasStated, IsSetUp, MakesIn, Reaches};
ghost use Rattle.text_asking.specs.Asking.{aliases_of, typing_mode, var_kind, variables_in, variance_of};

use may_relate::{Named, Unfit};
use relation_reference::context::RefCtxt;
use relation_semantics::infer_ctxt::{InferCtxtLike, TypingMode};
use relation_terms::terms::{
    Interner, LocalDefIds, OutOfMemory, ParamEnv, Span, UniverseIndex, Variance,
};
use std::fmt::{self, Write};
use text_reading::naming::{Mode, Setup, VariableId, VariableKind, Variables};
use text_reading::reading::Relation;
use type_relations::relate::Relate;
use type_relations::relate::solver_relating::{RelateExt, RelateGoals};

/// Why a question is not asked.
#[derive(Clone, Copy)]
pub enum NotAsked {
    /// One of the terms may not be related in the context.
    Unfit(Unfit),
    /// Nothing is asked at this variance.
    Variance,
    /// Lists of arguments are related that have as many.
    Lengths,
    /// What the question comes to may be too deep for the stack.
    Depth,
    /// It is stated of regions what can't be known of them.
    Facts,
}

impl From<Unfit> for NotAsked {
    fn from(unfit: Unfit) -> NotAsked {
        NotAsked::Unfit(unfit)
    }
}

// The typing mode of that name, in which no opaque types are defined.
fn typing_mode<I: Interner>(mode: Mode, no_ids: LocalDefIds<I>) -> TypingMode<I::Key>
    ensures { result ≡ typing_mode mode no_ids }
{
    match mode {
        Mode::Coherence => TypingMode::Coherence,
        Mode::Analysis => TypingMode::Analysis {
            defining_opaque_types_and_generators: no_ids,
        },
        Mode::Borrowck => TypingMode::Borrowck {
            defining_opaque_types: no_ids,
        },
        Mode::PostBorrowckAnalysis => TypingMode::PostBorrowckAnalysis {
            defined_opaque_types: no_ids,
        },
        Mode::PostAnalysis => TypingMode::PostAnalysis,
    }
}

// A new context over the interner of another one.
pub(super) fn reset<I: Interner>(
    ctx: RefCtxt<I>,
    no_ids: LocalDefIds<I>,
    setup: Setup,
    budget: usize,
) -> RefCtxt<I>
    requires { IsLawful (I.meaning ctx.interner) ctx.inner }
    ensures interner { result.interner ≡ ctx.interner }
    ensures lawful { IsLawful (I.meaning ctx.interner) result.inner }
    ensures sets_up { IsSetUp result.inner no_ids setup }
{
    let mode = typing_mode::<I>(setup.mode, no_ids);
    ctx.reset(mode, setup.next_solver, budget)
}

// All kinds of variables.
pub(super) const KINDS: [VariableKind; 5] = [
    VariableKind::Ty,
    VariableKind::Int,
    VariableKind::Float,
    VariableKind::Const,
    VariableKind::Region,
];

// How many variables of a kind the context has.
fn variables_count<I: Interner>(ctx: &RefCtxt<I>, kind: VariableKind) -> usize
    ensures { result ≡ variables_in ctx.now.inner (var_kind kind) }
{
    match kind {
        VariableKind::Ty => ctx.inner.types.len(),
        VariableKind::Int => ctx.inner.ints.len(),
        VariableKind::Float => ctx.inner.floats.len(),
        VariableKind::Const => ctx.inner.consts.len(),
        VariableKind::Region => ctx.inner.regions.len(),
    }
}

// Makes one more variable of a kind.
fn make_variable<I: Interner>(ctx: &mut RefCtxt<I>, kind: VariableKind) -> Result<(), OutOfMemory>
    requires { IsLawful (I.meaning ctx.old.interner) ctx.old.inner }
    ensures lawful { IsLawful (I.meaning ctx.new.interner) ctx.new.inner }
    ensures grown { Extends (I.meaning ctx.old.interner) (I.meaning ctx.new.interner) }
    ensures kept { (k : VarKind) → variables_in ctx.old.inner k ≤ variables_in ctx.new.inner k }
    ensures universe { ctx.old.inner.universe.0 ≤ ctx.new.inner.universe.0 }
    ensures one_more { let k = var_kind kind in
        OnOk result (variables_in ctx.new.inner k ≡ suc (variables_in ctx.old.inner k)) }
    ensures stays { OnOk result (ctx.new.inner.universe.0 ≡ ctx.old.inner.universe.0) }
    ensures makes { OnOk result (MakesIn ctx.old.inner.universe.0 ctx.old.inner ctx.new.inner) }
{
    match kind {
        VariableKind::Ty => {
            let _ = ctx.next_ty_infer()?;
        }
        VariableKind::Int => {
            let _ = ctx.next_int_var()?;
        }
        VariableKind::Float => {
            let _ = ctx.next_float_var()?;
        }
        VariableKind::Const => {
            let _ = ctx.next_const_infer()?;
        }
        VariableKind::Region => {
            let _ = ctx.next_region_infer()?;
        }
    }
    Ok(())
}

// Makes variables of a kind until the context has so many.
pub(super) fn make_variables<I: Interner>(
    ctx: &mut RefCtxt<I>,
    kind: VariableKind,
    count: usize,
) -> Result<(), OutOfMemory>
    requires { IsLawful (I.meaning ctx.old.interner) ctx.old.inner }
    ensures lawful { IsLawful (I.meaning ctx.new.interner) ctx.new.inner }
    ensures grown { Extends (I.meaning ctx.old.interner) (I.meaning ctx.new.interner) }
    ensures kept { (k : VarKind) → variables_in ctx.old.inner k ≤ variables_in ctx.new.inner k }
    ensures universe { ctx.old.inner.universe.0 ≤ ctx.new.inner.universe.0 }
    ensures has { OnOk result (count ≤ variables_in ctx.new.inner (var_kind kind)) }
    ensures stays { OnOk result (ctx.new.inner.universe.0 ≡ ctx.old.inner.universe.0) }
    ensures makes { OnOk result (MakesIn ctx.old.inner.universe.0 ctx.old.inner ctx.new.inner) }
{
    for _ in variables_count(ctx, kind)..count {
        make_variable(ctx, kind)?;
    }
    Ok(())
}

// Makes variables of a kind until the context has the largest that is named.
fn reach<I: Interner>(
    ctx: &mut RefCtxt<I>,
    kind: VariableKind,
    largest: Option<usize>,
) -> Result<(), OutOfMemory>
    requires { IsLawful (I.meaning ctx.old.interner) ctx.old.inner }
    ensures lawful { IsLawful (I.meaning ctx.new.interner) ctx.new.inner }
    ensures grown { Extends (I.meaning ctx.old.interner) (I.meaning ctx.new.interner) }
    ensures kept { (k : VarKind) → variables_in ctx.old.inner k ≤ variables_in ctx.new.inner k }
    ensures universe { ctx.old.inner.universe.0 ≤ ctx.new.inner.universe.0 }
    ensures has { OnOk result ((i : ℕ) → Reaches largest i → i < variables_in ctx.new.inner (var_kind kind)) }
{
    let count = count_to(largest)?;
    make_variables(ctx, kind, count)
}

// How many variables there are up to that number.
fn count_to(largest: Option<usize>) -> Result<usize, OutOfMemory>
    ensures { IfOk result (λ n. (i : ℕ) → Reaches largest i → i < n) }
{
    match largest {
        None => Ok(0),
        Some(number) => number.checked_add(1).ok_or(OutOfMemory),
    }
}

// Enters a universe, unless the context is in it or in a later one.
pub(super) fn enter_universe<I: Interner>(ctx: &mut RefCtxt<I>, universe: usize)
    requires { IsLawful (I.meaning ctx.old.interner) ctx.old.inner }
    ensures interner { ctx.new.interner ≡ ctx.old.interner }
    ensures lawful { IsLawful (I.meaning ctx.new.interner) ctx.new.inner }
    ensures rest { ctx.new.inner ≡ record ctx.old.inner { universe = ctx.new.inner.universe } }
    ensures later { ctx.old.inner.universe.0 ≤ ctx.new.inner.universe.0 }
    ensures enters { ctx.new.inner.universe.0 ≡ max ctx.old.inner.universe.0 universe }
{
    if ctx.inner.universe.0 < universe {
        let inner = &mut ctx.inner;
        inner.universe = UniverseIndex(universe);
    }
}

// Makes the variables of a statement that are not there yet, in its universe, or the context's if that is later.
fn have_stated<I: Interner>(ctx: &mut RefCtxt<I>, variables: Variables) -> Result<(), OutOfMemory>
    requires { IsLawful (I.meaning ctx.old.interner) ctx.old.inner }
    ensures lawful { IsLawful (I.meaning ctx.new.interner) ctx.new.inner }
    ensures grown { Extends (I.meaning ctx.old.interner) (I.meaning ctx.new.interner) }
    ensures kept { (k : VarKind) → variables_in ctx.old.inner k ≤ variables_in ctx.new.inner k }
    ensures universe { ctx.old.inner.universe.0 ≤ ctx.new.inner.universe.0 }
    ensures has { OnOk result (HasStated ctx.new.inner variables) }
    ensures makes { let u = max ctx.old.inner.universe.0 variables.universe in
        OnOk result (MakesIn u ctx.old.inner ctx.new.inner) }
{
    enter_universe(ctx, variables.universe);
    make_variables(ctx, VariableKind::Ty, variables.types)?;
    make_variables(ctx, VariableKind::Const, variables.consts)?;
    make_variables(ctx, VariableKind::Region, variables.regions)
}

// Makes the variables of statements that are not there yet, statement by statement.
pub(super) fn have_all_stated<I: Interner>(
    ctx: &mut RefCtxt<I>,
    stated: &[Variables],
) -> Result<(), OutOfMemory>
    requires { IsLawful (I.meaning ctx.old.interner) ctx.old.inner }
    ensures lawful { IsLawful (I.meaning ctx.new.interner) ctx.new.inner }
    ensures grown { Extends (I.meaning ctx.old.interner) (I.meaning ctx.new.interner) }
    ensures has { OnOk result (All (HasStated ctx.new.inner) stated.now) }
{
    for variables in stated {
        have_stated(ctx, *variables)?;
    }
    Ok(())
}

// The largest variable of a kind that is named, if one is.
pub(super) fn largest(named: Named, kind: VariableKind) -> Option<usize> {
    match kind {
        VariableKind::Ty => Some(named.ty_var?.0),
        VariableKind::Int => Some(named.int_var?.0),
        VariableKind::Float => Some(named.float_var?.0),
        VariableKind::Const => Some(named.const_var?.0),
        VariableKind::Region => Some(named.region_var?.0),
    }
}

// Makes variables until the context has one that is named.
pub(super) fn have_variable<I: Interner>(
    ctx: &mut RefCtxt<I>,
    variable: VariableId,
) -> Result<(), OutOfMemory>
    requires { IsLawful (I.meaning ctx.old.interner) ctx.old.inner }
    ensures lawful { IsLawful (I.meaning ctx.new.interner) ctx.new.inner }
    ensures grown { Extends (I.meaning ctx.old.interner) (I.meaning ctx.new.interner) }
    ensures kept { (k : VarKind) → variables_in ctx.old.inner k ≤ variables_in ctx.new.inner k }
    ensures has { OnOk result (HasNamed ctx.new.inner variable) }
{
    reach(ctx, variable.kind, Some(variable.number))
}

// Nothing, where two terms may be related so, by what was found of each; else why not.
pub(super) fn may_ask(
    lhs: Result<(), Unfit>,
    relation: Relation,
    rhs: Result<(), Unfit>,
) -> Result<(), NotAsked>
    ensures lhs { OnOk result (IsOk lhs) }
    ensures rhs { OnOk result (IsOk rhs) }
    ensures decides { OnOk result (variance_of relation ≢ Bivariant) }
{
    lhs?;
    rhs?;
    match relation {
        Relation::At(Variance::Bivariant) => Err(NotAsked::Variance),
        Relation::At(_) | Relation::Structurally => Ok(()),
    }
}

/// Relates two types, or two lists of arguments, as is asked in any context that can. What is answered is what the
/// context promises: after `Ok` what is recorded and the goals relate the two, and no equal pair is lost; `Unrelated`
/// says that nothing made them one.
pub(super) fn relate<C: InferCtxtLike, T: Relate<C::Interner>>(
    ctx: &mut C,
    param_env: ParamEnv<C::Interner>,
    lhs: T,
    relation: Relation,
    rhs: T,
    span: Span<C::Interner>,
) -> RelateGoals<C::Interner>
    requires can { let v = variance_of relation in
        CanRelate (C.state ctx.old) T.over T.tree T.fits param_env v lhs rhs }
    ensures both { let g = aliases_of relation in let v = variance_of relation in
        RelatesBoth C.state ctx.old ctx.new T.over T.tree g param_env v lhs rhs result }
    ensures loses_none { let v = variance_of relation in
        LosesNone C.state ctx.old ctx.new T.over T.tree v lhs rhs result }
    ensures fault { let g = aliases_of relation in let v = variance_of relation in
        FaultIsTrue C.state ctx.old ctx.new T.over T.tree g v lhs rhs result }
    ensures asks { let g = aliases_of relation in let v = variance_of relation in
        AsksOnly C.state ctx.old ctx.new T.over T.tree g param_env v lhs rhs result }
    ensures leaves { LeavesRest C.state ctx.old ctx.new T.over T.tree lhs rhs result }
    ensures taints { TaintsForError C.state ctx.old ctx.new T.over T.tree lhs rhs result }
{
    match relation {
        Relation::At(variance) => ctx.relate(param_env, lhs, variance, rhs, span),
        Relation::Structurally => ctx.eq_structurally_relating_aliases(param_env, lhs, rhs, span),
    }
}

// Writes why a term may not be related in a context of that universe. It has the variables that the term names.
fn write_unfit<W: Write>(unfit: Unfit, universe: usize, out: &mut W) -> fmt::Result {
    match unfit {
        Unfit::Escapes(_) => {
            out.write_str("a binder outside these types binds what stands in them")
        }
        Unfit::LaterUniverse(_) => write!(
            out,
            "the context's universe, {universe}, does not name the placeholder"
        ),
        _ => out.write_str("a binder in these types does not bind by its list"),
    }
}

/// Writes why a question is not asked of a context of that universe.
pub(super) fn write_not_asked<W: Write>(
    why: NotAsked,
    universe: usize,
    out: &mut W,
) -> fmt::Result {
    out.write_str("not asked: ")?;
    match why {
        NotAsked::Unfit(unfit) => write_unfit(unfit, universe, out),
        NotAsked::Variance => out.write_str("nothing is related at this variance"),
        NotAsked::Lengths => out.write_str("one list has more arguments than the other"),
        NotAsked::Depth => out.write_str("what it comes to may be too deep for the stack"),
        NotAsked::Facts => out.write_str(
            "a fact names no variable, nothing that is bound, and no placeholder of a later universe",
        ),
    }
}
