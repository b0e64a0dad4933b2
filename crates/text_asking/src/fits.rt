//! What terms need of a context that they are related in: found once, before the first question is asked.
ghost use Rattle.std.specs.Prelude.{◌≡◌, ◌≤◌, Some, IsTrue, IfOk, OnOk, IfSome, slice_get};
ghost use Rattle.relation_terms.specs.Heads.{VarKind};
ghost use Rattle.relation_terms.specs.Trees.{known};
ghost use Rattle.relation_terms.specs.Meaning.{Extends, arg_tree};
ghost use Rattle.variable_tables.specs.Tables.{IsLawful};
ghost use Rattle.text_terms.specs.Built.{AreKnown};
ghost use Rattle.text_asking.specs.Asking.{var_kind, variables_in};
ghost use Rattle.text_asking.specs.Fits.{AreFit, IsFit, needed};

use crate::BUDGET;
use crate::context::{KINDS, enter_universe, largest, make_variables};
use may_relate::{Named, Unfit, may_relate, named_in};
use relation_folds::visit::TypeVisitable;
use relation_reference::context::RefCtxt;
use relation_semantics::infer_ctxt::TypingMode;
use relation_terms::terms::{GenericArg, Interner, OutOfMemory};
use std::alloc::{AllocError, Global};
use text_reading::naming::{Program, QuestionKind, VariableKind};

// What a term needs of a context: so many variables of each kind, and a universe.
#[derive(Clone, Copy)]
pub(super) struct Needs {
    pub types: usize,
    pub ints: usize,
    pub floats: usize,
    pub consts: usize,
    pub regions: usize,
    pub universe: usize,
}

impl Needs {
    // How many variables of a kind it needs.
    fn of(&self, kind: VariableKind) -> usize
        ensures { result ≡ needed self.now (var_kind kind) }
    {
        match kind {
            VariableKind::Ty => self.types,
            VariableKind::Int => self.ints,
            VariableKind::Float => self.floats,
            VariableKind::Const => self.consts,
            VariableKind::Region => self.regions,
        }
    }
}

// What a term needs, and whether it may be related in a context that has that.
#[derive(Clone, Copy)]
pub(super) struct Fit {
    pub needs: Needs,
    pub fits: Result<(), Unfit>,
}

// How many variables there are up to the largest that is named.
fn count_named(named: Named, kind: VariableKind) -> usize {
    match largest(named, kind) {
        None => 0,
        Some(number) => number.saturating_add(1),
    }
}

// What a term needs that names these.
fn needs_of(named: Named) -> Needs {
    Needs {
        types: count_named(named, VariableKind::Ty),
        ints: count_named(named, VariableKind::Int),
        floats: count_named(named, VariableKind::Float),
        consts: count_named(named, VariableKind::Const),
        regions: count_named(named, VariableKind::Region),
        universe: named.universe.0,
    }
}

// What a context has.
fn had_by<I: Interner>(ctx: &RefCtxt<I>) -> Needs
    ensures variables { (k : VarKind) → needed result k ≡ variables_in ctx.now.inner k }
    ensures universe { result.universe ≡ ctx.now.inner.universe.0 }
{
    Needs {
        types: ctx.inner.types.len(),
        ints: ctx.inner.ints.len(),
        floats: ctx.inner.floats.len(),
        consts: ctx.inner.consts.len(),
        regions: ctx.inner.regions.len(),
        universe: ctx.inner.universe.0,
    }
}

// Makes variables until the context has those that are needed.
pub(super) fn have_needed<I: Interner>(
    ctx: &mut RefCtxt<I>,
    needs: &Needs,
) -> Result<(), OutOfMemory>
    requires { IsLawful (I.meaning ctx.old.interner) ctx.old.inner }
    ensures lawful { IsLawful (I.meaning ctx.new.interner) ctx.new.inner }
    ensures grown { Extends (I.meaning ctx.old.interner) (I.meaning ctx.new.interner) }
    ensures kept { (k : VarKind) → variables_in ctx.old.inner k ≤ variables_in ctx.new.inner k }
    ensures universe { ctx.old.inner.universe.0 ≤ ctx.new.inner.universe.0 }
    ensures has { OnOk result ((k : VarKind) → needed needs.now k ≤ variables_in ctx.new.inner k) }
{
    for kind in &KINDS {
        make_variables(ctx, *kind, needs.of(*kind))?;
    }
    Ok(())
}

// Makes the variables that a term names, and tells what it needs.
pub(super) fn have_named<I: Interner, T: TypeVisitable<I>>(
    ctx: &mut RefCtxt<I>,
    term: &T,
) -> Result<Needs, OutOfMemory>
    requires lawful { IsLawful (I.meaning ctx.old.interner) ctx.old.inner }
    requires term_known { IsTrue (known (T.tree (I.meaning ctx.old.interner) term.now)) }
    ensures lawful { IsLawful (I.meaning ctx.new.interner) ctx.new.inner }
    ensures grown { Extends (I.meaning ctx.old.interner) (I.meaning ctx.new.interner) }
{
    let needs = needs_of(named_in(&ctx.interner, term)?);
    have_needed(ctx, &needs)?;
    Ok(needs)
}

// What two terms need.
pub(super) fn needs_of_both<I: Interner, T: TypeVisitable<I>>(
    cx: &I,
    lhs: &T,
    rhs: &T,
) -> Result<(Needs, Needs), OutOfMemory>
    requires lhs_known { IsTrue (known (T.tree (I.meaning cx.now) lhs.now)) }
    requires rhs_known { IsTrue (known (T.tree (I.meaning cx.now) rhs.now)) }
{
    let lhs = named_in(cx, lhs)?;
    let rhs = named_in(cx, rhs)?;
    Ok((needs_of(lhs), needs_of(rhs)))
}

// What a term needs, and whether it may be related: tested in a context that has what the term names.
fn fit_of<I: Interner>(ctx: &mut RefCtxt<I>, term: &GenericArg<I>) -> Result<Fit, OutOfMemory>
    requires lawful { IsLawful (I.meaning ctx.old.interner) ctx.old.inner }
    requires term_known { IsTrue (known (arg_tree (I.meaning ctx.old.interner) term.now)) }
    ensures lawful { IsLawful (I.meaning ctx.new.interner) ctx.new.inner }
    ensures grown { Extends (I.meaning ctx.old.interner) (I.meaning ctx.new.interner) }
    ensures fit { IfOk result (IsFit (I.meaning ctx.new.interner) term.now) }
{
    let needs = have_named(ctx, term)?;
    enter_universe(ctx, needs.universe);
    let fits = may_relate(&*ctx, term);
    Ok(Fit {
        needs: had_by(&*ctx),
        fits,
    })
}

// The same, in a new context over the interner of another one, of a term that is there and that a question relates.
fn fit_if<I: Interner>(
    ctx: RefCtxt<I>,
    term: &Option<GenericArg<I>>,
    is_related: bool,
) -> (RefCtxt<I>, Option<Fit>)
    requires lawful { IsLawful (I.meaning ctx.interner) ctx.inner }
    requires term_known { IfSome term.now (λ t. IsTrue (known (arg_tree (I.meaning ctx.interner) t))) }
    ensures lawful { IsLawful (I.meaning result.0.interner) result.0.inner }
    ensures grown { Extends (I.meaning ctx.interner) (I.meaning result.0.interner) }
    ensures fit { IfSome term.now (λ t. IfSome result.1 (IsFit (I.meaning result.0.interner) t)) }
{
    match term {
        Some(term) if is_related => {
            let mut fresh = ctx.reset(TypingMode::PostAnalysis, true, BUDGET);
            match fit_of(&mut fresh, term) {
                Ok(fit) => (fresh, Some(fit)),
                Err(_) => (fresh, None),
            }
        }
        _ => (ctx, None),
    }
}

// Marks a number in a list.
fn mark(marks: &mut Vec<bool>, number: usize) {
    if let Some(mark) = marks.get_mut(number) {
        *mark = true;
    }
}

// Of each term of a program, whether a question relates it to another one.
fn related(alloc: Global, program: &Program) -> Result<Vec<bool>, AllocError> {
    let mut marks = vec![in alloc; false; program.terms.len()]?;
    for question in &program.questions {
        if let QuestionKind::Relate { lhs, rhs, .. } = question.kind {
            mark(&mut marks, lhs);
            mark(&mut marks, rhs);
        }
    }
    Ok(marks)
}

// What terms of a program need, and whether they may be related: by their numbers, of those that questions relate. A
// growth that is refused leaves one out.
pub(super) fn fits_of<I: Interner + Drop>(
    ctx: RefCtxt<I>,
    built: &[Option<GenericArg<I>>],
    program: &Program,
) -> Result<(RefCtxt<I>, Vec<Option<Fit>>), AllocError>
    requires lawful { IsLawful (I.meaning ctx.interner) ctx.inner }
    requires known { AreKnown (I.meaning ctx.interner) built.now }
    ensures lawful { IfOk result (λ p. IsLawful (I.meaning p.0.interner) p.0.inner) }
    ensures grown { IfOk result (λ p. Extends (I.meaning ctx.interner) (I.meaning p.0.interner)) }
    ensures fit { IfOk result (λ p. AreFit (I.meaning p.0.interner) built.now p.1.items) }
{
    let alloc = ctx.interner.alloc();
    let related = related(alloc, program)?;
    let mut fits = Vec::with_capacity(alloc, built.len())?;
    let mut ctx = ctx;
    for term in built {
        let is_related = related.get(fits.len()).copied().unwrap_or(false);
        let (left, fit) = fit_if(ctx, term, is_related);
        ctx = left;
        fits.push(fit)?;
    }
    Ok((ctx, fits))
}

// What was found of the term of that number.
pub(super) fn fit_at(fits: &[Option<Fit>], number: usize) -> Option<Fit>
    ensures { IfSome result (λ f. slice_get fits.now number ≡ Some (Some f)) }
{
    match fits.get(number) {
        Some(fit) => *fit,
        None => None,
    }
}
