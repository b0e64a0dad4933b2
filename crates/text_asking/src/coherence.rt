//! Whether the headers of two impls overlap, and which methods may be for a type; how that is told.
ghost use Rattle.std.specs.Prelude.{IsTrue, IfOk, IfSome};
ghost use Rattle.relation_terms.specs.Trees.{known};
ghost use Rattle.relation_terms.specs.Meaning.{Extends};
ghost use Rattle.relation_coherence.specs.Answers.{KnowsOverlap};
ghost use Rattle.relation_coherence.specs.Headers.{header_tree};
ghost use Rattle.variable_tables.specs.Tables.{IsLawful};
ghost use Rattle.text_users.specs.Asked.{AreForKnown};
ghost use Rattle.text_asking.specs.Asking.{AllReady, KnowsAnswer, KnowsRelated};
ghost use Rattle.text_asking.specs.Impls.{KnowsImpls};

use crate::elaborating::bound_of;
use crate::environment::environment_of;
use crate::printing::{write_constraints, write_error, write_goals, write_tainted};
use crate::question::{Answer, Outcome, Ready, Unasked, type_of};
use relation_coherence::overlap::{HeaderOf, Overlap, WhyApart};
use relation_folds::error::RelateFault;
use relation_reference::context::RefCtxt;
use relation_terms::predicate::TraitRef;
use relation_terms::terms::{ArgsKey, Binder, Interner, ParamEnvKey, TraitId};
use std::fmt::{self, Write};
use text_clauses::printing::write_trait_ref;
use text_reading::naming::{Method, Parts};
use text_terms::building::{ty_at, variables_at};
use text_terms::printing::{TextsOf, name_text};
use text_users::methods::{GenericMethod, find_methods};
use text_users::overlapping::{OverlapResult, ask_overlap};

// The headers of two impls of a trait, and the environment in which it is asked whether they overlap.
#[derive(Clone, Copy)]
struct Impls<X, D> {
    of: TraitId<D>,
    left: Binder<X, ArgsKey<X>>,
    right: Binder<X, ArgsKey<X>>,
    param_env: ParamEnvKey<X>,
}

// The trait of an impl and its header, by the number of the predicate that says it.
fn header_of<I: Interner>(
    cx: &mut I,
    terms: &Ready<I>,
    number: usize,
) -> Result<(TraitId<I::Id>, HeaderOf<I>), Unasked>
    requires { AllReady (I.meaning cx.old) terms.now }
    ensures grown { Extends (I.meaning cx.old) (I.meaning cx.new) }
    ensures sure { IfOk result (λ p. IsTrue (known (header_tree (I.meaning cx.new) p.1))) }
{
    let Some(bound) = bound_of(cx, terms, number) else {
        return Err(Unasked::Memory);
    };
    let Binder { value, bound_vars } = bound;
    let TraitRef { def_id, args } = value;
    let header = Binder {
        value: args,
        bound_vars,
    };
    Ok((def_id, header))
}

// The two impls of a question.
fn impls_of<I: Interner>(
    cx: &mut I,
    terms: &Ready<I>,
    assumed: Parts,
    left: usize,
    right: usize,
) -> Result<Impls<I::Key, I::Id>, Unasked>
    requires { AllReady (I.meaning cx.old) terms.now }
    ensures grown { Extends (I.meaning cx.old) (I.meaning cx.new) }
    ensures sure { IfOk result (KnowsImpls (I.meaning cx.new)) }
{
    let lhs = header_of(cx, terms, left)?;
    let rhs = header_of(cx, terms, right)?;
    let param_env = environment_of(cx, terms, assumed)?;
    Ok(Impls {
        of: lhs.0,
        left: lhs.1,
        right: rhs.1,
        param_env,
    })
}

// Asks in a context whether two impls overlap, by the numbers of their predicates, where that is assumed.
pub(super) fn ask_impls_overlap<I: Interner>(
    ctx: &mut RefCtxt<I>,
    terms: &Ready<I>,
    assumed: Parts,
    left: usize,
    right: usize,
) -> Outcome<I>
    requires lawful { IsLawful (I.meaning ctx.old.interner) ctx.old.inner }
    requires ready { AllReady (I.meaning ctx.old.interner) terms.now }
    ensures lawful { IsLawful (I.meaning ctx.new.interner) ctx.new.inner }
    ensures grown { Extends (I.meaning ctx.old.interner) (I.meaning ctx.new.interner) }
    ensures known { let m = I.meaning ctx.new.interner in
        IfOk result (KnowsAnswer m (KnowsRelated m)) }
{
    let impls = impls_of(&mut ctx.interner, terms, assumed, left, right)?;
    match ask_overlap(ctx, impls.param_env, impls.left, impls.right) {
        Ok(told) => Ok(Answer::Overlap(impls.of, told)),
        Err(why) => Err(Unasked::Impls(why)),
    }
}

// Writes whether two impls of a trait overlap: the header that both may be, with what that leaves and asks of regions;
// or what tells them apart.
pub(super) fn write_overlap<I: Interner, W: Write>(
    ctx: &RefCtxt<I>,
    texts: &TextsOf<I>,
    of: TraitId<I::Id>,
    told: &OverlapResult<I>,
    out: &mut W,
) -> fmt::Result
    requires lawful { IsLawful (I.meaning ctx.now.interner) ctx.now.inner }
    requires known { KnowsOverlap (I.meaning ctx.now.interner) told.now }
{
    match told {
        Ok(Overlap::Apart(WhyApart::ByForm)) => out.write_str("apart by form"),
        Ok(Overlap::Apart(WhyApart::ByRelating(why))) => {
            out.write_str("apart: ")?;
            write_error(&ctx.interner, texts, why, out)
        }
        Ok(Overlap::Meets { header, goals }) => {
            out.write_str("meets: ")?;
            let both = TraitRef {
                def_id: of,
                args: *header,
            };
            write_trait_ref(&ctx.interner, texts, &both, out)?;
            write_goals(&ctx.interner, texts, goals, out)?;
            write_constraints(ctx, texts, out)?;
            write_tainted(ctx, out)
        }
        Err(RelateFault::Memory) => out.write_str("memory"),
        Err(RelateFault::Budget) => out.write_str("budget"),
        Err(RelateFault::Unrelated(why)) => write_error(&ctx.interner, texts, why, out),
    }
}

// A method, and the type that it is for under its binder.
fn method_of<I: Interner>(
    cx: &mut I,
    terms: &Ready<I>,
    method: &Method,
) -> Option<GenericMethod<I::Key, I::Name>>
    requires { AllReady (I.meaning cx.old) terms.now }
    ensures grown { Extends (I.meaning cx.old) (I.meaning cx.new) }
    ensures sure { IfSome result (λ e. IsTrue (known ((I.meaning cx.new).ty e.of.value))) }
{
    let name = terms.names.get(method.name)?;
    let ty = ty_at(terms.built, method.ty)?;
    let variables = variables_at(&*cx, terms.parts, terms.built, method.variables)?;
    let Ok(bound_vars) = cx.mk_bound_vars(&variables) else {
        return None;
    };
    let of = Binder {
        value: ty,
        bound_vars,
    };
    Some(GenericMethod { of, name: *name })
}

// The methods of a range of a program's list.
fn methods_of<I: Interner>(
    cx: &mut I,
    terms: &Ready<I>,
    range: Parts,
) -> Option<Vec<GenericMethod<I::Key, I::Name>>>
    requires { AllReady (I.meaning cx.old) terms.now }
    ensures grown { Extends (I.meaning cx.old) (I.meaning cx.new) }
    ensures sure { IfSome result (λ made. AreForKnown (I.meaning cx.new) made.items) }
{
    let said = terms.methods.get(range.first..range.behind)?;
    let mut made = Vec::new(cx.alloc());
    for method in said {
        let next = method_of(cx, terms, method)?;
        if made.push(next).is_err() {
            return None;
        }
    }
    Some(made)
}

// The names of the methods of a range of a program's list that may be for a type.
pub(super) fn ask_methods<I: Interner>(
    ctx: &mut RefCtxt<I>,
    terms: &Ready<I>,
    range: Parts,
    of: usize,
) -> Outcome<I>
    requires lawful { IsLawful (I.meaning ctx.old.interner) ctx.old.inner }
    requires ready { AllReady (I.meaning ctx.old.interner) terms.now }
    ensures lawful { IsLawful (I.meaning ctx.new.interner) ctx.new.inner }
    ensures grown { Extends (I.meaning ctx.old.interner) (I.meaning ctx.new.interner) }
    ensures known { let m = I.meaning ctx.new.interner in
        IfOk result (KnowsAnswer m (KnowsRelated m)) }
{
    let ty = type_of(terms, of)?;
    let Some(methods) = methods_of(&mut ctx.interner, terms, range) else {
        return Err(Unasked::Memory);
    };
    match find_methods(&ctx.interner, &methods, &ty) {
        Ok(names) => Ok(Answer::Methods(names)),
        Err(_) => Err(Unasked::Memory),
    }
}

// Writes the names of methods.
pub(super) fn write_methods<I: Interner, W: Write>(
    texts: &TextsOf<I>,
    names: &[I::Name],
    out: &mut W,
) -> fmt::Result {
    if names.is_empty() {
        return out.write_str("none");
    }
    let mut any = false;
    for name in names {
        if any {
            out.write_str(", ")?;
        }
        out.write_str(name_text(&texts.names, name))?;
        any = true;
    }
    Ok(())
}
