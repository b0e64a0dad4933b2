//! How what clauses say prints.
ghost use Rattle.std.specs.Prelude.{IsTrue};
ghost use Rattle.relation_terms.specs.Trees.{known};
ghost use Rattle.relation_terms.specs.Meaning.{term_tree};
ghost use Rattle.relation_terms.specs.Predicates.{clause_kind_tree, alias_term_tree};

use crate::printing::claims::{constness_text, polarity_text, write_implemented, write_subject};
use relation_terms::predicate::{ClauseKind, ProjectionPredicate};
use relation_terms::terms::{Const, GenericArgKind, Interner, Term, TermKind, Ty};
use std::fmt::{self, Write};
use text_terms::printing::name_text;
use text_terms::printing::under::Under;

// Writes what an alias comes to: `<T as Tr>::A == u8`.
fn write_projection<I: Interner, W: Write>(
    at: &Under<I>,
    of: &ProjectionPredicate<I::Key, I::Id>,
    out: &mut W,
) -> fmt::Result
    requires alias { IsTrue (known (alias_term_tree (I.meaning at.now.cx.now) (of.now).projection_term)) }
    requires term { IsTrue (known (term_tree (I.meaning at.now.cx.now) (of.now).term)) }
{
    let id = of.projection_term.def_id();
    at.write_item(&id.0, &of.projection_term.args, out)?;
    out.write_str(" == ")?;
    at.write_term(&of.term, out)
}

// Writes that a term is well-formed: `WellFormed(T)`. It may be of either sort.
fn write_well_formed<I: Interner, W: Write>(
    at: &Under<I>,
    term: &Term<I>,
    out: &mut W,
) -> fmt::Result
    requires { IsTrue (known (term_tree (I.meaning at.now.cx.now) term.now)) }
{
    let arg = match term {
        TermKind::Ty(ty) => GenericArgKind::Ty(*ty),
        TermKind::Const(constant) => GenericArgKind::Const(*constant),
    };
    out.write_str("WellFormed(")?;
    at.write_any_arg(&arg, out)?;
    out.write_str(")")
}

// Writes that a constant can be evaluated: `ConstEvaluatable(N)`.
fn write_evaluatable<I: Interner, W: Write>(
    at: &Under<I>,
    constant: &Const<I>,
    out: &mut W,
) -> fmt::Result
    requires { IsTrue (known ((I.meaning at.now.cx.now).const_ constant.now)) }
{
    out.write_str("ConstEvaluatable(")?;
    at.write_const(constant, out)?;
    out.write_str(")")
}

// Writes which type a constant is of: `ConstArgHasType(1, usize)`.
fn write_typed<I: Interner, W: Write>(
    at: &Under<I>,
    constant: &Const<I>,
    ty: &Ty<I>,
    out: &mut W,
) -> fmt::Result
    requires constant { IsTrue (known ((I.meaning at.now.cx.now).const_ constant.now)) }
    requires ty { IsTrue (known ((I.meaning at.now.cx.now).ty ty.now)) }
{
    out.write_str("ConstArgHasType(")?;
    at.write_const(constant, out)?;
    out.write_str(", ")?;
    at.write_ty(ty, out)?;
    out.write_str(")")
}

// Writes what a clause says, behind a binder or not.
pub(super) fn write_kind<I: Interner, W: Write>(
    at: &Under<I>,
    kind: &ClauseKind<I::Key, I::Id, I::Name>,
    is_behind: bool,
    out: &mut W,
) -> fmt::Result
    requires { IsTrue (known (clause_kind_tree (I.meaning at.now.cx.now) kind.now)) }
{
    match kind {
        ClauseKind::Trait(of) => {
            let mark = polarity_text(of.polarity);
            write_implemented(at, &of.trait_ref, mark, is_behind, out)
        }
        ClauseKind::HostEffect(of) => {
            let mark = constness_text(of.constness);
            write_implemented(at, &of.trait_ref, mark, is_behind, out)
        }
        ClauseKind::RegionOutlives(of) => {
            at.write_region(&of.0, out)?;
            out.write_str(": ")?;
            at.write_region(&of.1, out)
        }
        ClauseKind::TypeOutlives(of) => {
            write_subject(at, &of.0, is_behind, out)?;
            out.write_str(": ")?;
            at.write_region(&of.1, out)
        }
        ClauseKind::Projection(of) => write_projection(at, of, out),
        ClauseKind::ConstArgHasType(constant, ty) => { write_typed(at, constant, ty, out) }
        ClauseKind::WellFormed(term) => write_well_formed(at, term, out),
        ClauseKind::ConstEvaluatable(constant) => { write_evaluatable(at, constant, out) }
        ClauseKind::UnstableFeature(name) => {
            let text = name_text(&at.texts.names, name);
            write!(out, "UnstableFeature({text})")
        }
    }
}
