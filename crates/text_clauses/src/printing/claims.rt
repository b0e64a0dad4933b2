//! How what is claimed of a trait prints.
ghost use Rattle.std.specs.Prelude.{◌≡◌, IsTrue};
ghost use Rattle.relation_terms.specs.Trees.{known};
ghost use Rattle.relation_terms.specs.Meaning.{arg_tree};
ghost use Rattle.relation_terms.specs.Predicates.{trait_ref_tree};
ghost use Rattle.text_clauses.specs.Texts.{polarity_text, constness_text};

use relation_terms::predicate::TraitRef;
use relation_terms::terms::{
    BoundConstness, GenericArg, GenericArgKind, Interner, PredicatePolarity, Ty, TyKind,
};
use std::fmt::{self, Write};
use text_terms::printing::item_text;
use text_terms::printing::under::Under;

// What stands before a trait that is implemented, or is not.
pub(super) fn polarity_text(polarity: PredicatePolarity) -> &'static str
    ensures { result.now ≡ polarity_text polarity }
{
    match polarity {
        PredicatePolarity::Positive => "",
        PredicatePolarity::Negative => "!",
    }
}

// What stands before a trait that is implemented in const contexts too.
pub(super) fn constness_text(constness: BoundConstness) -> &'static str
    ensures { result.now ≡ constness_text constness }
{
    match constness {
        BoundConstness::Const => "const ",
        BoundConstness::Maybe => "[const] ",
    }
}

// Writes the type that a predicate speaks of. The bounds of a trait object would be taken for more, and behind a binder
// a function pointer or a type under a binder would be taken for what that binder is of: these stand in brackets.
pub(super) fn write_subject<I: Interner, W: Write>(
    at: &Under<I>,
    ty: &Ty<I>,
    is_behind: bool,
    out: &mut W,
) -> fmt::Result
    requires { IsTrue (known ((I.meaning at.now.cx.now).ty ty.now)) }
{
    let (open, close) = match at.cx.ty_kind(ty) {
        TyKind::Dynamic(..) => ("(", ")"),
        TyKind::FnPtr(..) | TyKind::UnsafeBinder(_) if is_behind => ("(", ")"),
        _ => ("", ""),
    };
    out.write_str(open)?;
    at.write_ty(ty, out)?;
    out.write_str(close)
}

// Writes the first argument of a trait, which a predicate speaks of.
fn write_first<I: Interner, W: Write>(
    at: &Under<I>,
    first: &GenericArg<I>,
    is_behind: bool,
    out: &mut W,
) -> fmt::Result
    requires { IsTrue (known (arg_tree (I.meaning at.now.cx.now) first.now)) }
{
    match first {
        GenericArgKind::Ty(ty) => write_subject(at, ty, is_behind, out),
        _ => at.write_arg(first, out),
    }
}

// Writes that a trait is implemented, with a mark before it: `T: !Tr<U>`.
#[tactic(auto, using(crate::proofs::ClauseLemmas::first_known))]
pub(super) fn write_implemented<I: Interner, W: Write>(
    at: &Under<I>,
    of: &TraitRef<I::Key, I::Id>,
    mark: &str,
    is_behind: bool,
    out: &mut W,
) -> fmt::Result
    requires { IsTrue (known (trait_ref_tree (I.meaning at.now.cx.now) of.now)) }
{
    let args = at.cx.args(&of.args);
    if let Some((first, _)) = args.split_first() {
        write_first(at, first, is_behind, out)?;
    }
    out.write_str(": ")?;
    out.write_str(mark)?;
    let name = item_text(&at.texts.items, &of.def_id.0);
    at.write_named(name, &of.args, 1, args.len(), out)
}
