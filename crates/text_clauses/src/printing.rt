//! How clauses print, over any interner. A region that a binder binds prints by no letter that names a region which
//! stands free in the clause.
ghost use Rattle.std.specs.Prelude.{IsTrue};
ghost use Rattle.relation_terms.specs.Trees.{known};
ghost use Rattle.relation_terms.specs.Owned.{bound_tree};
ghost use Rattle.relation_terms.specs.Predicates.{trait_ref_tree};

mod claims;
mod kinds;

use claims::write_implemented;
use kinds::write_kind;
use relation_terms::predicate::TraitRef;
use relation_terms::terms::{Binder, Clause, Interner};
use std::fmt::{self, Write};
use text_terms::printing::TextsOf;
use text_terms::printing::under::{Under, free_letters};

/// Writes a clause behind its binder: `for<'a> T: Tr<'a>`, `T: 'a`, `<T as Tr>::A == u8`, `WellFormed(T)`. A parameter
/// or an item that has no text is `_`, a region parameter `'_`.
///
/// The interner has to know the clause.
///
/// # Errors
/// `fmt::Error` where `out` refused to take some of the text, or memory for the letters of free regions was refused.
/// What `out` took before stands.
#[tactic(auto, using(relation_terms::proofs::Binders::under_known))]
pub fn write_clause<I: Interner, W: Write>(
    cx: &I,
    texts: &TextsOf<I>,
    clause: &Clause<I>,
    out: &mut W,
) -> fmt::Result
    requires { IsTrue (known ((I.meaning cx.now).clause clause.now)) }
{
    let Binder { value, bound_vars } = cx.clause_kind(clause);
    let vars = cx.bound_vars(&bound_vars);
    let letters = free_letters(cx, texts, clause)?;
    let outside = Under::new(cx, texts, &letters);
    outside.write_for(vars, out)?;
    let inside = outside.enter(vars.len());
    write_kind(&inside, &value, !vars.is_empty(), out)
}

/// Writes that a trait is implemented, behind its binder: `for<'a> T: Tr<'a>`.
///
/// The interner has to know the trait reference under its binder.
///
/// # Errors
/// `fmt::Error` where `out` refused to take some of the text, or memory for the letters of free regions was refused.
/// What `out` took before stands.
#[tactic(auto, using(relation_terms::proofs::Binders::under_known))]
pub fn write_bound<I: Interner, W: Write>(
    cx: &I,
    texts: &TextsOf<I>,
    bound: &Binder<I::Key, TraitRef<I::Key, I::Id>>,
    out: &mut W,
) -> fmt::Result
    requires { IsTrue (known (bound_tree (I.meaning cx.now) bound.now)) }
{
    let vars = cx.bound_vars(&bound.bound_vars);
    let letters = free_letters(cx, texts, bound)?;
    let outside = Under::new(cx, texts, &letters);
    outside.write_for(vars, out)?;
    let inside = outside.enter(vars.len());
    write_implemented(&inside, &bound.value, "", !vars.is_empty(), out)
}

/// Writes that a trait is implemented, where no binder stands around that: `T: Tr<U>`.
///
/// The interner has to know the trait reference.
///
/// # Errors
/// `fmt::Error` where `out` refused to take some of the text, or memory for the letters of free regions was refused.
/// What `out` took before stands.
pub fn write_trait_ref<I: Interner, W: Write>(
    cx: &I,
    texts: &TextsOf<I>,
    of: &TraitRef<I::Key, I::Id>,
    out: &mut W,
) -> fmt::Result
    requires { IsTrue (known (trait_ref_tree (I.meaning cx.now) of.now)) }
{
    let letters = free_letters(cx, texts, of)?;
    write_implemented(&Under::new(cx, texts, &letters), of, "", false, out)
}
