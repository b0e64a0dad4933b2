//! Which letters name regions that stand free in what is printed.
ghost use Rattle.std.specs.Prelude.{IsTrue};
ghost use Rattle.relation_terms.specs.Trees.{known};

use crate::printing::letters::{Letters, take_letter};
use crate::printing::names::{NameTexts, TextsOf, region_name_text};
use delayed_map::DelayedSet;
use relation_folds::visit::{TypeVisitable, TypeVisitor, Visit};
use relation_terms::terms::{Const, Interner, Region, RegionKind, Ty, TyKey};
use std::fmt;
use std::hash::Hash;

// Takes the letters that name regions where it is asked. A type that it was asked about before it skips. It stops where
// memory for a letter is refused.
#[derive(Drop)]
struct TakesLetters<'a, 'b, X: Eq + Hash, N: Eq + Hash> {
    names: &'a NameTexts<'b, N>,
    letters: Letters,
    seen: DelayedSet<TyKey<X>>,
}

impl<'a, 'b, I: Interner> TypeVisitor<I> for TakesLetters<'a, 'b, I::Key, I::Name> {
    ghost use Rattle.std.specs.Prelude.{⊤};

    ghost visits = { λ cx v d t w a. ⊤ };

    fn visit_ty(&mut self, _cx: &I, ty: &Ty<I>, _depth: u128) -> Visit {
        match self.seen.insert(*ty) {
            Ok(false) => Visit::Skip,
            _ => Visit::Enter,
        }
    }

    fn visit_region(&mut self, cx: &I, region: &Region<I>, _depth: u128) -> Visit {
        let RegionKind::ReEarlyParam(named) = cx.region_kind(region) else {
            return Visit::Enter;
        };
        match take_letter(&mut self.letters, region_name_text(self.names, &named.name)) {
            Ok(()) => Visit::Enter,
            Err(_) => Visit::Stop,
        }
    }

    fn visit_const(&mut self, _cx: &I, _constant: &Const<I>, _depth: u128) -> Visit {
        Visit::Enter
    }
}

/// The letters that name regions which stand free in a term.
///
/// # Errors
/// `fmt::Error` where memory for the letters was refused.
pub fn free_letters<I: Interner, T: TypeVisitable<I>>(
    cx: &I,
    texts: &TextsOf<I>,
    term: &T,
) -> Result<Letters, fmt::Error>
    requires { IsTrue (known (T.tree (I.meaning cx.now) term.now)) }
{
    let mut takes = TakesLetters {
        names: &texts.names,
        letters: Letters::new(cx.alloc()),
        seen: DelayedSet::new(cx.alloc()),
    };
    if term.visit_with(cx, &mut takes).is_break() {
        return Err(fmt::Error);
    }
    Ok(takes.letters)
}
