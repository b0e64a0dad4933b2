//! How patterns print, and the types that have one.
ghost use Rattle.std.specs.Prelude.{IsTrue};
ghost use Rattle.relation_terms.specs.Trees.{known};

use crate::printing::leaves::write_between;
use crate::printing::under::Under;
use relation_terms::terms::{Alternatives, Interner, Pat, PatternKind, Ty, TyKind};
use std::fmt::{self, Write};

#[tactic(auto, using(crate::proofs::Parts::size_part, crate::proofs::Parts::known_part))]
impl<'a, I: Interner> Under<'a, I> {
    // Writes the values of a type that a pattern admits: `T is P`. A pointer's target would take the pattern for its own,
    // so a pointer stands in brackets, and so does another such type.
    #[cycle(write_ty)]
    pub(super) fn write_pattern_type<W: Write>(
        &self,
        base: &Ty<I>,
        pat: &Pat<I>,
        out: &mut W,
    ) -> fmt::Result
        requires base { IsTrue (known ((I.meaning self.now.cx.now).ty base.now)) }
        requires pat { IsTrue (known ((I.meaning self.now.cx.now).pat pat.now)) }
    {
        let (open, close) = match self.cx.ty_kind(base) {
            TyKind::RawPtr(..)
            | TyKind::Ref(..)
            | TyKind::FnPtr(..)
            | TyKind::UnsafeBinder(_)
            | TyKind::Dynamic(..)
            | TyKind::Pat(..) => ("(", ") is "),
            _ => ("", " is "),
        };
        out.write_str(open)?;
        self.write_ty(base, out)?;
        out.write_str(close)?;
        self.write_pattern(pat, out)
    }

    // Writes a pattern.
    #[cycle(write_ty)]
    fn write_pattern<W: Write>(&self, pat: &Pat<I>, out: &mut W) -> fmt::Result
        requires { IsTrue (known ((I.meaning self.now.cx.now).pat pat.now)) }
    {
        match self.cx.pat_kind(pat) {
            PatternKind::NotNull => out.write_str("!null"),
            PatternKind::Range { start, end } => {
                self.write_const(&start, out)?;
                out.write_str("..=")?;
                self.write_const(&end, out)
            }
            PatternKind::Or(alternatives) => self.write_alternatives(&alternatives, out),
        }
    }

    // Writes alternatives with `|` between. A lone one has a `|` before it, and one that has alternatives of its own stands
    // in brackets.
    #[cycle(write_ty)]
    fn write_alternatives<W: Write>(
        &self,
        alternatives: &Alternatives<I>,
        out: &mut W,
    ) -> fmt::Result
        requires { IsTrue (known ((I.meaning self.now.cx.now).alternatives alternatives.now)) }
    {
        let pats = self.cx.alternatives(alternatives);
        if pats.len() < 2 {
            out.write_str("| ")?;
        }
        for (place, pat) in pats.iter().enumerate() {
            write_between(place, " | ", out)?;
            self.write_alternative(pat, out)?;
        }
        Ok(())
    }

    // Writes one alternative.
    #[cycle(write_ty)]
    fn write_alternative<W: Write>(&self, pat: &Pat<I>, out: &mut W) -> fmt::Result
        requires { IsTrue (known ((I.meaning self.now.cx.now).pat pat.now)) }
    {
        let (open, close) = match self.cx.pat_kind(pat) {
            PatternKind::Or(_) => ("(", ")"),
            _ => ("", ""),
        };
        out.write_str(open)?;
        self.write_pattern(pat, out)?;
        out.write_str(close)
    }
}
