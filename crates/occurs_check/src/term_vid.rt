//! Variables for types and constants: which one a term is.
ghost use Rattle.std.specs.Prelude.{◌≡◌, ◌↔◌, IsTrue, IfSome, IfNone};
ghost use Rattle.relation_terms.specs.Trees.{known};
ghost use Rattle.relation_terms.specs.Parts.{part_tree};
ghost use Rattle.occurs_check.specs.TermVids.{vid_tree};

use relation_semantics::variable_forms::{const_vid, ty_vid};
use relation_terms::terms::{ConstVid, Interner, Part, PartOf, TyVid};

/// A variable for a type or for a constant.
#[derive(Clone, Copy)]
pub enum TermVid {
    Ty(TyVid),
    Const(ConstVid),
}

/// The type or constant variable that a term is, or none.
pub fn variable_of<I: Interner>(cx: &I, term: &PartOf<I>) -> Option<TermVid>
    requires { IsTrue (known (part_tree (I.meaning cx.now) term.now)) }
    ensures is { IfSome result (λ v. part_tree (I.meaning cx.now) term.now ≡ vid_tree v) }
    ensures is_none { IfNone result ((v : _) → part_tree (I.meaning cx.now) term.now ≡ vid_tree v → ⊥) }
{
    match term {
        Part::Ty(ty) => Some(TermVid::Ty(ty_vid(&cx.ty_kind(ty))?)),
        Part::Const(constant) => Some(TermVid::Const(const_vid(&cx.const_kind(constant))?)),
        _ => None,
    }
}

/// Whether two variables are one.
pub fn is_same_vid(a: TermVid, b: TermVid) -> bool
    ensures { IsTrue result ↔ (a ≡ b) }
{
    match a {
        TermVid::Ty(a) => match b {
            TermVid::Ty(b) => a.0 == b.0,
            TermVid::Const(_) => false,
        },
        TermVid::Const(a) => match b {
            TermVid::Const(b) => a.0 == b.0,
            TermVid::Ty(_) => false,
        },
    }
}
