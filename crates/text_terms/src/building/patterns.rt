//! The key of a pattern, and of a type over one, by the keys of its parts.
ghost use Rattle.std.specs.Prelude.{◌≡◌, IsTrue};
ghost use Rattle.relation_terms.specs.Heads.{or_pattern};
ghost use Rattle.relation_terms.specs.Trees.{known, node, list_tree};
ghost use Rattle.relation_terms.specs.Meaning.{Extends, pattern_tree};
ghost use Rattle.text_terms.specs.Built.{AreKnown, AreInnerKnown, MakesPattern, MakesPatternType, MakesInner};
ghost use Rattle.text_terms.specs.Built.{inner_tree};

use crate::building::inner::{Inner, InnerOf, pats_of};
use crate::building::lists::{const_at, key_at, keys_at, ty_at};
use crate::building::making::make_ty;
use relation_terms::terms::{GenericArg, Interner, PatternForm, PatternKind, TyKind};
use text_reading::naming::Term;

// The pattern of a form.
fn make_pat<I: Interner>(cx: &mut I, form: PatternForm<I>) -> Option<InnerOf<I>>
    requires { IsTrue (known (pattern_tree (I.meaning cx.old) form)) }
    ensures grown { Extends (I.meaning cx.old) (I.meaning cx.new) }
    ensures made { MakesInner (I.meaning cx.new) (pattern_tree (I.meaning cx.old) form) result }
{
    match cx.mk_pat(form) {
        Ok(pat) => Some(Inner::Pat(pat)),
        Err(_) => None,
    }
}

// The pattern of alternatives.
fn make_alternatives<I: Interner>(cx: &mut I, inners: &[InnerOf<I>]) -> Option<InnerOf<I>>
    requires { IsTrue (known (list_tree (inner_tree (I.meaning cx.old)) inners.now)) }
    ensures grown { Extends (I.meaning cx.old) (I.meaning cx.new) }
    ensures made { let m = I.meaning cx.old in
        MakesInner (I.meaning cx.new) (node or_pattern (list_tree (inner_tree m) inners.now)) result }
{
    let pats = pats_of(cx.alloc(), inners)?;
    let Ok(alternatives) = cx.mk_alternatives(&pats) else {
        return None;
    };
    make_pat(cx, PatternKind::Or(alternatives))
}

// The pattern that a term is. A term that is none has no pattern.
pub(super) fn make_pattern<I: Interner>(
    cx: &mut I,
    numbers: &[usize],
    built: &[Option<GenericArg<I>>],
    inners: &[Option<InnerOf<I>>],
    term: Term,
) -> Option<InnerOf<I>>
    requires keys { AreKnown (I.meaning cx.old) built.now }
    requires inners { AreInnerKnown (I.meaning cx.old) inners.now }
    ensures grown { Extends (I.meaning cx.old) (I.meaning cx.new) }
    ensures made { MakesPattern (I.meaning cx.old) (I.meaning cx.new) numbers.now built.now inners.now term result }
{
    match term {
        Term::Range(start, end) => {
            let start = const_at(built, start)?;
            let end = const_at(built, end)?;
            make_pat(cx, PatternKind::Range { start, end })
        }
        Term::Or(parts) => {
            let list = keys_at(cx.alloc(), numbers, inners, parts)?;
            make_alternatives(cx, &list)
        }
        Term::NotNull => make_pat(cx, PatternKind::NotNull),
        _ => None,
    }
}

// The values of a type that a pattern admits. A term that is no such type has no key.
pub(super) fn make_pattern_type<I: Interner>(
    cx: &mut I,
    built: &[Option<GenericArg<I>>],
    inners: &[Option<InnerOf<I>>],
    term: Term,
) -> Option<GenericArg<I>>
    requires keys { AreKnown (I.meaning cx.old) built.now }
    requires inners { AreInnerKnown (I.meaning cx.old) inners.now }
    ensures grown { Extends (I.meaning cx.old) (I.meaning cx.new) }
    ensures made { MakesPatternType (I.meaning cx.old) (I.meaning cx.new) built.now inners.now term result }
{
    match term {
        Term::Pat(base, pat) => {
            let base = ty_at(built, base)?;
            let Inner::Pat(pat) = key_at(inners, pat)? else {
                return None;
            };
            make_ty(cx, TyKind::Pat(base, pat))
        }
        _ => None,
    }
}
