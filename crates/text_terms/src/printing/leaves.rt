//! How terms print that have no parts.
ghost use Rattle.std.specs.Prelude.{IsTrue};
ghost use Rattle.relation_terms.specs.Trees.{known};

use crate::printing::names::{
    NameTexts, Texts, float_name, int_name, item_text, name_text, region_name_text, uint_name,
};
use crate::printing::under::Under;
use relation_terms::terms::{
    BoundVar, InferConst, InferTy, Interner, Region, RegionKind, TyForm, TyKind, UniverseIndex,
};
use std::fmt::{self, Write};
use std::hash::Hash;

// Whether a name is one that a binder gives to what it binds: it begins with a mark.
fn is_bound_name(text: &str) -> bool {
    matches!(text.as_bytes().first(), Some(b'\'' | b'^'))
}

// Writes a placeholder: the number of its universe, and its name, or the place that it has in a binder's list where
// that named it.
pub(super) fn write_placeholder<N: Eq + Hash, W: Write>(
    names: &NameTexts<N>,
    universe: UniverseIndex,
    var: BoundVar,
    name: &N,
    out: &mut W,
) -> fmt::Result {
    let number = universe.0;
    let text = name_text(names, name);
    if is_bound_name(text) {
        let place = var.0;
        write!(out, "!{number}.{place}")
    } else {
        write!(out, "!{number}{text}")
    }
}

// Writes a variable that stands for a type, or a stand-in for one.
pub(super) fn write_variable<W: Write>(variable: InferTy, out: &mut W) -> fmt::Result {
    let (mark, number) = match variable {
        InferTy::TyVar(variable) => ("?", variable.0),
        InferTy::IntVar(variable) => ("?i", variable.0),
        InferTy::FloatVar(variable) => ("?f", variable.0),
        InferTy::FreshTy(number) => return write!(out, "fresh {number}"),
        InferTy::FreshIntTy(number) => return write!(out, "fresh i{number}"),
        InferTy::FreshFloatTy(number) => return write!(out, "fresh f{number}"),
    };
    write!(out, "{mark}{number}")
}

// Writes a variable that stands for a constant, or a stand-in for one.
pub(super) fn write_const_variable<W: Write>(variable: InferConst, out: &mut W) -> fmt::Result {
    match variable {
        InferConst::Var(variable) => {
            let number = variable.0;
            write!(out, "?c{number}")
        }
        InferConst::Fresh(number) => write!(out, "fresh c{number}"),
    }
}

/// Writes what stands between the members of a list, before the one at that place: nothing before the first.
///
/// # Errors
/// `fmt::Error` where `out` refused to take some of the text. What it took before stands.
pub fn write_between<W: Write>(place: usize, between: &str, out: &mut W) -> fmt::Result {
    if place == 0 {
        return Ok(());
    }
    out.write_str(between)
}

// The text of a type that has no parts and no number.
fn leaf_text<'a, X, D: Eq + Hash, N: Eq + Hash>(
    texts: &Texts<'a, D, N>,
    kind: &TyKind<X, D, N>,
) -> &'a str {
    match kind {
        TyKind::Bool => "bool",
        TyKind::Char => "char",
        TyKind::Str => "str",
        TyKind::Never => "!",
        TyKind::Int(width) => int_name(*width),
        TyKind::Uint(width) => uint_name(*width),
        TyKind::Float(width) => float_name(*width),
        TyKind::Foreign(def) => item_text(&texts.items, &def.0),
        TyKind::Param(named) => name_text(&texts.names, &named.name),
        TyKind::Error(_) => "{error}",
        _ => "",
    }
}

impl<'a, I: Interner> Under<'a, I> {
    /// Writes a region under binders. A parameter that has no text is `'_`. The interner has to know the region.
    ///
    /// # Errors
    /// `fmt::Error` where `out` refused to take some of the text. What it took before stands.
    pub fn write_region<W: Write>(&self, region: &Region<I>, out: &mut W) -> fmt::Result
        requires { IsTrue (known ((I.meaning self.now.cx.now).region region.now)) }
    {
        match self.cx.region_kind(region) {
            RegionKind::ReStatic => out.write_str("'static"),
            RegionKind::ReVar(variable) => {
                let number = variable.0;
                write!(out, "'?{number}")
            }
            RegionKind::ReEarlyParam(named) => {
                out.write_str(region_name_text(&self.texts.names, &named.name))
            }
            RegionKind::ReBound(depth, of) => self.write_bound_region(depth, of.var, out),
            RegionKind::RePlaceholder(of) => {
                out.write_str("'")?;
                write_placeholder(
                    &self.texts.names,
                    of.universe,
                    of.bound.var,
                    &of.bound.name,
                    out,
                )
            }
        }
    }

    // Writes a type that has no parts.
    pub(super) fn write_leaf<W: Write>(&self, kind: &TyForm<I>, out: &mut W) -> fmt::Result {
        let names = &self.texts.names;
        match kind {
            TyKind::Placeholder(of) => {
                write_placeholder(names, of.universe, of.bound.var, &of.bound.name, out)
            }
            TyKind::Bound(depth, of) => self.write_bound("^", *depth, of.var, out),
            TyKind::Infer(variable) => write_variable(*variable, out),
            _ => out.write_str(leaf_text(self.texts, kind)),
        }
    }
}
