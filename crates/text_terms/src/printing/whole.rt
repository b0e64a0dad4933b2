//! How terms print that stand alone. What a binder binds prints by its number: a region by the letter of that number
//! among those that name no region which stands free in the term, so that it is not taken for one.
ghost use Rattle.std.specs.Prelude.{IsTrue, OnOk};
ghost use Rattle.std.specs.Fmt.{WritesInCalls};
ghost use Rattle.relation_terms.specs.Trees.{known};
ghost use Rattle.relation_terms.specs.Meaning.{arg_tree};
ghost use Rattle.text_terms.specs.Texts.{text_at};

use crate::printing::free::free_letters;
use crate::printing::letters::Letters;
use crate::printing::names::{TextsOf, item_text, name_text};
use crate::printing::under::Under;
use crate::printing::{items, leaves};
use relation_terms::terms::{
    AliasTy, Const, ExistentialPredicates, GenericArg, InferTy, Interner, ItemOf, ParamTy,
    PlaceholderType, Region, Ty,
};
use std::fmt::{self, Write};

/// Writes a type. A parameter or an item that has no text is `_`, a region parameter `'_`.
///
/// # Errors
/// `fmt::Error` where `out` refused to take some of the text, or memory for the letters of free regions was refused.
/// What `out` took before stands.
pub fn write_ty<I: Interner, W: Write>(
    cx: &I,
    texts: &TextsOf<I>,
    ty: &Ty<I>,
    out: &mut W,
) -> fmt::Result
    requires { IsTrue (known ((I.meaning cx.now).ty ty.now)) }
{
    let letters = free_letters(cx, texts, ty)?;
    Under::new(cx, texts, &letters).write_ty(ty, out)
}

/// Writes a region. A parameter that has no text is `'_`.
///
/// # Errors
/// `fmt::Error` where `out` refused to take some of the text. What it took before stands.
pub fn write_region<I: Interner, W: Write>(
    cx: &I,
    texts: &TextsOf<I>,
    region: &Region<I>,
    out: &mut W,
) -> fmt::Result
    requires { IsTrue (known ((I.meaning cx.now).region region.now)) }
{
    let letters = Letters::new(cx.alloc());
    Under::new(cx, texts, &letters).write_region(region, out)
}

/// Writes a constant: a value with its type behind it, unless that is `usize`. A parameter that has no text is `_`.
///
/// # Errors
/// `fmt::Error` where `out` refused to take some of the text, or memory for the letters of free regions was refused.
/// What `out` took before stands.
pub fn write_const<I: Interner, W: Write>(
    cx: &I,
    texts: &TextsOf<I>,
    constant: &Const<I>,
    out: &mut W,
) -> fmt::Result
    requires { IsTrue (known ((I.meaning cx.now).const_ constant.now)) }
{
    let letters = free_letters(cx, texts, constant)?;
    Under::new(cx, texts, &letters).write_const(constant, out)
}

/// Writes a generic argument: a region, a type or a constant, as each is written alone, with `const` before a constant
/// that would be read as a type.
///
/// # Errors
/// `fmt::Error` where `out` refused to take some of the text, or memory for the letters of free regions was refused.
/// What `out` took before stands.
pub fn write_arg<I: Interner, W: Write>(
    cx: &I,
    texts: &TextsOf<I>,
    arg: &GenericArg<I>,
    out: &mut W,
) -> fmt::Result
    requires { IsTrue (known (arg_tree (I.meaning cx.now) arg.now)) }
{
    let letters = free_letters(cx, texts, arg)?;
    Under::new(cx, texts, &letters).write_any_arg(arg, out)
}

/// Writes the predicates of a trait object as they stand behind `dyn`, with `+` between; nothing where there are none.
///
/// # Errors
/// `fmt::Error` where `out` refused to take some of the text, or memory for the letters of free regions was refused.
/// What `out` took before stands.
pub fn write_object_predicates<I: Interner, W: Write>(
    cx: &I,
    texts: &TextsOf<I>,
    predicates: &ExistentialPredicates<I>,
    out: &mut W,
) -> fmt::Result
    requires { IsTrue (known ((I.meaning cx.now).existential_predicates predicates.now)) }
{
    let letters = free_letters(cx, texts, predicates)?;
    Under::new(cx, texts, &letters).write_object_predicates(predicates, out)
}

/// Writes an item's name. One that has no text is `_`.
///
/// # Errors
/// `fmt::Error` where `out` refused to take the text.
pub fn write_item_name<I: Interner, W: Write>(
    texts: &TextsOf<I>,
    item: &ItemOf<I>,
    out: &mut W,
) -> fmt::Result
    ensures { OnOk result (WritesInCalls W.write_str_gives out.old (text_at I.Id.eq texts.now item.now) out.new) }
{
    out.write_str(item_text(&texts.items, &item.0))
}

/// Writes a parameter that stands for a type. One that has no text is `_`.
///
/// # Errors
/// `fmt::Error` where `out` refused to take the text.
pub fn write_param<I: Interner, W: Write>(
    texts: &TextsOf<I>,
    param: &ParamTy<I::Name>,
    out: &mut W,
) -> fmt::Result {
    out.write_str(name_text(&texts.names, &param.name))
}

/// Writes a placeholder that stands for a type: `!`, the number of its universe, and its name, or `_` if that has no
/// text. Where a binder gave the name, which then begins with `'` or `^`, its place in the binder's list stands for it:
/// `!1.0`.
///
/// # Errors
/// `fmt::Error` where `out` refused to take some of the text. What it took before stands.
pub fn write_placeholder<I: Interner, W: Write>(
    texts: &TextsOf<I>,
    placeholder: &PlaceholderType<I::Name>,
    out: &mut W,
) -> fmt::Result {
    leaves::write_placeholder(
        &texts.names,
        placeholder.universe,
        placeholder.bound.var,
        &placeholder.bound.name,
        out,
    )
}

/// Writes a variable that stands for a type.
///
/// # Errors
/// `fmt::Error` where `out` refused to take some of the text. What it took before stands.
pub fn write_variable<W: Write>(variable: InferTy, out: &mut W) -> fmt::Result {
    leaves::write_variable(variable, out)
}

/// Writes an alias of a type over its arguments. An item that has no text is `_`.
///
/// # Errors
/// `fmt::Error` where `out` refused to take some of the text, or memory for the letters of free regions was refused.
/// What `out` took before stands.
pub fn write_alias<I: Interner, W: Write>(
    cx: &I,
    texts: &TextsOf<I>,
    alias: &AliasTy<I::Key, I::Id>,
    out: &mut W,
) -> fmt::Result
    requires { IsTrue (known ((I.meaning cx.now).args (alias.now).args)) }
{
    let letters = free_letters(cx, texts, &alias.args)?;
    let id = items::alias_id(&alias.kind);
    Under::new(cx, texts, &letters).write_item(&id, &alias.args, out)
}
