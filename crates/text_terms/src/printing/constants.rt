//! How constants print.
ghost use Rattle.std.specs.Prelude.{◌≡◌, IsTrue};
ghost use Rattle.relation_terms.specs.Trees.{known};
ghost use Rattle.text_terms.specs.Texts.{const_mark, own_size};

use crate::printing::leaves::{write_between, write_const_variable, write_placeholder};
use crate::printing::names::name_text;
use crate::printing::under::Under;
use relation_terms::terms::{
    Const, ConstKind, ExprKind, GenericArgs, IntTy, Interner, Ty, TyKind, UintTy, ValTree,
    ValTreeKind,
};
use std::fmt::{self, Write};

// What stands before a constant where any term may stand: `const` before one that would be read as a type.
pub(super) fn const_mark<X, D, N>(kind: &ConstKind<X, D, N>) -> &'static str
    ensures { result.now ≡ const_mark kind.now }
{
    match kind {
        ConstKind::Placeholder(_) | ConstKind::Error(_) => "const ",
        _ => "",
    }
}

// How many bytes a number of a type takes, if numbers are read with the type's name behind them.
fn own_size<X, D, N>(ty: &TyKind<X, D, N>) -> Option<u8>
    ensures { result ≡ own_size ty.now }
{
    match ty {
        TyKind::Bool | TyKind::Uint(UintTy::U8) | TyKind::Int(IntTy::I8) => Some(1),
        TyKind::Uint(UintTy::U16) | TyKind::Int(IntTy::I16) => Some(2),
        TyKind::Char | TyKind::Uint(UintTy::U32) | TyKind::Int(IntTy::I32) => Some(4),
        TyKind::Uint(UintTy::U64 | UintTy::Usize) | TyKind::Int(IntTy::I64 | IntTy::Isize) => {
            Some(8)
        }
        TyKind::Uint(UintTy::U128) | TyKind::Int(IntTy::I128) => Some(16),
        _ => None,
    }
}

#[tactic(auto, using(crate::proofs::Parts::size_part, crate::proofs::Parts::known_part))]
impl<'a, I: Interner> Under<'a, I> {
    /// Writes a constant under binders: a value with its type behind it, unless that is `usize`. The interner has to know
    /// the constant.
    ///
    /// # Errors
    /// `fmt::Error` where `out` refused to take some of the text. What it took before stands.
    #[cycle(write_ty)]
    pub fn write_const<W: Write>(&self, constant: &Const<I>, out: &mut W) -> fmt::Result
        requires { IsTrue (known ((I.meaning self.now.cx.now).const_ constant.now)) }
    {
        match self.cx.const_kind(constant) {
            ConstKind::Param(named) => out.write_str(name_text(&self.texts.names, &named.name)),
            ConstKind::Placeholder(of) => write_placeholder(
                &self.texts.names,
                of.universe,
                of.bound.var,
                &of.bound.name,
                out,
            ),
            ConstKind::Bound(depth, of) => self.write_bound("^c", depth, of.var, out),
            ConstKind::Infer(variable) => write_const_variable(variable, out),
            ConstKind::Error(_) => out.write_str("{error}"),
            ConstKind::Value(ty, value) => self.write_value(&ty, &value, out),
            ConstKind::Unevaluated(of) => self.write_item(&of.def.0, &of.args, out),
            ConstKind::Expr(kind, args) => self.write_expression(kind, &args, out),
        }
    }

    // Writes an expression: the number of its operation, and its arguments, which may be of any sort.
    #[cycle(write_ty)]
    fn write_expression<W: Write>(
        &self,
        kind: ExprKind,
        args: &GenericArgs<I>,
        out: &mut W,
    ) -> fmt::Result
        requires { IsTrue (known ((I.meaning self.now.cx.now).args args.now)) }
    {
        let number = kind.0;
        write!(out, "expr {number}(")?;
        for (place, arg) in self.cx.args(args).iter().enumerate() {
            write_between(place, ", ", out)?;
            self.write_any_arg(arg, out)?;
        }
        out.write_str(")")
    }

    // Writes a value, with its type behind it: `2u8`. That of a number alone, `usize`, is left out. The size of a number
    // stands behind that if it is not its type's, as in `2u8 in 8`: then no text is read as the value.
    #[cycle(write_ty)]
    fn write_value<W: Write>(&self, ty: &Ty<I>, value: &ValTree<I>, out: &mut W) -> fmt::Result
        requires ty { IsTrue (known ((I.meaning self.now.cx.now).ty ty.now)) }
        requires value { IsTrue (known ((I.meaning self.now.cx.now).valtree value.now)) }
    {
        self.write_valtree(value, out)?;
        let kind = self.cx.ty_kind(ty);
        if !matches!(kind, TyKind::Uint(UintTy::Usize)) {
            self.write_ty(ty, out)?;
        }
        match self.cx.valtree_kind(value) {
            ValTreeKind::Leaf { size, .. } if own_size(&kind) != Some(size) => {
                write!(out, " in {size}")
            }
            _ => Ok(()),
        }
    }

    // Writes what a value is: a leaf's bits as a number, or the constants that it is made of, in braces.
    #[cycle(write_ty)]
    fn write_valtree<W: Write>(&self, value: &ValTree<I>, out: &mut W) -> fmt::Result
        requires { IsTrue (known ((I.meaning self.now.cx.now).valtree value.now)) }
    {
        match self.cx.valtree_kind(value) {
            ValTreeKind::Leaf { bits, .. } => write!(out, "{bits}"),
            ValTreeKind::Branch(branches) => {
                out.write_str("{")?;
                for (place, constant) in self.cx.branches(&branches).iter().enumerate() {
                    write_between(place, ", ", out)?;
                    self.write_const(constant, out)?;
                }
                out.write_str("}")
            }
        }
    }
}
