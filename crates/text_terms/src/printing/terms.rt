//! How terms print.
ghost use Rattle.std.specs.Prelude.{IsTrue};
ghost use Rattle.relation_terms.specs.Trees.{known};
ghost use Rattle.relation_terms.specs.Meaning.{arg_tree, term_tree};

use crate::printing::constants::const_mark;
use crate::printing::items::over_args;
use crate::printing::leaves::write_between;
use crate::printing::names::{mutability_text, pointer_name};
use crate::printing::under::Under;
use relation_terms::terms::{
    Const, GenericArg, GenericArgKind, Interner, Mutability, Region, Term, TermKind, Ty, TyKind,
    Tys,
};
use std::fmt::{self, Write};

#[tactic(auto, using(crate::proofs::Parts::size_part, crate::proofs::Parts::known_part))]
impl<'a, I: Interner> Under<'a, I> {
    /// Writes a type under binders. The interner has to know it.
    ///
    /// # Errors
    /// `fmt::Error` where `out` refused to take some of the text. What it took before stands.
    #[cycle(write_ty)]
    pub fn write_ty<W: Write>(&self, ty: &Ty<I>, out: &mut W) -> fmt::Result
        requires { IsTrue (known ((I.meaning self.now.cx.now).ty ty.now)) }
    {
        let kind = self.cx.ty_kind(ty);
        if let Some(over) = over_args(&kind) {
            return self.write_item(&over.0, &over.1, out);
        }
        match kind {
            TyKind::Array(element, length) => self.write_array(&element, &length, out),
            TyKind::Slice(element) => {
                out.write_str("[")?;
                self.write_ty(&element, out)?;
                out.write_str("]")
            }
            TyKind::RawPtr(pointee, mutability) => {
                out.write_str(pointer_name(mutability))?;
                self.write_operand(&pointee, out)
            }
            TyKind::Ref(region, pointee, mutability) => {
                self.write_borrow(&region, mutability, out)?;
                self.write_operand(&pointee, out)
            }
            TyKind::FnPtr(types, header) => self.write_fn_ptr(&types, &header, out),
            TyKind::UnsafeBinder(body) => self.write_unsafe_binder(&body, out),
            TyKind::Dynamic(predicates, region) => { self.write_object(&predicates, &region, out) }
            TyKind::Tuple(members) => self.write_tuple(&members, out),
            TyKind::Pat(base, pat) => self.write_pattern_type(&base, &pat, out),
            _ => self.write_leaf(&kind, out),
        }
    }

    // Writes an array type: its element's type and its length.
    #[cycle(write_ty)]
    fn write_array<W: Write>(&self, element: &Ty<I>, length: &Const<I>, out: &mut W) -> fmt::Result
        requires element { IsTrue (known ((I.meaning self.now.cx.now).ty element.now)) }
        requires length { IsTrue (known ((I.meaning self.now.cx.now).const_ length.now)) }
    {
        out.write_str("[")?;
        self.write_ty(element, out)?;
        out.write_str("; ")?;
        self.write_const(length, out)?;
        out.write_str("]")
    }

    // Writes what stands before the type that a reference leads to.
    fn write_borrow<W: Write>(
        &self,
        region: &Region<I>,
        mutability: Mutability,
        out: &mut W,
    ) -> fmt::Result
        requires { IsTrue (known ((I.meaning self.now.cx.now).region region.now)) }
    {
        out.write_str("&")?;
        self.write_region(region, out)?;
        out.write_str(mutability_text(mutability))
    }

    // Writes a tuple: a lone member has a comma behind it.
    #[cycle(write_ty)]
    fn write_tuple<W: Write>(&self, members: &Tys<I>, out: &mut W) -> fmt::Result
        requires { IsTrue (known ((I.meaning self.now.cx.now).tys members.now)) }
    {
        let types = self.cx.tys(members);
        out.write_str("(")?;
        for (place, ty) in types.iter().enumerate() {
            write_between(place, ", ", out)?;
            self.write_ty(ty, out)?;
        }
        if types.len() == 1 {
            out.write_str(",")?;
        }
        out.write_str(")")
    }

    /// Writes a type under binders that another form ends in. The bounds of a trait object would be taken for more, so that
    /// one stands in brackets. The interner has to know the type.
    ///
    /// # Errors
    /// `fmt::Error` where `out` refused to take some of the text. What it took before stands.
    #[cycle(write_ty)]
    pub fn write_operand<W: Write>(&self, ty: &Ty<I>, out: &mut W) -> fmt::Result
        requires { IsTrue (known ((I.meaning self.now.cx.now).ty ty.now)) }
    {
        let (open, close) = match self.cx.ty_kind(ty) {
            TyKind::Dynamic(..) => ("(", ")"),
            _ => ("", ""),
        };
        out.write_str(open)?;
        self.write_ty(ty, out)?;
        out.write_str(close)
    }

    /// Writes a term under binders: a type or a constant. A trait object stands in brackets. The interner has to know the
    /// term.
    ///
    /// # Errors
    /// `fmt::Error` where `out` refused to take some of the text. What it took before stands.
    #[cycle(write_ty)]
    pub fn write_term<W: Write>(&self, term: &Term<I>, out: &mut W) -> fmt::Result
        requires { IsTrue (known (term_tree (I.meaning self.now.cx.now) term.now)) }
    {
        match term {
            TermKind::Ty(ty) => self.write_operand(ty, out),
            TermKind::Const(constant) => self.write_const(constant, out),
        }
    }

    /// Writes a generic argument under binders, where it is told which sort it is of. The interner has to know it.
    ///
    /// # Errors
    /// `fmt::Error` where `out` refused to take some of the text. What it took before stands.
    #[cycle(write_ty)]
    pub fn write_arg<W: Write>(&self, arg: &GenericArg<I>, out: &mut W) -> fmt::Result
        requires { IsTrue (known (arg_tree (I.meaning self.now.cx.now) arg.now)) }
    {
        match arg {
            GenericArgKind::Lifetime(region) => self.write_region(region, out),
            GenericArgKind::Ty(ty) => self.write_ty(ty, out),
            GenericArgKind::Const(constant) => self.write_const(constant, out),
        }
    }

    /// Writes a generic argument under binders, where one of any sort may stand: `const` stands before a constant that
    /// would be read as a type. The interner has to know the argument.
    ///
    /// # Errors
    /// `fmt::Error` where `out` refused to take some of the text. What it took before stands.
    #[cycle(write_ty)]
    pub fn write_any_arg<W: Write>(&self, arg: &GenericArg<I>, out: &mut W) -> fmt::Result
        requires { IsTrue (known (arg_tree (I.meaning self.now.cx.now) arg.now)) }
    {
        if let GenericArgKind::Const(constant) = arg {
            out.write_str(const_mark(&self.cx.const_kind(constant)))?;
        }
        self.write_arg(arg, out)
    }
}
