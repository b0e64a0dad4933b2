//! How function pointers and types under a binder print.
ghost use Rattle.std.specs.Prelude.{IsTrue};
ghost use Rattle.relation_terms.specs.Trees.{known};
ghost use Rattle.text_terms.specs.Printed.{bound_signature, bound_type};

use crate::printing::leaves::write_between;
use crate::printing::names::{abi_text, safety_text};
use crate::printing::under::Under;
use relation_terms::terms::{Binder, FnHeader, FnSigTys, Interner, Ty, TyKey, TyKind, Tys};
use std::fmt::{self, Write};

// What stands behind so many inputs.
fn inputs_end(inputs: usize, c_variadic: bool) -> &'static str {
    match (c_variadic, inputs) {
        (false, _) => ")",
        (true, 0) => "..)",
        (true, _) => ", ..)",
    }
}

// Whether a type is the tuple without members.
fn is_unit<I: Interner>(cx: &I, ty: &Ty<I>) -> bool
    requires { IsTrue (known ((I.meaning cx.now).ty ty.now)) }
{
    match cx.ty_kind(ty) {
        TyKind::Tuple(members) => cx.tys(&members).is_empty(),
        _ => false,
    }
}

impl<'a, I: Interner> Under<'a, I> {
    // Writes a function pointer: `for<'a> unsafe extern "C" fn(&'a T, ..) -> U`.
    #[cycle(write_ty)]
    #[tactic(auto, using(relation_terms::proofs::Binders::under_known, crate::proofs::Parts::signature_part))]
    pub(super) fn write_fn_ptr<W: Write>(
        &self,
        types: &Binder<I::Key, FnSigTys<I::Key>>,
        header: &FnHeader,
        out: &mut W,
    ) -> fmt::Result
        requires { IsTrue (known (bound_signature (I.meaning self.now.cx.now) types.now header.now)) }
    {
        let vars = self.cx.bound_vars(&types.bound_vars);
        self.write_for(vars, out)?;
        out.write_str(safety_text(header.safety))?;
        out.write_str(abi_text(header.abi))?;
        out.write_str("fn(")?;
        let inside = self.enter(vars.len());
        inside.write_signature(&types.value.inputs_and_output, header.c_variadic, out)
    }

    // Writes the types of a signature, the last of which is the output, behind the bracket. The unit type is left out.
    #[cycle(write_ty)]
    #[tactic(auto, using(crate::proofs::Parts::size_part, crate::proofs::Parts::known_part))]
    fn write_signature<W: Write>(
        &self,
        types: &Tys<I>,
        c_variadic: bool,
        out: &mut W,
    ) -> fmt::Result
        requires { IsTrue (known ((I.meaning self.now.cx.now).tys types.now)) }
    {
        let types = self.cx.tys(types);
        let inputs = types.len().saturating_sub(1);
        for (place, ty) in types.iter().enumerate() {
            if place < inputs {
                write_between(place, ", ", out)?;
                self.write_ty(ty, out)?;
            } else {
                out.write_str(inputs_end(inputs, c_variadic))?;
                if !is_unit(self.cx, ty) {
                    out.write_str(" -> ")?;
                    self.write_operand(ty, out)?;
                }
            }
        }
        Ok(())
    }

    // Writes a type whose regions may be bound: `unsafe<'a> &'a T`.
    #[cycle(write_ty)]
    #[tactic(auto, using(relation_terms::proofs::Binders::under_known, crate::proofs::Parts::under_size))]
    pub(super) fn write_unsafe_binder<W: Write>(
        &self,
        body: &Binder<I::Key, TyKey<I::Key>>,
        out: &mut W,
    ) -> fmt::Result
        requires { IsTrue (known (bound_type (I.meaning self.now.cx.now) body.now)) }
    {
        let vars = self.cx.bound_vars(&body.bound_vars);
        out.write_str("unsafe")?;
        self.write_variables(vars, out)?;
        let inside = self.enter(vars.len());
        inside.write_operand(&body.value, out)
    }
}
