//! How items print over their arguments.
ghost use Rattle.std.specs.Prelude.{◌≡◌, IfSome, IsTrue};
ghost use Rattle.relation_terms.specs.Trees.{known};
ghost use Rattle.relation_terms.specs.Meaning.{alias_id};
ghost use Rattle.text_terms.specs.Printed.{IsOver};

use crate::printing::leaves::write_between;
use crate::printing::names::{TraitText, item_text, trait_text};
use crate::printing::under::Under;
use relation_terms::terms::{AliasTyKind, ArgsKey, GenericArgs, Interner, TyKind};
use std::fmt::{self, Write};

// The id of an alias.
pub(super) fn alias_id<D: Copy>(kind: &AliasTyKind<D>) -> D
    ensures { result ≡ alias_id kind.now }
{
    match kind {
        AliasTyKind::Projection { def_id } => def_id.0,
        AliasTyKind::Inherent { def_id } => def_id.0,
        AliasTyKind::Opaque { def_id } => def_id.0,
        AliasTyKind::Free { def_id } => def_id.0,
    }
}

// The item that a type is, and its arguments, if it is one over arguments.
pub(super) fn over_args<X: Copy, D: Copy, N>(kind: &TyKind<X, D, N>) -> Option<(D, ArgsKey<X>)>
    ensures { IfSome result (λ p. IsOver kind.now p.1) }
{
    match kind {
        TyKind::Adt(def, args) => Some((def.0, *args)),
        TyKind::FnDef(def, args) => Some((def.0, *args)),
        TyKind::Closure(def, args) => Some((def.0, *args)),
        TyKind::CoroutineClosure(def, args) => Some((def.0, *args)),
        TyKind::Coroutine(def, args) => Some((def.0, *args)),
        TyKind::CoroutineWitness(def, args) => Some((def.0, *args)),
        TyKind::Alias(alias) => Some((alias_id(&alias.kind), alias.args)),
        _ => None,
    }
}

#[tactic(auto, using(crate::proofs::Parts::size_part, crate::proofs::Parts::known_part))]
impl<'a, I: Interner> Under<'a, I> {
    /// Writes an item over its arguments under binders: an associated item of a trait by the trait, any other by its name.
    /// The interner has to know the arguments.
    ///
    /// # Errors
    /// `fmt::Error` where `out` refused to take some of the text. What it took before stands.
    #[cycle(write_ty)]
    pub fn write_item<W: Write>(
        &self,
        id: &I::Id,
        args: &GenericArgs<I>,
        out: &mut W,
    ) -> fmt::Result
        requires { IsTrue (known ((I.meaning self.now.cx.now).args args.now)) }
    {
        let name = item_text(&self.texts.items, id);
        let count = self.cx.args(args).len();
        match trait_text(&self.texts.items, id) {
            Some(of) if 0 < of.count && of.count <= count => {
                self.write_associated(of, args, out)?;
                self.write_named(name, args, of.count, count, out)
            }
            _ => self.write_named(name, args, 0, count, out),
        }
    }

    // Writes what stands before the name of an associated item: the type that its trait is of, and the trait.
    #[cycle(write_ty)]
    fn write_associated<W: Write>(
        &self,
        of: TraitText,
        args: &GenericArgs<I>,
        out: &mut W,
    ) -> fmt::Result
        requires { IsTrue (known ((I.meaning self.now.cx.now).args args.now)) }
    {
        out.write_str("<")?;
        self.write_args(args, 0, 1, out)?;
        out.write_str(" as ")?;
        self.write_named(of.text, args, 1, of.count, out)?;
        out.write_str(">::")
    }

    /// Writes a name and, where there are any, the arguments from a place on, up to another, under binders. The interner
    /// has to know the arguments.
    ///
    /// # Errors
    /// `fmt::Error` where `out` refused to take some of the text. What it took before stands.
    #[cycle(write_ty)]
    pub fn write_named<W: Write>(
        &self,
        name: &str,
        args: &GenericArgs<I>,
        first: usize,
        behind: usize,
        out: &mut W,
    ) -> fmt::Result
        requires { IsTrue (known ((I.meaning self.now.cx.now).args args.now)) }
    {
        out.write_str(name)?;
        if behind <= first {
            return Ok(());
        }
        out.write_str("<")?;
        self.write_args(args, first, behind, out)?;
        out.write_str(">")
    }

    // Writes the arguments from a place on, up to another, with commas between.
    #[cycle(write_ty)]
    pub(super) fn write_args<W: Write>(
        &self,
        args: &GenericArgs<I>,
        first: usize,
        behind: usize,
        out: &mut W,
    ) -> fmt::Result
        requires { IsTrue (known ((I.meaning self.now.cx.now).args args.now)) }
    {
        for (place, arg) in self.cx.args(args).iter().enumerate() {
            if first <= place && place < behind {
                write_between(place - first, ", ", out)?;
                self.write_arg(arg, out)?;
            }
        }
        Ok(())
    }
}
