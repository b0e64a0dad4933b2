//! What a term names of a context, so that a caller can make it: variables and universes.
ghost use Rattle.std.specs.Prelude.{IsTrue};
ghost use Rattle.relation_terms.specs.Trees.{known};

use delayed_map::DelayedSet;
use relation_folds::visit::{TypeVisitable, TypeVisitor, Visit};
use relation_terms::terms::{
    Const, ConstKind, ConstVid, FloatVid, InferConst, InferTy, IntVid, Interner, OutOfMemory,
    Region, RegionKind, RegionVid, Ty, TyKey, TyKind, TyVid, UniverseIndex,
};
use std::hash::Hash;
use std::ops::ControlFlow;

/// The variables of the largest numbers that a term names, and the latest universe of its placeholders; the first one
/// where it has none.
#[derive(Clone, Copy, PartialEq, Eq)]
pub struct Named {
    pub ty_var: Option<TyVid>,
    pub int_var: Option<IntVid>,
    pub float_var: Option<FloatVid>,
    pub const_var: Option<ConstVid>,
    pub region_var: Option<RegionVid>,
    pub universe: UniverseIndex,
}

// Notes what is named where it is asked. A type that it was asked about before it skips, and where it can't remember one
// it stops.
#[derive(Drop)]
struct Notes<X: Eq + Hash> {
    named: Named,
    seen: DelayedSet<TyKey<X>>,
}

impl<X: Copy + Eq + Hash + Drop> Notes<X> {
    fn note_infer_ty(&mut self, infer: InferTy) {
        match infer {
            InferTy::TyVar(vid) => self.named.ty_var = self.named.ty_var.max(Some(vid)),
            InferTy::IntVar(vid) => self.named.int_var = self.named.int_var.max(Some(vid)),
            InferTy::FloatVar(vid) => self.named.float_var = self.named.float_var.max(Some(vid)),
            InferTy::FreshTy(_) | InferTy::FreshIntTy(_) | InferTy::FreshFloatTy(_) => {}
        }
    }

    fn note_universe(&mut self, universe: UniverseIndex) {
        self.named.universe = self.named.universe.max(universe);
    }
}

impl<I: Interner> TypeVisitor<I> for Notes<I::Key> {
    ghost use Rattle.std.specs.Prelude.{⊤};

    ghost visits = { λ cx v d t w a. ⊤ };

    fn visit_ty(&mut self, cx: &I, ty: &Ty<I>, _depth: u128) -> Visit {
        match self.seen.insert(*ty) {
            Ok(true) => {}
            Ok(false) => return Visit::Skip,
            Err(_) => return Visit::Stop,
        }
        match cx.ty_kind(ty) {
            TyKind::Infer(infer) => self.note_infer_ty(infer),
            TyKind::Placeholder(placeholder) => self.note_universe(placeholder.universe),
            _ => {}
        }
        Visit::Enter
    }

    fn visit_region(&mut self, cx: &I, region: &Region<I>, _depth: u128) -> Visit {
        match cx.region_kind(region) {
            RegionKind::ReVar(vid) => self.named.region_var = self.named.region_var.max(Some(vid)),
            RegionKind::RePlaceholder(placeholder) => self.note_universe(placeholder.universe),
            _ => {}
        }
        Visit::Enter
    }

    fn visit_const(&mut self, cx: &I, constant: &Const<I>, _depth: u128) -> Visit {
        match cx.const_kind(constant) {
            ConstKind::Infer(InferConst::Var(vid)) => {
                self.named.const_var = self.named.const_var.max(Some(vid));
            }
            ConstKind::Placeholder(placeholder) => self.note_universe(placeholder.universe),
            _ => {}
        }
        Visit::Enter
    }
}

/// What a known term names. Each type in it is looked at once.
///
/// A caller makes that many variables and universes, and asks `may_relate`: no clause says that they suffice.
///
/// # Errors
/// `OutOfMemory` where a growth was refused.
pub fn named_in<I: Interner, T: TypeVisitable<I>>(cx: &I, term: &T) -> Result<Named, OutOfMemory>
    requires { IsTrue (known (T.tree (I.meaning cx.now) term.now)) }
{
    let named = Named {
        ty_var: None,
        int_var: None,
        float_var: None,
        const_var: None,
        region_var: None,
        universe: UniverseIndex(0),
    };
    let seen = DelayedSet::new(cx.alloc());
    let mut notes = Notes { named, seen };
    match term.visit_with(cx, &mut notes) {
        ControlFlow::Continue(()) => Ok(notes.named),
        ControlFlow::Break(()) => Err(OutOfMemory),
    }
}
