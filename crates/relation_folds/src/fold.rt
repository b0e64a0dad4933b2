//! Folds: a term built anew, where a folder puts other types, regions and constants for those that it has.
ghost use Rattle.std.specs.Prelude.{◌≡◌, ℕ, IsTrue, IfOk, Option};
ghost use Rattle.relation_terms.specs.Trees.{Tree, known};
ghost use Rattle.relation_terms.specs.Meaning.{Meaning, Extends};
ghost use Rattle.relation_folds.specs.Folds.{Steps, KnownAnswer};
ghost use Rattle.relation_folds.specs.KeyFolds.{PutsFor, FoldsTo, LeavesAs};

use crate::tree::HasTree;
use relation_terms::terms::{Const, Interner, OutOfMemory, Region, Ty};

mod binder;
mod bound;
mod clauses;
mod foldable;
mod forms;
mod goals;
mod keyed;
mod memory;
mod predicates;
mod shift;
mod walk;

pub use bound::instantiate_bound_vars;
pub use keyed::{
    fold_args_with, fold_const_with, fold_region_with, fold_ty_with, super_fold_const,
    super_fold_ty,
};
pub use memory::{Place, place_of};
pub use shift::shift_vars;
pub use walk::{depth_inside, first_members};

/// What a folder answers at a type, a region or a constant.
#[derive(Clone, Copy)]
pub enum Fold<T> {
    /// Nothing is put for the term, and its parts are folded.
    Descend,
    /// This term stands in the place of the given one, as it is.
    Replace(T),
}

/// What puts terms for the types, regions and constants of a term.
///
/// A folder is asked at each of them from the outside inwards, and never folds by itself: `fold_with` goes into the
/// parts where the folder says so. Its answer depends on the term and its depth alone. The depth is how many binders
/// stand around the term, within what is folded; 0 until one is entered.
pub trait TypeFolder<I: Interner> {
    // What the folder needs to find in an interner.
    ghost ready: { Meaning I.Key I.Id I.Name → Self → Type 0 };

    // What it puts for a tree that stands under so many binders of what is folded, if anything.
    ghost replaces: { Meaning I.Key I.Id I.Name → Self → ℕ → Tree → Option Tree };

    /// What stands in the place of a type that stands under `depth` binders.
    fn fold_ty(&mut self, cx: &mut I, ty: &Ty<I>, depth: u128) -> Result<Fold<Ty<I>>, OutOfMemory>
        requires known { IsTrue (known ((I.meaning cx.old).ty ty.now)) }
        requires ready { ready (I.meaning cx.old) self.old }
        ensures steps { Steps ready replaces (I.meaning cx.old) self.old (I.meaning cx.new) self.new }
        ensures sure { IfOk result (λ a. KnownAnswer (I.meaning cx.new).ty a) }
        ensures made { PutsFor replaces (I.meaning cx.old) self.old (I.meaning cx.new)
            (λ m. m.ty) depth ty.now result };

    /// What stands in the place of a region that stands under `depth` binders.
    fn fold_region(
        &mut self,
        cx: &mut I,
        region: &Region<I>,
        depth: u128,
    ) -> Result<Fold<Region<I>>, OutOfMemory>
        requires known { IsTrue (known ((I.meaning cx.old).region region.now)) }
        requires ready { ready (I.meaning cx.old) self.old }
        ensures steps { Steps ready replaces (I.meaning cx.old) self.old (I.meaning cx.new) self.new }
        ensures sure { IfOk result (λ a. KnownAnswer (I.meaning cx.new).region a) }
        ensures made { PutsFor replaces (I.meaning cx.old) self.old (I.meaning cx.new)
            (λ m. m.region) depth region.now result };

    /// What stands in the place of a constant that stands under `depth` binders.
    fn fold_const(
        &mut self,
        cx: &mut I,
        constant: &Const<I>,
        depth: u128,
    ) -> Result<Fold<Const<I>>, OutOfMemory>
        requires known { IsTrue (known ((I.meaning cx.old).const_ constant.now)) }
        requires ready { ready (I.meaning cx.old) self.old }
        ensures steps { Steps ready replaces (I.meaning cx.old) self.old (I.meaning cx.new) self.new }
        ensures sure { IfOk result (λ a. KnownAnswer (I.meaning cx.new).const_ a) }
        ensures made { PutsFor replaces (I.meaning cx.old) self.old (I.meaning cx.new)
            (λ m. m.const_) depth constant.now result };

    // A folder that is ready stays so while the interner grows, and puts the same.
    ghost ready_on: { (m n : Meaning I.Key I.Id I.Name) → Extends m n → (f : Self) → ready m f → ready n f };

    ghost replaces_on: { (m n : Meaning I.Key I.Id I.Name) → Extends m n → (f : Self) → ready m f →
        (d : ℕ) (t : Tree) → replaces n f d t ≡ replaces m f d t };
}

/// What has types, regions or constants: a key of a term, or a form over keys.
pub trait TypeFoldable<I: Interner>: HasTree<I> + PartialEq {
    /// What the folder makes of it. Each type, region and constant that the folder replaces stands as the folder gave
    /// it, and all others over their folded parts. Where that is the term as it was, the answer equals it.
    ///
    /// Answers `OutOfMemory` where a growth was refused, in the folder too.
    fn fold_with<F: TypeFolder<I>>(&self, cx: &mut I, folder: &mut F) -> Result<Self, OutOfMemory>
        requires known { IsTrue (known (Self.tree (I.meaning cx.old) self.now)) }
        requires ready { F.ready (I.meaning cx.old) folder.old }
        ensures steps { Steps F.ready F.replaces (I.meaning cx.old) folder.old (I.meaning cx.new) folder.new }
        ensures sure { IfOk result (λ x. IsTrue (known (Self.tree (I.meaning cx.new) x))) }
        ensures made { FoldsTo F.replaces (I.meaning cx.old) folder.old (I.meaning cx.new) Self.tree self.now result }
        ensures same { LeavesAs F.replaces (I.meaning cx.old) folder.old Self.tree Self.eq self.now result };
}
