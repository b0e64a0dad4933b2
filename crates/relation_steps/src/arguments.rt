//! Lists of arguments: how many there are, which stands at a place, and the variances at which they are related.
ghost use Rattle.std.specs.Prelude.{◌≡◌, ◌<◌, IsTrue};
ghost use Rattle.relation_terms.specs.Trees.{known, count, nth, IsList};
ghost use Rattle.relation_terms.specs.Meaning.{arg_tree};

use relation_terms::predicate::AliasTermKind;
use relation_terms::terms::{DefId, GenericArg, GenericArgs, Interner, TraitId};
use std::alloc::AllocError;

/// The variances at which arguments are related.
pub enum ArgVariances<D> {
    /// Invariance, of all of them.
    Invariant,
    /// Those that an item declares, of a type over it.
    Adt(DefId<D>),
    /// The same of a function.
    FnDef(DefId<D>),
    /// Those of an alias of this kind: an opaque type's are declared.
    AliasTerm(AliasTermKind<D>),
    /// Invariance, of a reference to this trait.
    Trait(TraitId<D>),
}

impl<D: Copy> Clone for ArgVariances<D> {
    ghost is_clone = { λ source copy. copy ≡ source };

    ghost is_infallible = { λ _. Unit {0} };

    fn clone(&self) -> Result<Self, AllocError> {
        Ok(*self)
    }
}

impl<D: Copy> Copy for ArgVariances<D> {}

/// The number of arguments of a list. The interner has to know it; it is only read.
pub fn args_count<I: Interner>(cx: &I, args: &GenericArgs<I>) -> usize
    requires { IsTrue (known ((I.meaning cx.now).args args.now)) }
    ensures counts { result ≡ count ((I.meaning cx.now).args args.now) }
    ensures is_list { IsList ((I.meaning cx.now).args args.now) }
{
    cx.args(args).len()
}

/// The argument at a place of a list. The interner has to know it, with as many arguments; it is only read.
pub fn arg_at<I: Interner>(cx: &I, args: &GenericArgs<I>, i: usize) -> GenericArg<I>
    requires args_known { IsTrue (known ((I.meaning cx.now).args args.now)) }
    requires in_bounds { i < count ((I.meaning cx.now).args args.now) }
    ensures sure { IsTrue (known (arg_tree (I.meaning cx.now) result)) }
    ensures means { arg_tree (I.meaning cx.now) result ≡ nth i ((I.meaning cx.now).args args.now) }
{
    cx.args(args)[i]
}
