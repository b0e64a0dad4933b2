//! Folds that are asked for: what comes of a term where others are put for its parts.
ghost use Rattle.std.specs.Prelude.{◌≡◌, IsTrue, IfSome, IfOk, slice_range};
ghost use Rattle.relation_terms.specs.Trees.{known};
ghost use Rattle.relation_terms.specs.Meaning.{Extends, arg_tree};
ghost use Rattle.text_asking.specs.Args.{alike, same_arg};
ghost use Rattle.text_asking.specs.Puts.{first_put, IsMade, AreMade, ArePuts, IsFolded, tree_put, tree_of};

use crate::comparing::{alike, same_arg};
use relation_folds::fold::{Fold, TypeFoldable, TypeFolder};
use relation_terms::terms::{Const, GenericArg, GenericArgKind, Interner, OutOfMemory, Region, Ty};
use std::alloc::Global;
use text_reading::naming::{Parts, Put};
use text_terms::building::key_at;

// Puts terms for others that are equal to what it is asked about, the first that fits.
#[derive(Clone, Copy)]
struct Puts<'a, X> {
    puts: &'a [Put<GenericArgKind<X>>],
}

// What is put for a term, by its key.
fn first_put<X: Copy + PartialEq>(
    puts: &[Put<GenericArgKind<X>>],
    term: GenericArgKind<X>,
) -> Option<GenericArgKind<X>>
    ensures { result ≡ first_put (same_arg X.eq) puts.now term }
{
    for put in puts {
        if same_arg(put.from, term) {
            return Some(put.to);
        }
    }
    None
}

// What is put for a term that the interner knows.
fn put_for<I: Interner>(
    cx: &I,
    puts: &[Put<GenericArg<I>>],
    term: GenericArg<I>,
) -> Option<GenericArg<I>>
    requires puts { ArePuts (I.meaning cx.now) puts.now }
    requires known { IsTrue (known (arg_tree (I.meaning cx.now) term)) }
    ensures put { tree_put (I.meaning cx.now) puts.now (arg_tree (I.meaning cx.now) term) ≡
        tree_of (I.meaning cx.now) result }
    ensures sure { IfSome result (λ by. IsTrue (known (arg_tree (I.meaning cx.now) by))) }
    ensures alike { IfSome result (λ by. IsTrue (alike term by)) }
{
    first_put(puts, term)
}

impl<'a, I: Interner> TypeFolder<I> for Puts<'a, I::Key> {
    ghost use Rattle.text_asking.specs.Puts.{ArePuts, tree_put, puts_stay, put_stays};

    ghost ready = { λ m f. ArePuts m f.puts.now };

    ghost replaces = { λ m f d t. tree_put m f.puts.now t };

    #[tactic(auto, using(relation_terms::proofs::Stays::stays_same))]
    fn fold_ty(
        &mut self,
        cx: &mut I,
        ty: &Ty<I>,
        _depth: u128,
    ) -> Result<Fold<Ty<I>>, OutOfMemory> {
        match put_for(cx, self.puts, GenericArgKind::Ty(*ty)) {
            Some(GenericArgKind::Ty(by)) => Ok(Fold::Replace(by)),
            Some(GenericArgKind::Lifetime(_)) => Ok(Fold::Descend),
            Some(GenericArgKind::Const(_)) => Ok(Fold::Descend),
            None => Ok(Fold::Descend),
        }
    }

    #[tactic(auto, using(relation_terms::proofs::Stays::stays_same))]
    fn fold_region(
        &mut self,
        cx: &mut I,
        region: &Region<I>,
        _depth: u128,
    ) -> Result<Fold<Region<I>>, OutOfMemory> {
        match put_for(cx, self.puts, GenericArgKind::Lifetime(*region)) {
            Some(GenericArgKind::Lifetime(by)) => Ok(Fold::Replace(by)),
            Some(GenericArgKind::Ty(_)) => Ok(Fold::Descend),
            Some(GenericArgKind::Const(_)) => Ok(Fold::Descend),
            None => Ok(Fold::Descend),
        }
    }

    #[tactic(auto, using(relation_terms::proofs::Stays::stays_same))]
    fn fold_const(
        &mut self,
        cx: &mut I,
        constant: &Const<I>,
        _depth: u128,
    ) -> Result<Fold<Const<I>>, OutOfMemory> {
        match put_for(cx, self.puts, GenericArgKind::Const(*constant)) {
            Some(GenericArgKind::Const(by)) => Ok(Fold::Replace(by)),
            Some(GenericArgKind::Lifetime(_)) => Ok(Fold::Descend),
            Some(GenericArgKind::Ty(_)) => Ok(Fold::Descend),
            None => Ok(Fold::Descend),
        }
    }

    ghost ready_on = { λ m n e f h. puts_stay e f.puts.now h };

    ghost replaces_on = { λ m n e f h d t. put_stays e f.puts.now h t };
}

// The keys of what is put for what, by their numbers. There are none where one was not built, or both are not alike.
fn put_at<X: Copy>(
    built: &[Option<GenericArgKind<X>>],
    put: Put<usize>,
) -> Option<Put<GenericArgKind<X>>>
    ensures { IfSome result (IsMade built.now put) }
{
    let from = key_at(built, put.from)?;
    let to = key_at(built, put.to)?;
    if !alike(from, to) {
        return None;
    }
    Some(Put { from, to })
}

// The keys of what is put, those of a range of a program's list. There are none where memory for them is refused.
pub(super) fn puts_at<X: Copy>(
    alloc: Global,
    numbers: &[Put<usize>],
    built: &[Option<GenericArgKind<X>>],
    range: Parts,
) -> Option<Vec<Put<GenericArgKind<X>>>>
    ensures { IfSome result (λ puts. AreMade built.now (slice_range numbers.now range.first range.behind) puts.items) }
{
    let places = numbers.get(range.first..range.behind)?;
    let mut puts = Vec::new(alloc);
    for put in places {
        let put = put_at(built, *put)?;
        if puts.push(put).is_err() {
            return None;
        }
    }
    Some(puts)
}

// What comes of a term where others are put for its parts.
pub(super) fn fold<I: Interner>(
    cx: &mut I,
    term: &GenericArg<I>,
    puts: &[Put<GenericArg<I>>],
) -> Result<GenericArg<I>, OutOfMemory>
    requires puts { ArePuts (I.meaning cx.old) puts.now }
    requires known { IsTrue (known (arg_tree (I.meaning cx.old) term.now)) }
    ensures grown { Extends (I.meaning cx.old) (I.meaning cx.new) }
    ensures sure { IfOk result (λ key. IsTrue (known (arg_tree (I.meaning cx.new) key))) }
    ensures made { IfOk result (λ key. IsFolded (I.meaning cx.old) (I.meaning cx.new) puts.now term.now key) }
{
    term.fold_with(cx, &mut Puts { puts })
}
