//! Lists of arguments, made of others.
ghost use Rattle.std.specs.Prelude.{◌≡◌, IsTrue, IfOk, OnErr};
ghost use Rattle.relation_terms.specs.Trees.{known, list_tree, cons, nth};
ghost use Rattle.relation_terms.specs.Meaning.{Extends, arg_tree};
ghost use Rattle.relation_terms.specs.Edits.{first_of, behind_first, put_before, with_first, HasSelf};

use crate::terms::{GenericArg, GenericArgKind, GenericArgs, Interner, OutOfMemory, Ty};

// The first argument, the type that a list of arguments begins with.
pub(super) fn self_of<I: Interner>(cx: &I, args: &GenericArgs<I>) -> Ty<I>
    requires args_known { IsTrue (known ((I.meaning cx.now).args args.now)) }
    requires has_self { HasSelf ((I.meaning cx.now).args args.now) }
    ensures sure { IsTrue (known ((I.meaning cx.now).ty result)) }
    ensures means { (I.meaning cx.now).ty result ≡ nth 0 ((I.meaning cx.now).args args.now) }
{
    match &cx.args(args)[0] {
        GenericArgKind::Ty(ty) => *ty,
        GenericArgKind::Lifetime(_) | GenericArgKind::Const(_) => unreachable!(),
    }
}

// A copy of the first arguments of a list, which are so many, or all that there are.
pub(super) fn first_copied<I: Interner>(
    cx: &I,
    args: &GenericArgs<I>,
    count: usize,
) -> Result<Vec<GenericArg<I>>, OutOfMemory>
    requires { IsTrue (known ((I.meaning cx.now).args args.now)) }
    ensures { IfOk result (λ it.
        list_tree (arg_tree (I.meaning cx.now)) it.items ≡ first_of count ((I.meaning cx.now).args args.now)) }
{
    let list = cx.args(args);
    let mut kept = Vec::new(cx.alloc());
    if count < list.len() {
        kept.extend_from_slice(&list[..count])?;
    } else {
        kept.extend_from_slice(list)?;
    }
    Ok(kept)
}

// The given arguments, and behind them those that stand behind the first ones of a list.
fn joined<I: Interner>(
    cx: &I,
    given: Vec<GenericArg<I>>,
    args: &GenericArgs<I>,
    skipped: usize,
) -> Result<Vec<GenericArg<I>>, OutOfMemory>
    requires { IsTrue (known ((I.meaning cx.now).args args.now)) }
    ensures { IfOk result (λ it. list_tree (arg_tree (I.meaning cx.now)) it.items ≡
        put_before (list_tree (arg_tree (I.meaning cx.now)) given.items)
        (behind_first skipped ((I.meaning cx.now).args args.now))) }
{
    let list = cx.args(args);
    let mut whole = given;
    if skipped < list.len() {
        whole.extend_from_slice(&list[skipped..])?;
    }
    Ok(whole)
}

// The list of the first arguments of another.
pub(super) fn first_args<I: Interner>(
    cx: &mut I,
    args: &GenericArgs<I>,
    count: usize,
) -> Result<GenericArgs<I>, OutOfMemory>
    requires { IsTrue (known ((I.meaning cx.old).args args.now)) }
    ensures grown { Extends (I.meaning cx.old) (I.meaning cx.new) }
    ensures sure { IfOk result (λ k. IsTrue (known ((I.meaning cx.new).args k))) }
    ensures made { IfOk result (λ k. (I.meaning cx.new).args k ≡ first_of count ((I.meaning cx.old).args args.now)) }
    ensures refused { OnErr result (I.meaning cx.new ≡ I.meaning cx.old) }
{
    let list = first_copied(cx, args, count)?;
    cx.mk_args(&list)
}

// The list of the given arguments, then those that stand behind the first ones of another list.
pub(super) fn join_args<I: Interner>(
    cx: &mut I,
    given: Vec<GenericArg<I>>,
    args: &GenericArgs<I>,
    skipped: usize,
) -> Result<GenericArgs<I>, OutOfMemory>
    requires given_known { IsTrue (known (list_tree (arg_tree (I.meaning cx.old)) given.items)) }
    requires args_known { IsTrue (known ((I.meaning cx.old).args args.now)) }
    ensures grown { Extends (I.meaning cx.old) (I.meaning cx.new) }
    ensures sure { IfOk result (λ k. IsTrue (known ((I.meaning cx.new).args k))) }
    ensures made { IfOk result (λ k. (I.meaning cx.new).args k ≡
        put_before (list_tree (arg_tree (I.meaning cx.old)) given.items)
        (behind_first skipped ((I.meaning cx.old).args args.now))) }
    ensures refused { OnErr result (I.meaning cx.new ≡ I.meaning cx.old) }
{
    let list = joined(cx, given, args, skipped)?;
    cx.mk_args(&list)
}

// The list of what stands behind the first arguments of another.
pub(super) fn args_behind<I: Interner>(
    cx: &mut I,
    args: &GenericArgs<I>,
    count: usize,
) -> Result<GenericArgs<I>, OutOfMemory>
    requires { IsTrue (known ((I.meaning cx.old).args args.now)) }
    ensures grown { Extends (I.meaning cx.old) (I.meaning cx.new) }
    ensures sure { IfOk result (λ k. IsTrue (known ((I.meaning cx.new).args k))) }
    ensures made { IfOk result (λ k.
        (I.meaning cx.new).args k ≡ behind_first count ((I.meaning cx.old).args args.now)) }
    ensures refused { OnErr result (I.meaning cx.new ≡ I.meaning cx.old) }
{
    let none = Vec::new(cx.alloc());
    join_args(cx, none, args, count)
}

// The list of a type, then the arguments of another list.
pub(super) fn args_after_self<I: Interner>(
    cx: &mut I,
    self_ty: Ty<I>,
    args: &GenericArgs<I>,
) -> Result<GenericArgs<I>, OutOfMemory>
    requires self_known { IsTrue (known ((I.meaning cx.old).ty self_ty)) }
    requires args_known { IsTrue (known ((I.meaning cx.old).args args.now)) }
    ensures grown { Extends (I.meaning cx.old) (I.meaning cx.new) }
    ensures sure { IfOk result (λ k. IsTrue (known ((I.meaning cx.new).args k))) }
    ensures made { IfOk result (λ k. (I.meaning cx.new).args k ≡
        cons ((I.meaning cx.old).ty self_ty) ((I.meaning cx.old).args args.now)) }
    ensures refused { OnErr result (I.meaning cx.new ≡ I.meaning cx.old) }
{
    let mut given = Vec::new(cx.alloc());
    given.push(GenericArgKind::Ty(self_ty))?;
    join_args(cx, given, args, 0)
}

// The list with a type in place of its first argument.
pub(super) fn args_with_self<I: Interner>(
    cx: &mut I,
    args: &GenericArgs<I>,
    self_ty: Ty<I>,
) -> Result<GenericArgs<I>, OutOfMemory>
    requires self_known { IsTrue (known ((I.meaning cx.old).ty self_ty)) }
    requires args_known { IsTrue (known ((I.meaning cx.old).args args.now)) }
    ensures grown { Extends (I.meaning cx.old) (I.meaning cx.new) }
    ensures sure { IfOk result (λ k. IsTrue (known ((I.meaning cx.new).args k))) }
    ensures made { IfOk result (λ k. (I.meaning cx.new).args k ≡
        with_first ((I.meaning cx.old).ty self_ty) ((I.meaning cx.old).args args.now)) }
    ensures refused { OnErr result (I.meaning cx.new ≡ I.meaning cx.old) }
{
    let mut given = Vec::new(cx.alloc());
    given.push(GenericArgKind::Ty(self_ty))?;
    join_args(cx, given, args, 1)
}
