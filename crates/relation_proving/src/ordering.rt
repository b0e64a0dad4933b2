//! Which goals of a list are asked last.
ghost use Rattle.std.specs.Prelude.{◌↔◌, IsTrue};
ghost use Rattle.relation_terms.specs.Meaning.{arg_tree};
ghost use Rattle.relation_terms.specs.Trees.{known};
ghost use Rattle.relation_semantics.specs.Stores.{IsTermIn};
ghost use Rattle.relation_proving.specs.Candidates.{MayAsk};
ghost use Rattle.relation_proving.specs.Ordering.{ComesToVariable, IsOfVariable};

use crate::reading::{args_of, clause_body};
use relation_semantics::infer_ctxt::InferCtxtLike;
use relation_semantics::variable_forms::ty_vid;
use relation_terms::terms::{Clause, GenericArg, GenericArgKind, Interner};

// Whether an argument is a type that comes to a variable.
fn is_open<C: InferCtxtLike>(ctx: &C, arg: &GenericArg<C::Interner>) -> bool
    requires lawful { (C.state ctx.now).lawful }
    requires arg_known { IsTrue (known (arg_tree (C.state ctx.now).meaning arg.now)) }
    requires arg_in { IsTermIn (C.state ctx.now).store (arg_tree (C.state ctx.now).meaning arg.now) }
    ensures { let c = C.state ctx.now in IsTrue result ↔ ComesToVariable c (arg_tree c.meaning arg.now) }
{
    let cx = ctx.cx();
    match arg {
        GenericArgKind::Ty(ty) => {
            let read = ctx.shallow_resolve(ty);
            ty_vid(&cx.ty_kind(&read)).is_some()
        }
        GenericArgKind::Const(_) | GenericArgKind::Lifetime(_) => false,
    }
}

/// Whether a goal says something of a variable, once it is read by what is recorded: its first argument is one. Little is
/// told of such before another goal binds it.
pub(crate) fn is_of_variable<C: InferCtxtLike>(ctx: &C, goal: &Clause<C::Interner>) -> bool
    requires lawful { (C.state ctx.now).lawful }
    requires goal { MayAsk (C.state ctx.now) goal.now }
    ensures { IsTrue result ↔ IsOfVariable (C.state ctx.now) goal.now }
{
    let cx = ctx.cx();
    let Some(body) = clause_body(cx, goal) else {
        return false;
    };
    let Some(args) = args_of(&body) else {
        return false;
    };
    let list = cx.args(&args);
    !list.is_empty() && is_open(ctx, &list[0])
}
