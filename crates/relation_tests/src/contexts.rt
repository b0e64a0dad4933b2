//! What a context does, call by call, through the trait that it meets.
ghost use Rattle.std.specs.Prelude.{◌≡◌, [], IfOk};
ghost use Rattle.relation_terms.specs.Heads.{type_var, int_var, float_var, const_var, region_var};
ghost use Rattle.relation_terms.specs.Heads.{atom, char_type, slice};
ghost use Rattle.relation_terms.specs.Trees.{leaf, node, cons, nil};
ghost use Rattle.relation_terms.specs.Meaning.{region_tree};
ghost use Rattle.relation_semantics.specs.Contexts.{KnowsTy};
ghost use Rattle.relation_semantics.specs.ContextCalls.{IsUnresolved, Grows};
ghost use Rattle.variable_tables.specs.Tables.{IsLawful};

use reference_interner::RefInterner;
use relation_folds::error::RelateResult;
use relation_reference::context::RefCtxt;
use relation_semantics::infer_ctxt::{InferCtxtLike, TypingMode};
use relation_terms::predicate::OutlivesPredicate;
use relation_terms::terms::{
    ConstVid, FloatVid, IntVid, Interner, Keys, OutOfMemory, Region, RegionKind, RegionVid, Ty,
    TyKind, TyVid, UniverseIndex, Variance,
};
use std::test::Fail;
use type_relations::relate::StructurallyRelateAliases;

// The universe of a variable that is made in a new context.
const FIRST: Option<UniverseIndex> = Some(UniverseIndex(0));

// A name of a context's interner.
type NameOf<C> = <<C as InferCtxtLike>::Interner as Keys>::Name;

// The type `char`.
fn make_char<C: InferCtxtLike>(ctx: &mut C) -> Result<Ty<C::Interner>, OutOfMemory>
    requires { (C.state ctx.old).lawful }
    ensures grows { Grows (C.state ctx.old) (C.state ctx.new) }
    ensures store { (C.state ctx.new).store ≡ (C.state ctx.old).store }
    ensures is { IfOk result (λ k. ((C.state ctx.new).meaning).ty k ≡ leaf (atom char_type)) }
{
    ctx.lemma_interner_grows();
    ctx.cx_mut().mk_ty(TyKind::Char)
}

// Whether a new type variable is of the first universe and read as itself; and whether it has one root with another one
// as they were marked as related, which is its own root all the same.
fn has_new_tys<C: InferCtxtLike>(ctx: &mut C) -> Result<bool, OutOfMemory>
    requires lawful { (C.state ctx.old).lawful }
    requires none { ((C.state ctx.old).store).entries type_var ≡ [] }
{
    let ty = ctx.next_ty_infer()?;
    let universe = ctx.universe_of_ty(TyVid(0));
    let read = ctx.opportunistic_resolve_ty_var(TyVid(0));
    let _ = ctx.next_ty_infer()?;
    ctx.sub_unify_ty_vids_raw(TyVid(1), TyVid(0));
    let mark = ctx.sub_unification_table_root_var(TyVid(1));
    let apart = ctx.root_ty_var(TyVid(1)) == TyVid(1);
    Ok((universe == FIRST) & (read == ty) & (mark == TyVid(0)) & apart)
}

// Whether a new constant variable is its own root, of the first universe, and read as itself.
fn has_new_const<C: InferCtxtLike>(ctx: &mut C) -> Result<bool, OutOfMemory>
    requires lawful { (C.state ctx.old).lawful }
    requires none { ((C.state ctx.old).store).entries const_var ≡ [] }
{
    let constant = ctx.next_const_infer()?;
    let root = ctx.root_const_var(ConstVid(0));
    let universe = ctx.universe_of_ct(ConstVid(0));
    let read = ctx.opportunistic_resolve_ct_var(ConstVid(0));
    Ok((root == ConstVid(0)) & (universe == FIRST) & (read == constant))
}

// Whether a new region variable is of the first universe, and read as itself.
fn has_new_region<C: InferCtxtLike>(ctx: &mut C) -> Result<bool, OutOfMemory>
    requires lawful { (C.state ctx.old).lawful }
    requires none { ((C.state ctx.old).store).entries region_var ≡ [] }
{
    let region = ctx.next_region_infer()?;
    let universe = ctx.universe_of_lt(RegionVid(0));
    let read = ctx.opportunistic_resolve_lt_var(RegionVid(0));
    Ok((universe == FIRST) & (read == region))
}

// Whether new variables of these kinds are like that.
fn has_new_variables<I: Interner + Drop>(cx: I) -> Result<bool, OutOfMemory> {
    let mut ctx = RefCtxt::new(cx, TypingMode::Coherence, true, 0)?;
    let tys = has_new_tys(&mut ctx)?;
    let mut ctx = RefCtxt::new(ctx.interner, TypingMode::Coherence, true, 0)?;
    let constant = has_new_const(&mut ctx)?;
    let mut ctx = RefCtxt::new(ctx.interner, TypingMode::Coherence, true, 0)?;
    Ok(has_new_region(&mut ctx)? & tys & constant)
}

// What the first integer variable is read as.
fn reads_int<C: InferCtxtLike>(ctx: &C) -> Ty<C::Interner>
    requires lawful { (C.state ctx.now).lawful }
    requires made { IsUnresolved (C.state ctx.now) int_var 0 }
{
    ctx.opportunistic_resolve_int_var(IntVid(0))
}

// The same of the first float variable.
fn reads_float<C: InferCtxtLike>(ctx: &C) -> Ty<C::Interner>
    requires lawful { (C.state ctx.now).lawful }
    requires made { IsUnresolved (C.state ctx.now) float_var 0 }
{
    ctx.opportunistic_resolve_float_var(FloatVid(0))
}

// The slice of a type.
fn make_slice<C: InferCtxtLike>(
    ctx: &mut C,
    element: &Ty<C::Interner>,
) -> Result<Ty<C::Interner>, OutOfMemory>
    requires lawful { (C.state ctx.old).lawful }
    requires element_known { KnowsTy (C.state ctx.old) element.now }
    ensures grows { Grows (C.state ctx.old) (C.state ctx.new) }
    ensures store { (C.state ctx.new).store ≡ (C.state ctx.old).store }
    ensures sure { IfOk result (λ k. KnowsTy (C.state ctx.new) k) }
    ensures is { let t = ((C.state ctx.old).meaning).ty element.now in
        IfOk result (λ k. ((C.state ctx.new).meaning).ty k ≡ node slice (cons t nil)) }
{
    ctx.lemma_interner_grows();
    ctx.cx_mut().mk_ty(TyKind::Slice(*element))
}

// Whether the first integer variable is its own root.
fn first_int_is_root<I: Interner>(ctx: &RefCtxt<I>) -> bool
    requires { IsLawful (I.meaning ctx.now.interner) ctx.now.inner }
{
    if !ctx.inner.ints.has(0) {
        return false;
    }
    ctx.root_int_var(IntVid(0)) == IntVid(0)
}

// The same of the first float variable.
fn first_float_is_root<I: Interner>(ctx: &RefCtxt<I>) -> bool
    requires { IsLawful (I.meaning ctx.now.interner) ctx.now.inner }
{
    if !ctx.inner.floats.has(0) {
        return false;
    }
    ctx.root_float_var(FloatVid(0)) == FloatVid(0)
}

// Whether the first type variable is bound to a type, and the second to none.
fn first_alone_is_bound<I: Interner>(ctx: &RefCtxt<I>) -> bool
    requires { IsLawful (I.meaning ctx.now.interner) ctx.now.inner }
{
    if ctx.inner.types.len() < 2 {
        return false;
    }
    ctx.binding(TyVid(0)).is_some() && ctx.binding(TyVid(1)).is_none()
}

// Binds the first of two new type variables to the slice of the other, in which a further one takes its place.
fn binds_slice<C: InferCtxtLike>(ctx: &mut C) -> RelateResult<C::Interner, ()>
    requires lawful { (C.state ctx.old).lawful }
    requires none { ((C.state ctx.old).store).entries type_var ≡ [] }
    ensures { (C.state ctx.new).lawful }
{
    let _ = ctx.next_ty_infer()?;
    let element = ctx.next_ty_infer()?;
    let source = make_slice(ctx, &element)?;
    let aliases = StructurallyRelateAliases::No;
    let _ = ctx.instantiate_ty_var_raw(aliases, TyVid(0), Variance::Covariant, &source)?;
    Ok(())
}

// Whether a new integer variable is read as itself and its own root, and a float variable is, in the mode of bodies
// whose regions are erased.
fn has_number_variables<I: Interner + Drop>(cx: I) -> Result<bool, OutOfMemory> {
    let mut ctx = RefCtxt::new(cx, TypingMode::ErasedNotCoherence, true, 0)?;
    let int = ctx.next_int_var()?;
    let same = (reads_int(&ctx) == int) & first_int_is_root(&ctx);
    let mode = ctx.typing_mode_raw();
    let erased = mode.is_erased_not_coherence() & !mode.is_coherence();
    let mut ctx = RefCtxt::new(ctx.interner, TypingMode::Coherence, true, 0)?;
    let float = ctx.next_float_var()?;
    Ok(same & erased & (reads_float(&ctx) == float) & first_float_is_root(&ctx))
}

// Whether a type variable is marked as related, with this root.
fn is_marked<I: Interner>(ctx: &RefCtxt<I>, number: usize, root: usize) -> bool {
    number < ctx.inner.sub_roots.len() && ctx.inner.sub_roots.root(number) == root
}

// Whether the variable that takes the place of the second type variable is marked as related to it, and to no other, for
// one of the budget; and the first one alone is bound.
fn marks_the_new_one<I: Interner + Drop>(cx: I) -> RelateResult<I, bool> {
    let mut ctx = RefCtxt::new(cx, TypingMode::Coherence, true, 0)?;
    ctx.set_budget(2);
    binds_slice(&mut ctx)?;
    let mut fine = first_alone_is_bound(&ctx) & (ctx.budget_left() == 1);
    fine &= ctx.inner.types.len() == 3;
    fine &= is_marked(&ctx, 0, 0);
    Ok(fine & is_marked(&ctx, 2, 1))
}

// The region of a form.
fn make_region<C: InferCtxtLike>(
    ctx: &mut C,
    kind: RegionKind<NameOf<C>>,
) -> Result<Region<C::Interner>, OutOfMemory>
    requires { (C.state ctx.old).lawful }
    ensures grows { Grows (C.state ctx.old) (C.state ctx.new) }
    ensures store { (C.state ctx.new).store ≡ (C.state ctx.old).store }
    ensures is { let m = (C.state ctx.old).meaning in
        IfOk result (λ k. ((C.state ctx.new).meaning).region k ≡ region_tree m kind) }
{
    ctx.lemma_interner_grows();
    ctx.cx_mut().mk_region(kind)
}

// A type and a region, of which it was registered that the one is to outlive the other.
fn registers_outlives<C: InferCtxtLike>(
    ctx: &mut C,
) -> Result<(Ty<C::Interner>, Region<C::Interner>), OutOfMemory>
    requires { (C.state ctx.old).lawful }
{
    let ty = make_char(ctx)?;
    let region = make_region(ctx, RegionKind::ReStatic)?;
    let span = ctx.cx().dummy_span();
    ctx.register_ty_outlives(&ty, &region, span)?;
    Ok((ty, region))
}

// Whether that is what the context has then.
fn has_registered<I: Interner + Drop>(cx: I) -> Result<bool, OutOfMemory> {
    let mut ctx = RefCtxt::new(cx, TypingMode::Coherence, true, 0)?;
    let (ty, region) = registers_outlives(&mut ctx)?;
    let registered = ctx.ty_outlives();
    Ok((registered.len() == 1) & registered.contains(&OutlivesPredicate(ty, region)))
}

#[test]
fn contexts_do_what_is_asked(rt: HostRuntime) -> Result<(), Fail> {
    let alloc = rt.alloc();
    assert!(rt;
        has_new_variables(RefInterner::new(alloc)) == Ok(true),
        "variables"
    );
    assert!(rt;
        has_number_variables(RefInterner::new(alloc)) == Ok(true),
        "numbers"
    );
    assert!(rt;
        marks_the_new_one(RefInterner::new(alloc)) == Ok(true),
        "marks"
    );
    assert!(rt;
        has_registered(RefInterner::new(alloc)) == Ok(true),
        "outlives"
    );
    Ok(())
}
