//! Comparing trait references and alias terms.
ghost use Rattle.std.specs.Prelude.{◌≡◌, IsTrue, OnOk, IfErr};
ghost use Rattle.relation_terms.specs.Trees.{known};
ghost use Rattle.relation_terms.specs.Predicates.{alias_term_kind, alias_term_tree, trait_ref_tree};
ghost use Rattle.relation_recursion.specs.Comparing.{AliasTermsDiffer, AreOfOneAliasTerm, AreOfOneTraitRef};
ghost use Rattle.relation_recursion.specs.Comparing.{TraitRefsDiffer, is_opaque_kind};

use relation_folds::error::{ExpectedFound, TypeError, TypeErrorOf};
use relation_terms::predicate::{AliasTerm, AliasTermKind, TraitRef};
use relation_terms::terms::Interner;

/// Answers `Ok` where two trait references are of one trait, with as many arguments, which are not compared.
///
/// The interner has to know both; it is only read. Answers `Traits` for two traits that differ, and `Mismatch` for unlike
/// numbers of arguments. Upstream the first of these stands in their `relate`.
pub fn compare_trait_refs<I: Interner>(
    cx: &I,
    a: &TraitRef<I::Key, I::Id>,
    b: &TraitRef<I::Key, I::Id>,
) -> Result<(), TypeErrorOf<I>>
    requires a_known { IsTrue (known (trait_ref_tree (I.meaning cx.now) a.now)) }
    requires b_known { IsTrue (known (trait_ref_tree (I.meaning cx.now) b.now)) }
    ensures alike { OnOk result (AreOfOneTraitRef (I.meaning cx.now) a.now b.now) }
    ensures errors { IfErr result (TraitRefsDiffer (I.meaning cx.now) a.now b.now) }
{
    if a.def_id.0 != b.def_id.0 {
        return Err(TypeError::Traits(ExpectedFound::new(a.def_id, b.def_id)));
    }
    if cx.args(&a.args).len() != cx.args(&b.args).len() {
        return Err(TypeError::Mismatch);
    }
    Ok(())
}

/// Answers `Ok` where two alias terms are of one item, both of an opaque type or neither, with as many arguments, which
/// are not compared.
///
/// The interner has to know both; it is only read. Answers `ProjectionMismatched` for two items that differ, and where one
/// alone is called an opaque type, and `Mismatch` for unlike numbers of arguments. Upstream the first of these stands in
/// their `relate`.
pub fn compare_alias_terms<I: Interner>(
    cx: &I,
    a: &AliasTerm<I::Key, I::Id>,
    b: &AliasTerm<I::Key, I::Id>,
) -> Result<(), TypeErrorOf<I>>
    requires a_known { IsTrue (known (alias_term_tree (I.meaning cx.now) a.now)) }
    requires b_known { IsTrue (known (alias_term_tree (I.meaning cx.now) b.now)) }
    ensures alike { OnOk result (AreOfOneAliasTerm (I.meaning cx.now) a.now b.now) }
    ensures errors { IfErr result (AliasTermsDiffer (I.meaning cx.now) a.now b.now) }
{
    let left = a.def_id();
    let right = b.def_id();
    if left.0 != right.0 {
        return Err(TypeError::ProjectionMismatched(ExpectedFound::new(left.0, right.0)));
    }
    if is_opaque(&a.kind) != is_opaque(&b.kind) {
        return Err(TypeError::ProjectionMismatched(ExpectedFound::new(left.0, right.0)));
    }
    if cx.args(&a.args).len() != cx.args(&b.args).len() {
        return Err(TypeError::Mismatch);
    }
    Ok(())
}

// Whether an alias is called an opaque type.
fn is_opaque<D>(kind: &AliasTermKind<D>) -> bool
    ensures { result ≡ is_opaque_kind (alias_term_kind kind.now) }
{
    matches!(kind, AliasTermKind::OpaqueTy { .. })
}
