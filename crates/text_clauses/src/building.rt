//! Predicates of a program become clauses, through an interner's making calls.
ghost use Rattle.std.specs.Prelude.{◌≡◌, IsTrue, IfSome, slice_range};
ghost use Rattle.std.specs.List.{All};
ghost use Rattle.relation_terms.specs.Trees.{known};
ghost use Rattle.relation_terms.specs.Meaning.{Extends};
ghost use Rattle.relation_terms.specs.Owned.{bound_tree};
ghost use Rattle.text_terms.specs.Built.{AreKnown};
ghost use Rattle.text_clauses.specs.Made.{MakesClause, MakesBound, MakesEach};

mod kinds;
mod making;

use kinds::{make_implemented, make_kind};
use making::make_clause;
use relation_terms::predicate::TraitRef;
use relation_terms::terms::{Binder, Clause, GenericArg, Interner};
use text_reading::naming::{Clause as Said, Parts};
use text_terms::building::variables_at;

/// The clause of a predicate of a program, over ids of its items, names, the numbers of its parts and the keys of its
/// terms. The interner has to know each key that is there.
///
/// There is none where a growth was refused, or there is no key of a part. What was known keeps its meaning, also
/// then.
pub fn build_clause<I: Interner>(
    cx: &mut I,
    ids: &[I::Id],
    names: &[I::Name],
    numbers: &[usize],
    built: &[Option<GenericArg<I>>],
    clause: &Said,
) -> Option<Clause<I>>
    requires { AreKnown (I.meaning cx.old) built.now }
    ensures grown { Extends (I.meaning cx.old) (I.meaning cx.new) }
    ensures sure { IfSome result (λ k. IsTrue (known ((I.meaning cx.new).clause k))) }
    ensures made { MakesClause I.meaning cx.old cx.new ids.now names.now numbers.now built.now clause.now result }
{
    let variables = variables_at(&*cx, numbers, built, clause.variables)?;
    let value = make_kind(cx, ids, names, numbers, built, clause.says)?;
    make_clause(cx, &variables, value)
}

/// The trait reference, under its binder, of a predicate that claims that a trait is implemented, over ids of a
/// program's items, the numbers of its parts and the keys of its terms. The interner has to know each key that is
/// there.
///
/// There is none where the predicate claims something else, where a growth was refused, or where there is no key of a
/// part. What was known keeps its meaning, also then.
pub fn build_bound<I: Interner>(
    cx: &mut I,
    ids: &[I::Id],
    numbers: &[usize],
    built: &[Option<GenericArg<I>>],
    clause: &Said,
) -> Option<Binder<I::Key, TraitRef<I::Key, I::Id>>>
    requires { AreKnown (I.meaning cx.old) built.now }
    ensures grown { Extends (I.meaning cx.old) (I.meaning cx.new) }
    ensures sure { IfSome result (λ b. IsTrue (known (bound_tree (I.meaning cx.new) b))) }
    ensures made { MakesBound I.meaning cx.old cx.new ids.now numbers.now built.now clause.now result }
{
    let variables = variables_at(&*cx, numbers, built, clause.variables)?;
    let value = make_implemented(cx, ids, numbers, built, clause.says)?;
    let Ok(bound_vars) = cx.mk_bound_vars(&variables) else {
        return None;
    };
    Some(Binder { value, bound_vars })
}

// The predicates of a range.
fn clauses_at(clauses: &[Said], range: Parts) -> Option<&[Said]>
    ensures { IfSome result (λ said. said.now ≡ slice_range clauses.now range.first range.behind) }
{
    clauses.get(range.first..range.behind)
}

/// The clauses of a range of a program's predicates, over ids of its items, names, the numbers of its parts and the
/// keys of its terms. The interner has to know each key that is there.
///
/// There are none where there is no such range, where memory or a growth was refused, or where there is no key of a
/// part. What was known keeps its meaning, also then.
pub fn build_clauses<I: Interner>(
    cx: &mut I,
    ids: &[I::Id],
    names: &[I::Name],
    numbers: &[usize],
    built: &[Option<GenericArg<I>>],
    clauses: &[Said],
    range: Parts,
) -> Option<Vec<Clause<I>>>
    requires { AreKnown (I.meaning cx.old) built.now }
    ensures grown { Extends (I.meaning cx.old) (I.meaning cx.new) }
    ensures sure { IfSome result (λ ks. All (λ k. IsTrue (known ((I.meaning cx.new).clause k))) ks.items) }
    ensures made { MakesEach I.meaning cx.old cx.new ids.now names.now numbers.now built.now clauses.now range result }
{
    let said = clauses_at(clauses, range)?;
    let mut made = Vec::new(cx.alloc());
    for clause in said {
        let next = build_clause(cx, ids, names, numbers, built, clause)?;
        if made.push(next).is_err() {
            return None;
        }
    }
    Some(made)
}
