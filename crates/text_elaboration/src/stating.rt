//! What the traits of a program state, in the reference interner.
ghost use Rattle.std.specs.Prelude.{◌≡◌, ◌&&◌, IsTrue, IfOk, IfSome, None, nat_eq, slice_range};
ghost use Rattle.std.specs.List.{All, list_any};
ghost use Rattle.relation_terms.specs.Trees.{known};
ghost use Rattle.relation_terms.specs.Meaning.{Extends};
ghost use Rattle.relation_terms.specs.Owned.{IsOwn, IsStated, IsStatedBound};
ghost use Rattle.reference_interner.specs.Adding.{meaning_in, SameTerms};
ghost use Rattle.reference_interner.specs.Items.{clauses_in};
ghost use Rattle.text_terms.specs.Built.{AreKnown};
ghost use Rattle.text_clauses.specs.Made.{MakesBound};
ghost use Rattle.text_elaboration.specs.Stating.{is_super, is_implied, is_const, implies, where_said, Puts};
ghost use Rattle.text_elaboration.specs.Stating.{TermsStay, MakesBounds, StatesBounds, KeepsStatements};
ghost use Rattle.text_elaboration.specs.Stating.{StatesOne, StatesAll};

use reference_interner::{ItemId, NoSpan, NodeKey, RefInterner, SymbolId};
use relation_folds::visit::has_escaping_bound_vars;
use relation_terms::predicate::{TraitRef, clause_of_trait_ref};
use relation_terms::terms::{
    Binder, Clause, ClauseKey, GenericArg, Interner, OutOfMemory, TraitId,
};
use relation_tools::anonymize::binds_within;
use text_clauses::building::{build_bound, build_clauses};
use text_reading::naming::{Clause as Said, Parts, Program, Stated};
use text_reading::reading::StatedKind;
use text_terms::building::{build, name_at};

// Clauses with their places.
type Placed = Vec<(ClauseKey<NodeKey>, NoSpan)>;

// A const bound.
type Bound = Binder<NodeKey, TraitRef<NodeKey, ItemId>>;

// Whether a clause binds its variables itself, each at a place of its binder's list.
#[tactic(auto, using(crate::proofs::StatedLemmas::own_if))]
fn is_own(cx: &RefInterner, clause: &Clause<RefInterner>) -> Result<bool, OutOfMemory>
    requires { IsTrue (known ((meaning_in cx.now).clause clause.now)) }
    ensures { IfOk result (λ b. IsTrue b → IsOwn ((meaning_in cx.now).clause clause.now)) }
{
    let predicate = cx.clause_as_predicate(clause);
    let within = binds_within(cx, &predicate)?;
    Ok(within && !has_escaping_bound_vars(cx, clause))
}

// Clauses with their places, if each binds its variables itself.
fn placed(cx: &RefInterner, clauses: &[Clause<RefInterner>]) -> Result<Option<Placed>, OutOfMemory>
    requires { All (λ k. IsTrue (known ((meaning_in cx.now).clause k))) clauses.now }
    ensures sure { IfOk result (λ o. IfSome o (λ all. All (IsStated (meaning_in cx.now)) (clauses_in all))) }
    ensures same { IfOk result (λ o. IfSome o (λ all. clauses_in all ≡ clauses.now)) }
{
    let mut all = Vec::new(cx.alloc());
    for clause in clauses {
        if !is_own(cx, clause)? {
            return Ok(None);
        }
        all.push((*clause, NoSpan))?;
    }
    Ok(Some(all))
}

// What a statement says.
fn is_super(kind: StatedKind) -> bool
    ensures { result ≡ is_super kind }
{
    match kind {
        StatedKind::Super => true,
        StatedKind::Implied | StatedKind::Const => false,
    }
}

fn is_implied(kind: StatedKind) -> bool
    ensures { result ≡ is_implied kind }
{
    match kind {
        StatedKind::Implied => true,
        StatedKind::Super | StatedKind::Const => false,
    }
}

fn is_const(kind: StatedKind) -> bool
    ensures { result ≡ is_const kind }
{
    match kind {
        StatedKind::Const => true,
        StatedKind::Super | StatedKind::Implied => false,
    }
}

fn says_what_is_implied(stated: &Stated, of: usize) -> bool
    ensures { result ≡ nat_eq (stated.now).of of && is_implied (stated.now).kind }
{
    stated.of == of && is_implied(stated.kind)
}

// Whether a program says of a trait itself what it implies.
#[tactic(auto, using(crate::proofs::PutLemmas::none_more, crate::proofs::PutLemmas::one_passes))]
fn says_implied(program: &Program, of: usize) -> bool
    ensures { result ≡ list_any (λ t. nat_eq t.of of && is_implied t.kind) (program.now).stated.items }
{
    for stated in &program.stated {
        if says_what_is_implied(stated, of) {
            return true;
        }
    }
    false
}

// Whether a statement says what its trait implies: as just that, or as super-predicates where the program says no more.
fn implies(program: &Program, stated: &Stated) -> bool
    ensures { result ≡ implies (program.now).stated.items stated.now }
{
    is_implied(stated.kind) || is_super(stated.kind) && !says_implied(program, stated.of)
}

// Lets a trait have these super-predicates, if that is said; and imply these predicates.
fn set_supers(cx: &mut RefInterner, id: ItemId, clauses: Placed, is_said: bool)
    requires { All (IsStated (meaning_in cx.old)) (clauses_in clauses) }
    ensures terms { SameTerms (meaning_in cx.old) (meaning_in cx.new) }
    ensures puts { Puts cx.old cx.new id.0 (where_said is_said (clauses_in clauses)) None None }
{
    if !is_said {
        return;
    }
    cx.set_super_predicates(TraitId(id), clauses);
}

fn set_implied(cx: &mut RefInterner, id: ItemId, clauses: Placed, is_said: bool)
    requires { All (IsStated (meaning_in cx.old)) (clauses_in clauses) }
    ensures terms { SameTerms (meaning_in cx.old) (meaning_in cx.new) }
    ensures puts { Puts cx.old cx.new id.0 None (where_said is_said (clauses_in clauses)) None }
{
    if !is_said {
        return;
    }
    cx.set_implied_predicates(TraitId(id), clauses);
}

// Lets a trait state predicates: as its super-predicates, or as what it implies, which its super-predicates are too
// where nothing else is said of that. Answers whether each binds its variables itself; else nothing is stated.
fn state_predicates(
    cx: &mut RefInterner,
    id: ItemId,
    clauses: &[Clause<RefInterner>],
    supers: bool,
    implied: bool,
) -> Result<bool, OutOfMemory>
    requires { All (λ k. IsTrue (known ((meaning_in cx.old).clause k))) clauses.now }
    ensures terms { SameTerms (meaning_in cx.old) (meaning_in cx.new) }
    ensures puts { IfOk result (λ own. IsTrue own →
        Puts cx.old cx.new id.0 (where_said supers clauses.now) (where_said implied clauses.now) None) }
{
    let Some(first) = placed(cx, clauses)? else {
        return Ok(false);
    };
    let Some(second) = placed(cx, clauses)? else {
        return Ok(false);
    };
    set_supers(cx, id, first, supers);
    set_implied(cx, id, second, implied);
    Ok(true)
}

// The const bound that a predicate of a program says, if it binds its variables itself.
fn own_bound(
    cx: &mut RefInterner,
    ids: &[ItemId],
    parts: &[usize],
    built: &[Option<GenericArg<RefInterner>>],
    said: &Said,
) -> Result<Option<Bound>, OutOfMemory>
    requires { AreKnown (meaning_in cx.old) built.now }
    ensures grown { Extends (meaning_in cx.old) (meaning_in cx.new) }
    ensures sure { IfOk result (λ o. IfSome o (IsStatedBound (meaning_in cx.new))) }
    ensures made { IfOk result (MakesBound meaning_in cx.old cx.new ids.now parts.now built.now said.now) }
{
    let Some(bound) = build_bound(cx, ids, parts, built, said) else {
        return Err(OutOfMemory);
    };
    let clause = clause_of_trait_ref(cx, bound)?;
    if !is_own(cx, &clause)? {
        return Ok(None);
    }
    Ok(Some(bound))
}

// The const bounds that predicates of a program say, if each binds its variables itself.
fn bounds_of(
    cx: &mut RefInterner,
    ids: &[ItemId],
    parts: &[usize],
    built: &[Option<GenericArg<RefInterner>>],
    said: &[Said],
) -> Result<Option<Vec<Bound>>, OutOfMemory>
    requires { AreKnown (meaning_in cx.old) built.now }
    ensures grown { Extends (meaning_in cx.old) (meaning_in cx.new) }
    ensures sure { IfOk result (λ o. IfSome o (λ all. All (IsStatedBound (meaning_in cx.new)) all.items)) }
    ensures made { IfOk result (MakesBounds ids.now parts.now built.now said.now cx.old cx.new) }
{
    let mut bounds = Vec::new(cx.alloc());
    for one in said {
        let Some(bound) = own_bound(cx, ids, parts, built, one)? else {
            return Ok(None);
        };
        bounds.push(bound)?;
    }
    Ok(Some(bounds))
}

// Lets a trait have the const bounds that predicates say. Answers whether each binds its variables itself; else the
// trait has what it had.
fn state_bounds(
    cx: &mut RefInterner,
    ids: &[ItemId],
    parts: &[usize],
    built: &[Option<GenericArg<RefInterner>>],
    said: &[Said],
    id: ItemId,
) -> Result<bool, OutOfMemory>
    requires { AreKnown (meaning_in cx.old) built.now }
    ensures stays { TermsStay (meaning_in cx.old) (meaning_in cx.new) }
    ensures stated { IfOk result (λ own. IsTrue own →
        StatesBounds ids.now parts.now built.now said.now id.0 cx.old cx.new) }
{
    let Some(bounds) = bounds_of(cx, ids, parts, built, said)? else {
        return Ok(false);
    };
    cx.set_const_bounds(TraitId(id), bounds);
    Ok(true)
}

// The predicates of a range.
fn said_at(clauses: &[Said], range: Parts) -> Option<&[Said]>
    ensures { IfSome result (λ said. said.now ≡ slice_range clauses.now range.first range.behind) }
{
    clauses.get(range.first..range.behind)
}

// Lets a trait state what a statement says. Answers whether each of its predicates binds its variables itself; else
// nothing is stated.
fn state(
    cx: &mut RefInterner,
    ids: &[ItemId],
    names: &[SymbolId],
    program: &Program,
    built: &[Option<GenericArg<RefInterner>>],
    stated: &Stated,
) -> Result<bool, OutOfMemory>
    requires { AreKnown (meaning_in cx.old) built.now }
    ensures stays { TermsStay (meaning_in cx.old) (meaning_in cx.new) }
    ensures stated { IfOk result (λ own. IsTrue own →
        StatesOne ids.now names.now program.now built.now stated.now cx.old cx.new) }
{
    let Some(id) = name_at(ids, stated.of) else {
        return Ok(true);
    };
    if is_const(stated.kind) {
        let Some(said) = said_at(&program.clauses, stated.clauses) else {
            return Err(OutOfMemory);
        };
        return state_bounds(cx, ids, &program.parts, built, said, id);
    }
    let clauses = &program.clauses;
    let range = stated.clauses;
    let Some(made) = build_clauses(cx, ids, names, &program.parts, built, clauses, range) else {
        return Err(OutOfMemory);
    };
    let supers = is_super(stated.kind);
    let implied = implies(program, stated);
    state_predicates(cx, id, &made, supers, implied)
}

// Lets the trait of a number be what the language knows as `Sized`.
#[tactic(auto, using(crate::proofs::SaidLemmas::stay_none, crate::proofs::PutLemmas::keeps_none))]
fn set_sized_at(cx: &mut RefInterner, ids: &[ItemId], of: usize)
    ensures stays { TermsStay (meaning_in cx.old) (meaning_in cx.new) }
    ensures keeps { KeepsStatements cx.old cx.new }
{
    let Some(id) = name_at(ids, of) else {
        return;
    };
    cx.set_sized(TraitId(id));
}

// The same of the traits that a program says to be that.
fn set_all_sized(cx: &mut RefInterner, ids: &[ItemId], program: &Program)
    ensures stays { TermsStay (meaning_in cx.old) (meaning_in cx.new) }
    ensures keeps { KeepsStatements cx.old cx.new }
{
    for of in &program.sized {
        set_sized_at(cx, ids, *of);
    }
}

/// Lets the traits of a program state what it says. Answers whether each predicate binds its variables itself: then
/// each trait has the super-predicates that the last statement of it says, and so what it implies and its const bounds.
/// Else nothing is stated by a statement of which one does not.
///
/// # Errors
/// `OutOfMemory` where a growth was refused. What was stated before stands.
pub fn state_all(
    cx: &mut RefInterner,
    ids: &[ItemId],
    names: &[SymbolId],
    program: &Program,
) -> Result<bool, OutOfMemory>
    ensures stated { IfOk result (λ own. IsTrue own → StatesAll ids.now names.now program.now cx.old cx.new) }
{
    set_all_sized(cx, ids, program);
    if program.stated.is_empty() {
        return Ok(true);
    }
    let built = build(cx, ids, names, program)?;
    let mut own = true;
    for stated in &program.stated {
        own &= state(cx, ids, names, program, &built, stated)?;
    }
    Ok(own)
}
