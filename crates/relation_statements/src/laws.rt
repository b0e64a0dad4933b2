//! Laws of the definitions that this crate's contracts are said in. Each function does nothing, and its contract is
//! the law.

ghost use Rattle.relation_terms.specs.Meaning.{Meaning};
ghost use Rattle.relation_statements.specs.Laws.{RenamingsImplyRenamings};
ghost use Rattle.relation_statements.specs.Runs.{EachRunCloses};
ghost use Rattle.relation_statements.specs.Statements.{ImpliedStays};

use relation_terms::terms::Interner;

/// Predicates whose outermost binders differ in names, order or unused variables alone imply the same, but for such
/// differences.
pub fn renamings()
    ensures imply { RenamingsImplyRenamings }
{}

/// While an interner grows each predicate implies what it did.
pub fn growth<I: Interner>()
    ensures stay { (m n : Meaning I.Key I.Id I.Name) → ImpliedStays m n }
{}

/// Whatever begins with predicates and goes on by pulls yields what follows from them: each once up to renaming, all of
/// it where it comes to its end, and never more than its limit or than any list that has all of it up to renaming.
pub fn runs()
    ensures close { EachRunCloses }
{}
