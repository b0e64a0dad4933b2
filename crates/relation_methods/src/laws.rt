//! A law of tables: a function that does nothing, and its contract is the law.

ghost use Rattle.relation_terms.specs.Meaning.{Meaning};
ghost use Rattle.relation_methods.specs.Methods.{TablesStand};

use relation_terms::terms::Interner;

/// While an interner grows the entries of a table have the keys of their types.
pub fn growth<I: Interner, E>()
    ensures stand { (m n : Meaning I.Key I.Id I.Name) → TablesStand E m n }
{}
