//! A law of the definitions that contracts here are said in: a function that does nothing, and its contract is the law.

ghost use Rattle.anonymize.specs.Renamings.{RenamingsAreOne};

/// Predicates whose outermost binders differ in names, order or unused variables alone: these, and no others, are
/// anonymised alike, by each name.
pub fn renamings()
    ensures one { RenamingsAreOne }
{}
