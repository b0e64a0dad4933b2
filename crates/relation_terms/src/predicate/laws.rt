//! Laws of how argument lists are edited. Each function does nothing, and its contract is the law.
ghost use Rattle.std.specs.Prelude.{◌≡◌, ℕ};
ghost use Rattle.relation_terms.specs.Trees.{Tree, cons, nth, IsList};
ghost use Rattle.relation_terms.specs.Edits.{first_of, behind_first, put_before, with_first, HasSelf};

/// Self types that are read, erased, put back and replaced.
pub fn self_types()
    ensures put_back { (ts : Tree) → HasSelf ts → cons (nth 0 ts) (behind_first 1 ts) ≡ ts }
    ensures erased { (t ts : Tree) → behind_first 1 (cons t ts) ≡ ts }
    ensures replaced_twice { (t u ts : Tree) → with_first t (with_first u ts) ≡ with_first t ts }
    ensures read { (t ts : Tree) → nth 0 (with_first t ts) ≡ t }
{}

/// The first members of a list, and those behind them, are all.
pub fn own_arguments()
    ensures { (n : ℕ) (ts : Tree) → IsList ts → put_before (first_of n ts) (behind_first n ts) ≡ ts }
{}
