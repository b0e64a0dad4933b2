//! The smallest visitor: it counts the regions of a term.
ghost use Rattle.std.specs.Prelude.{IsTrue};
ghost use Rattle.relation_terms.specs.Trees.{known};

use relation_folds::visit::{TypeVisitable, TypeVisitor, Visit};
use relation_terms::terms::{Const, Interner, Region, Ty};

/// Counts the regions that it is asked about.
#[derive(Clone, Copy)]
pub struct CountsRegions {
    pub count: u64,
}

/// It goes into every term. That is all that its ghost member says, so no clause can say how many it counts.
impl<I: Interner> TypeVisitor<I> for CountsRegions {
    ghost use Rattle.std.specs.Prelude.{◌≡◌};
    ghost use Rattle.relation_folds.specs.declared.visit.Visit.TheVariants.{Enter};

    ghost visits = { λ cx v d t w a. a ≡ Enter };

    fn visit_ty(&mut self, _cx: &I, _ty: &Ty<I>, _depth: u128) -> Visit {
        Visit::Enter
    }

    fn visit_region(&mut self, _cx: &I, _region: &Region<I>, _depth: u128) -> Visit {
        self.count = self.count.saturating_add(1);
        Visit::Enter
    }

    fn visit_const(&mut self, _cx: &I, _constant: &Const<I>, _depth: u128) -> Visit {
        Visit::Enter
    }
}

/// How many regions stand in a term. The interner has to know the term.
pub fn count_regions<I: Interner, T: TypeVisitable<I>>(cx: &I, term: &T) -> u64
    requires { IsTrue (known (T.tree (I.meaning cx.now) term.now)) }
{
    let mut visitor = CountsRegions { count: 0 };
    let _ = term.visit_with(cx, &mut visitor);
    visitor.count
}
