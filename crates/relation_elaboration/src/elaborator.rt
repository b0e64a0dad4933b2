//! The elaborator: predicates, and what follows from them, each once.
ghost use Rattle.std.specs.Prelude.{◌≡◌, true, false, IsTrue, IfOk, IfSome, Err, None, [], length, map};
ghost use Rattle.std.specs.Result.{result_err};
ghost use Rattle.std.specs.Iterator.{UpTo, endless};
ghost use Rattle.std.specs.Iterator.SizeHint.{IsWithinCount};
ghost use Rattle.std.specs.List.{All};
ghost use Rattle.relation_terms.specs.Trees.{known};
ghost use Rattle.relation_terms.specs.Meaning.{Extends};
ghost use Rattle.elaboration_worklist.specs.declared.faults.ElabFault.TheVariants.{Limit};
ghost use Rattle.relation_statements.specs.Runs.{AreTooMany};
ghost use Rattle.relation_statements.specs.Children.{mode_of};
ghost use Rattle.elaboration_worklist.specs.Kept.{IsKept, Pushed};
ghost use Rattle.relation_elaboration.specs.Pulling.{Pulls, Keeps, Takes};
ghost use Rattle.relation_elaboration.specs.Pulling.{HasNoRoom, BeginsWith, ByClosure, BeginsClosure};

use elaboration_worklist::{ElabFault, Elaboratable, Worklist, WorklistOf, push_new};
use relation_statements::push_children;
use relation_terms::terms::Interner;
use std::collections::HashSet;
use std::marker::Model;

/// Predicates, and what follows from them.
///
/// It yields each predicate once, where predicates whose binders differ in names, order or unused variables alone count
/// as one: the last that was found first, and what it implies then. Where a growth was refused, or where there are more
/// different predicates than the limit allows, it yields that fault, then and at each later pull; the predicate whose
/// children were being made is not yielded.
#[derive(Drop)]
pub struct Elaborator<'a, I: Interner, O: Elaboratable<I>> {
    cx: &'a mut I,
    list: WorklistOf<I, O>,
    only_self: bool,
    sized: bool,
    fault: Option<ElabFault>,
}

impl<'a, I: Interner, O: Elaboratable<I>> Model for Elaborator<'a, I, O> {
    ghost use Rattle.relation_statements.specs.Children.{mode_of};
    ghost use Rattle.relation_elaboration.specs.Pulling.{Elaboration};
    ghost use Rattle.elaboration_worklist.specs.Kept.{IsKept};

    ghost Value = { Elaboration I O I.Key I.Name };

    ghost view = { λ e. record {
      reference = e.cx.ghost_name;
      cx = e.cx.now;
      stack = e.list.stack.items;
      visited = e.list.visited.keys;
      limit = e.list.limit;
      name = e.list.name;
      mode = mode_of e.only_self e.sized;
      fault = e.fault;
    } };

    ghost invariant = { λ e. IsKept O.tree (I.meaning e.cx.now) e.list };
}

/// Predicates, and what follows from them: what the trait of a positive trait clause implies, for the clause's
/// arguments; what its const bounds are, for a clause on const contexts; and of a type that outlives a region that no
/// binder binds, that its components do. Of `Sized` nothing is said to follow. The interner has to know the predicates.
///
/// There may be up to `limit` different predicates. Answers `Limit` where the given ones are more, and `Memory` where a
/// growth was refused; all keys keep their meanings. A caller whose contract says so makes an `Elaborator` and extends
/// it: no clause says it here. Upstream's function of this name, which takes any iterator and has no limit.
pub fn elaborate<I: Interner, O: Elaboratable<I>>(
    cx: &mut I,
    obligations: Vec<O>,
    limit: usize,
) -> Result<Elaborator<'_, I, O>, ElabFault>
    requires { All (λ o. IsTrue (known (O.tree (I.meaning cx.old) o))) obligations.items }
    ensures grown { IfOk result (λ e. Extends (I.meaning cx.old) (I.meaning e.cx)) }
    ensures same_reference { IfOk result (λ e. e.reference ≡ cx.entry.ghost_name) }
    ensures begins { IfOk result (λ e. BeginsWith I.meaning O.tree (I.meaning cx.old) obligations.items limit e) }
    ensures limit { result ≡ Err Limit → AreTooMany (map (O.tree (I.meaning cx.old)) obligations.items) limit }
    ensures closure { IfOk result (λ e. ByClosure I.meaning O.tree (I.meaning cx.old) obligations.items e) }
{
    let mut elaborator = Elaborator::new(cx, limit);
    match elaborator.extend_deduped(obligations) {
        Ok(()) => Ok(elaborator),
        Err(fault) => Err(fault),
    }
}

// Pushes the predicates of a list.
fn push_all<I: Interner, O: Elaboratable<I>>(
    cx: &mut I,
    list: &mut WorklistOf<I, O>,
    obligations: Vec<O>,
) -> Result<(), ElabFault>
    requires known { All (λ o. IsTrue (known (O.tree (I.meaning cx.old) o))) obligations.items }
    requires kept { IsKept O.tree (I.meaning cx.old) list.old }
    ensures { let m = I.meaning cx.old in Pushed O.tree m (I.meaning cx.new)
        (map (O.tree m) obligations.items) list.old list.new result }
{
    for obligation in obligations {
        match push_new(cx, list, obligation) {
            Ok(()) => {}
            Err(fault) => return Err(fault),
        }
    }
    Ok(())
}

impl<'a, I: Interner, O: Elaboratable<I>> Elaborator<'a, I, O> {
    /// An elaboration that has no predicate yet, of which there may be up to `limit` different ones. Nothing can fail
    /// here, so that a caller who extends it has its interner back, by `into_cx`, whatever that answers. Upstream makes
    /// one only in `elaborate`.
    pub fn new(cx: &'a mut I, limit: usize) -> Self
        ensures same_reference { result.reference ≡ cx.entry.ghost_name }
        ensures same { result.cx ≡ cx.old }
        ensures stack { result.stack ≡ [] }
        ensures visited { result.visited ≡ [] }
        ensures limit { result.limit ≡ limit }
        ensures mode { result.mode ≡ mode_of false false }
        ensures fault { result.fault ≡ None }
    {
        let list = Worklist {
            stack: Vec::new(cx.alloc()),
            visited: HashSet::new(cx.alloc()),
            limit,
            name: cx.dummy_name(),
        };
        Elaborator {
            cx,
            list,
            only_self: false,
            sized: false,
            fault: None,
        }
    }

    /// Takes up predicates, each if none that is the same but for renaming was ever taken up or implied. The interner
    /// has to know them.
    ///
    /// Answers `Limit` where they do not fit, and `Memory` where a growth was refused: then, and at each later call and
    /// pull. All keys keep their meanings, also then. Upstream has it as a private function.
    pub fn extend_deduped(&mut self, obligations: Vec<O>) -> Result<(), ElabFault>
        requires { All (λ o. IsTrue (known (O.tree (I.meaning self.old.cx) o))) obligations.items }
        ensures keeps { Keeps I.meaning O.tree self.old self.new }
        ensures takes { IfOk result (λ _. Takes I.meaning O.tree obligations.items self.old self.new) }
        ensures fault { self.new.fault ≡ result_err result }
        ensures again { IfSome self.old.fault (λ f. (result ≡ Err f) × (self.new ≡ self.old)) }
        ensures limit { result ≡ Err Limit → HasNoRoom I.meaning O.tree obligations.items self.old }
        ensures closure { IfOk result (λ _. BeginsClosure I.meaning O.tree obligations.items self.old self.new) }
    {
        if let Some(fault) = self.fault {
            return Err(fault);
        }
        match push_all(&mut *self.cx, &mut self.list, obligations) {
            Ok(()) => Ok(()),
            Err(refused) => {
                self.fault = Some(refused);
                Err(refused)
            }
        }
    }

    /// The next predicate, or `None` where nothing is left. `Memory` where a growth was refused and `Limit` where what
    /// the next predicate implies does not fit, then and at each later pull; all keys keep their meanings.
    pub fn pull(&mut self) -> Option<Result<O, ElabFault>>
        ensures steps { Pulls I.meaning O.tree self.old result self.new }
    {
        if let Some(fault) = self.fault {
            return Some(Err(fault));
        }
        let obligation = self.list.stack.pop()?;
        let mode = (self.only_self, self.sized);
        match push_children(&mut *self.cx, &mut self.list, mode, &obligation) {
            Ok(()) => Some(Ok(obligation)),
            Err(fault) => {
                self.fault = Some(fault);
                Some(Err(fault))
            }
        }
    }

    /// The interner.
    pub fn cx(&self) -> &I
        ensures { result.now ≡ (self.now).cx }
    {
        &*self.cx
    }

    /// The same, but of what a trait implies only its super-predicates. To be asked for before the first pull.
    pub fn filter_only_self(self) -> Self
        ensures { result ≡ record self.entry { mode = record (self.entry).mode { only_self = true } } }
    {
        let Elaborator {
            cx,
            list,
            only_self: _,
            sized,
            fault,
        } = self;
        Elaborator {
            cx,
            list,
            only_self: true,
            sized,
            fault,
        }
    }

    /// The same, but what the trait `Sized` implies follows too. To be asked for before the first pull.
    pub fn elaborate_sized(self) -> Self
        ensures { result ≡ record self.entry { mode = record (self.entry).mode { sized = true } } }
    {
        let Elaborator {
            cx,
            list,
            only_self,
            sized: _,
            fault,
        } = self;
        Elaborator {
            cx,
            list,
            only_self,
            sized: true,
            fault,
        }
    }

    /// The interner, for who began the elaboration.
    pub fn into_cx(self) -> &'a mut I
        ensures same_reference { result.ghost_name ≡ (self.entry).reference }
        ensures value { result.now ≡ (self.entry).cx }
    {
        let Elaborator {
            cx,
            list,
            only_self: _,
            sized: _,
            fault: _,
        } = self;
        drop(list);
        cx
    }
}

impl<'a, I: Interner, O: Elaboratable<I>> Iterator for Elaborator<'a, I, O> {
    type Item = Result<O, ElabFault>;

    ghost use Rattle.relation_elaboration.specs.Pulling.{Pulls};

    ghost next_gives = { λ s r t. Pulls I.meaning O.tree s r t };

    fn next(&mut self) -> Option<Result<O, ElabFault>> {
        self.pull()
    }

    fn size_hint(&self) -> (usize, Option<usize>)
        ensures lower { IsWithinCount result.0 endless }
        ensures upper { IfSome result.1 (UpTo endless) }
        ensures value { result ≡ (length (self.now).stack, None) }
    {
        (self.list.stack.len(), None)
    }
}
