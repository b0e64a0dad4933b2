//! What is known of rules and of lists of goals while they are gone through.
ghost use Rattle.std.specs.Prelude.{◌≡◌, IfOk};
ghost use Rattle.relation_proving.specs.Searching.{worse_of, search_after, ends, leaves, told_by, settled};
ghost use Rattle.relation_proving.specs.Searching.{KeepsTold, MaySettle};

use crate::blaming::first_named;
use crate::told::{Blame, Told, ToldOf, Why};
use kept_records::KeepsRecord;
use relation_terms::terms::{Keys, OutOfMemory};

/// What is told of a goal and one rule, or of all of a list.
#[derive(Clone, Copy)]
pub(crate) enum Verdict<X> {
    /// It follows by the rule, or all follow.
    Proven,
    /// It is nothing that the rule gives, or a goal failed that was asked for: this one.
    Refuted(Option<Blame<X>>),
    /// That isn't told.
    Untold(Why),
}

/// The same over an interner's keys.
pub(crate) type VerdictOf<I> = Verdict<<I as Keys>::Key>;

/// What became of the goals of a list that were asked one after another.
#[derive(Clone, Copy)]
pub(crate) enum Round<X> {
    /// The one of this number follows, and of those before it that isn't told.
    Proved(usize),
    /// One doesn't follow, which is due to this.
    Failed(Blame<X>),
    /// Of none it is told.
    Stuck(Why),
}

/// The same over an interner's keys.
pub(crate) type RoundOf<I> = Round<<I as Keys>::Key>;

/// What became of a rule for a goal.
#[derive(Drop)]
pub(crate) enum Tried<R, X: Copy> {
    /// The goal follows by it, and this is recorded then.
    Follows(R),
    /// It follows by it, which is enough: what is recorded then is left.
    Stays,
    /// It doesn't, which is due to this goal if one was asked for.
    Fails(Option<Blame<X>>),
    /// That isn't told.
    Unclear(Why),
}

/// The same over an interner's keys.
pub(crate) type TriedOf<R, I> = Tried<R, <I as Keys>::Key>;

/// What is known of the rules that were tried so far.
#[derive(Drop)]
pub(crate) enum Search<R, X: Copy> {
    /// The goal follows by none, which is due to this goal if a rule asked for one.
    Nothing(Option<Blame<X>>),
    /// It follows by the one at this place alone, and this is recorded then.
    Found(usize, R),
    /// It follows by the one at this place, which is enough: what is recorded then is left.
    Stays(usize),
    /// It may follow by several, or that isn't told.
    Open(Why),
}

/// The same over an interner's keys.
pub(crate) type SearchOf<R, I> = Search<R, <I as Keys>::Key>;

/// A spent depth counts before ambiguity.
pub(crate) fn worse(first: Why, second: Why) -> Why
    ensures { result ≡ worse_of first second }
{
    match first {
        Why::Depth => Why::Depth,
        Why::Ambiguous => second,
    }
}

/// What is known with one rule more, which is at this place.
pub(crate) fn with_tried<R: Drop, X: Copy>(
    search: Search<R, X>,
    place: usize,
    tried: Tried<R, X>,
) -> Search<R, X>
    ensures { result ≡ search_after place search tried }
{
    match search {
        Search::Nothing(named) => match tried {
            Tried::Follows(record) => Search::Found(place, record),
            Tried::Stays => Search::Stays(place),
            Tried::Fails(again) => Search::Nothing(first_named(named, again)),
            Tried::Unclear(why) => Search::Open(why),
        },
        Search::Found(by, record) => match tried {
            Tried::Follows(_) => Search::Open(Why::Ambiguous),
            Tried::Stays => Search::Stays(place),
            Tried::Fails(_) => Search::Found(by, record),
            Tried::Unclear(why) => Search::Open(why),
        },
        Search::Stays(by) => Search::Stays(by),
        Search::Open(why) => match tried {
            Tried::Stays => Search::Stays(place),
            Tried::Follows(_) => Search::Open(why),
            Tried::Fails(_) => Search::Open(why),
            Tried::Unclear(again) => Search::Open(worse(why, again)),
        },
    }
}

/// Whether no other rule counts: the goal follows by one, and that is enough; or it isn't, and the depth is spent.
pub(crate) fn is_over<R, X: Copy>(search: &Search<R, X>, enough: bool) -> bool
    ensures { result ≡ ends enough search.now }
{
    match search {
        Search::Nothing(_) => false,
        Search::Found(..) => false,
        Search::Stays(_) => true,
        Search::Open(Why::Depth) => !enough,
        Search::Open(Why::Ambiguous) => false,
    }
}

/// Whether what is recorded is left after a rule was tried: the goal follows by it, and that is enough.
pub(crate) fn is_left<X>(told: &Verdict<X>, enough: bool) -> bool
    ensures { result ≡ leaves enough told.now }
{
    match told {
        Verdict::Proven => enough,
        Verdict::Refuted(_) => false,
        Verdict::Untold(_) => false,
    }
}

/// Keeps what is recorded where a goal follows.
///
/// # Errors
/// `OutOfMemory` where a growth was refused.
pub(crate) fn keep_told<C: KeepsRecord>(
    ctx: &C,
    told: VerdictOf<C::Interner>,
) -> Result<TriedOf<C::Record, C::Interner>, OutOfMemory>
    requires lawful { (C.state ctx.now).lawful }
    ensures { IfOk result (KeepsTold C.state C.with_record ctx.now told) }
{
    match told {
        Verdict::Proven => {
            let record = ctx.keep()?;
            Ok(Tried::Follows(record))
        }
        Verdict::Refuted(named) => Ok(Tried::Fails(named)),
        Verdict::Untold(why) => Ok(Tried::Unclear(why)),
    }
}

/// What the rules tell of the goal: where it follows by one of them alone, what was recorded then is put back.
pub(crate) fn settle<C: KeepsRecord>(
    ctx: &mut C,
    search: SearchOf<C::Record, C::Interner>,
) -> ToldOf<C::Interner>
    requires may { MaySettle C.state C.with_record ctx.old search }
    ensures told { result ≡ told_by search }
    ensures leaves { ctx.new ≡ settled C.with_record ctx.old search }
{
    match search {
        Search::Nothing(named) => Told::No(named),
        Search::Found(by, record) => {
            ctx.put_back(record);
            Told::Yes(by)
        }
        Search::Stays(by) => Told::Yes(by),
        Search::Open(why) => Told::Maybe(why),
    }
}
