//! The members of a class stand in a ring, and one of them names the class.
ghost use Rattle.std.specs.Prelude.{◌≡◌, ◌<◌, length, get_or, map, min, slice_set};
ghost use Rattle.variable_classes.specs.Rings.{no_member, of_at, next_at, least_at, renamed, led_on, roots_of, AreRings};
ghost use Rattle.variable_classes.specs.Roots.{lowered_roots, joined_roots};

// A number in its class: who names the class, and who comes next in the ring. Who names it says as well which member is
// the smallest; and how many there are, which only decides who names what two classes become.
#[derive(Clone, Copy)]
pub struct Member {
    pub of: usize,
    pub next: usize,
    pub least: usize,
    pub count: usize,
}

// A number in a class of its own.
pub fn alone(number: usize) -> Member
    ensures { result ≡ record { of = number; next = number; least = number; count = 1 } }
{
    Member {
        of: number,
        next: number,
        least: number,
        count: 1,
    }
}

// Names a member's class after another member, and answers who comes next.
fn rename(members: &mut [Member], at: usize, into: usize) -> usize
    requires { at < length members.old }
    ensures next { result ≡ next_at members.old at }
    ensures named { members.new ≡ slice_set members.old at (renamed into (get_or members.old at no_member)) }
{
    let member = &mut members[at];
    member.of = into;
    member.next
}

// Names a whole class after another member. It goes round the ring, and comes last to whom it is named after now.
fn lead_all(members: &mut [Member], from: usize, into: usize)
    requires rings { AreRings members.old }
    requires from_in { from < length members.old }
    requires from_names { of_at members.old from ≡ from }
    requires apart { from ≡ into → ⊥ }
    ensures { members.new ≡ map (led_on from into) members.old }
{
    let mut at = members[from].next;
    'ring: while at != from {
        at = rename(members, at, into);
    }
    rename(members, from, into);
}

fn smaller(a: usize, b: usize) -> usize
    ensures { result ≡ min a b }
{
    if a < b { a } else { b }
}

// Makes the rings of two that name classes one, and names it after the second.
fn merge(members: &mut [Member], from: usize, into: usize)
    requires rings { AreRings members.old }
    requires from_in { from < length members.old }
    requires into_in { into < length members.old }
    requires from_names { of_at members.old from ≡ from }
    requires into_names { of_at members.old into ≡ into }
    requires apart { from ≡ into → ⊥ }
    ensures rings { AreRings members.new }
    ensures roots { roots_of members.new ≡
        lowered_roots (least_at members.old from) (least_at members.old into) (roots_of members.old) }
{
    let first = members[from];
    let second = members[into];
    lead_all(members, from, into);
    members[from] = Member {
        of: into,
        next: second.next,
        least: first.least,
        count: first.count,
    };
    members[into] = Member {
        of: into,
        next: first.next,
        least: smaller(first.least, second.least),
        count: first.count.saturating_add(second.count),
    };
}

// Makes the classes of two members one. The larger one names it: so a member is named anew only with a class at least
// twice as large.
pub fn join(members: &mut [Member], a: usize, b: usize)
    requires rings { AreRings members.old }
    requires a_in { a < length members.old }
    requires b_in { b < length members.old }
    ensures rings { AreRings members.new }
    ensures roots { roots_of members.new ≡ joined_roots a b (roots_of members.old) }
{
    let first = members[a].of;
    let second = members[b].of;
    if first != second {
        if members[first].count <= members[second].count {
            merge(members, first, second);
        } else {
            merge(members, second, first);
        }
    }
}
