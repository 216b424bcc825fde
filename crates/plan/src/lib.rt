// What a call that builds an index replies (02, Q-5), found in one pass over the text that writes to the table of its words alone.
// One entry point, `plan`: SIZE, then MARKUP or TREE, whichever comes first in the text, then ROOM. Slices of any length and any content may be lent.
#![tactic(auto)]

mod gather;

ghost use Rattle.std.specs.Prelude.{◌≡◌};
ghost use Rattle.query.specs.Query.{query};
ghost use Rattle.plan.specs.Plan.{Plans};
ghost use Rattle.plan.specs.Inner.{roomy, RoomPre, NoRoom};

use query::Query;

// How many entries are lent of each slice that is to be written, but for the table.
#[derive(Clone, Copy)]
pub struct Sizes {
    pub parents: usize,
    pub tags: usize,
    pub firsts: usize,
    pub lasts: usize,
    pub ends: usize,
    pub occurrences: usize,
    pub counts: usize,
    pub work: usize,
}

// The call's reply; and how many entries the lists have together where it is accepted, else 0.
#[derive(Clone, Copy)]
pub struct Planned {
    pub reply: index::Reply,
    pub total: usize,
}

impl Sizes {
    // Whether n nodes and k words fit the rows of the tree, the reader's work, the ends and the counts.
    fn has_room(&self, n: usize, k: usize) -> bool
        requires { RoomPre n k }
        ensures { result ≡ roomy n k self.now }
    {
        let tree = reader::has_room(
            n,
            self.parents,
            self.tags,
            self.firsts,
            self.lasts,
            self.work,
        );
        if !tree || self.ends < k {
            return false;
        }
        k * n <= self.counts
    }
}

// ROOM: the table is zero, and the total 0.
fn no_room(slots: &mut [u32]) -> Planned
    ensures { NoRoom slots.old result slots.new }
{
    seq::clear(&mut *slots);
    Planned {
        reply: index::Reply {
            refusal: index::ROOM,
            place: 0,
            total: 0,
        },
        total: 0,
    }
}

// Tests the query, judges the text, fills the table whatever it held, and tells whether all that is to be written fits. The reply's total is the number of nodes, n; k is the number of words.
// SIZE for a text of more than 16,777,216 bytes, for 0 or more than 8 words, for ends that do not rise to the length of the bytes, and for a byte of a word that is no letter or
// digit; then whichever comes first: MARKUP at the first byte at which no text of the profile continues, or TREE at the first node of level 65 or numbered 65,536. These touch nothing.
// Last ROOM, with total 0, where the distinct words of the text outnumber the slots, parents, tags, firsts or lasts is shorter than n, work than 3 * n, ends than k, occurrences than all lists
// together, or counts than k * n: then every slot is 0. Accepted, the slots are the table.
pub fn plan(text: &[u8], q: &Query, slots: &mut [u32], lent: Sizes) -> Planned
    ensures { Plans text.now (query q.now.words.now q.now.ends.now) lent slots.old result slots.new }
{
    if !q.is_query() {
        return Planned {
            reply: index::Reply {
                refusal: index::SIZE,
                place: 0,
                total: 0,
            },
            total: 0,
        };
    }
    let r = index::Reply::from(judge::judge(text));
    if r.refusal != index::ACCEPTED {
        return Planned { reply: r, total: 0 };
    }
    if !lent.has_room(r.total as usize, q.ends.len()) {
        return no_room(slots);
    }
    match gather::gather(text, q, &mut *slots) {
        Some(total) if total <= lent.occurrences => Planned { reply: r, total },
        _ => no_room(slots),
    }
}
