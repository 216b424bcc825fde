// ELCA and SLCA without counts (02, Q-3), by the engine that merges the occurrence lists over a lent stack.
// Two entry points, `elca` and `slca`.
#![tactic(auto)]

ghost use Rattle.depot.specs.Depot.{depot};
ghost use Rattle.merge.specs.Merge.{MergedElca, MergedSlca};

use depot::Depot;
use engine::Entry;
use index::Reply;

// The ELCAs of p positive words, in increasing number, in out, and for each of them p own counts, in word order, in own.
//   1 SIZE   q above 0, a stack of fewer than 64 entries, or as the index check has it, counts and work apart; nothing is touched
//   2 TREE, 3 LIST   as the index check has them
//   5 ROOM   out is shorter than the answer, or own than p times the answer; place 0, total: the answers needed
//   0        place 0, total m: the first m entries of out and the first m·p of own are written; later entries stay
// Any refusal keeps out and own as lent. Under every reply but SIZE the first 64 entries of the stack end as zero, and the rest is untouched.
pub fn elca(
    parents: &[u32],
    tags: &[u32],
    p: u32,
    q: u32,
    ends: &[u32],
    occurrences: &[u32],
    stack: &mut [Entry],
    out: &mut [u32],
    own: &mut [u32],
) -> Reply
    ensures { MergedElca (depot parents.now tags.now p q ends.now occurrences.now)
        stack.old out.old own.old result stack.new out.new own.new }
{
    let depot = Depot {
        parents,
        tags,
        positive: p,
        negative: q,
        ends,
        occurrences,
    };
    engine::search(depot, stack, out, own, false).into()
}

// The SLCAs of p positive words, in increasing number, in out: the same without own.
pub fn slca(
    parents: &[u32],
    tags: &[u32],
    p: u32,
    q: u32,
    ends: &[u32],
    occurrences: &[u32],
    stack: &mut [Entry],
    out: &mut [u32],
) -> Reply
    ensures { MergedSlca (depot parents.now tags.now p q ends.now occurrences.now)
        stack.old out.old result stack.new out.new }
{
    let depot = Depot {
        parents,
        tags,
        positive: p,
        negative: q,
        ends,
        occurrences,
    };
    // no own counts are written where the smallest are listed
    engine::search(depot, stack, out, &mut [], true).into()
}
