// The check of an index that a depot lends, one without counts, before a search on a stack (02, Q-3; 01, "Replies").
// One entry point, `check`: SIZE, TREE, LIST in this order. Slices of any length and any content may be lent, and are only read.
#![tactic(auto)]

ghost use Rattle.std.specs.Prelude.{◌≡◌};
ghost use Rattle.index.specs.Replies.{accepted, totalled, verdict_of};
ghost use Rattle.depot.specs.Depot.{depot_of, depot_size_ok, depot_checked};
ghost use Rattle.depot.specs.Inner.{JudgePre, judged};

use index::Refusal;

// The index that a depot lends: one without counts.
#[derive(Clone, Copy)]
pub struct Depot<'a> {
    pub parents: &'a [u32],
    pub tags: &'a [u32],
    pub positive: u32,
    pub negative: u32,
    pub ends: &'a [u32],
    pub occurrences: &'a [u32],
}

// Whether every bound holds and every length is as it must be, for a stack of so many entries.
fn size_ok(depot: Depot, long: usize) -> bool
    ensures { result ≡ depot_size_ok (depot_of depot.entry) long }
{
    let n = depot.parents.len();
    let p = depot.positive;
    if n == 0 || 65536 < n {
        return false;
    }
    if p == 0 || 8 < p || depot.negative != 0 {
        return false;
    }
    if depot.tags.len() != n || depot.ends.len() != p as usize {
        return false;
    }
    64 <= long
}

// TREE and LIST, where nothing gives SIZE.
fn judge(depot: Depot) -> Result<(), Refusal>
    requires { JudgePre (depot_of depot) }
    ensures { verdict_of result ≡ judged (depot_of depot.entry) }
{
    let n = depot.parents.len();
    let bad_node = tree::tree_bad(depot.parents, depot.tags);
    if bad_node < n {
        return Err(Refusal::Tree(bad_node as u32));
    }
    let bad_word = index::lists::lists_bad(depot.ends, depot.occurrences, n);
    if bad_word < depot.ends.len() {
        return Err(Refusal::List(bad_word as u32));
    }
    Ok(())
}

// What is wrong with the index of a depot, for a search on a stack of so many entries.
//   Size   q above 0, a stack of fewer than 64 entries, or as the index check has it, counts and work apart
//   Tree, List   as the index check has them
//   Ok     nothing is wrong
pub fn check(depot: Depot, long: usize) -> Result<(), Refusal>
    ensures { verdict_of result ≡ depot_checked (depot_of depot.entry) long (totalled accepted 0) }
{
    if !size_ok(depot, long) {
        return Err(Refusal::Size);
    }
    judge(depot)
}
