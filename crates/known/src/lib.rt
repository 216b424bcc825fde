// What every search asks before it looks for answers: a right index and, unless the caller asks for the empty answer, positive words that occur
// somewhere (02, Q-6). One entry point, `admit`: SIZE, TREE, LIST, COUNT as the index check has them, then UNKNOWN.
#![tactic(auto)]

ghost use Rattle.std.specs.Prelude.{◌≤◌, length};
ghost use Rattle.seq.specs.Below.{Lowest};
ghost use Rattle.index.specs.Replies.{verdict_of};
ghost use Rattle.index.specs.Promises.{index_of};
ghost use Rattle.known.specs.Inner.{end_moves};
ghost use Rattle.known.specs.Promises.{Admitted};

use index::{Lent, Refusal};

// The lowest of the first k words whose list is empty: its end is the one before it.
fn first_empty(ends: &[u32], k: usize) -> Option<usize>
    requires { k ≤ length ends.now }
    ensures { Lowest k (end_moves ends.now) result }
{
    let mut from: u32 = 0;
    for j in 0..k {
        let to = ends[j];
        if to == from {
            return Some(j);
        }
        from = to;
    }
    None
}

// The index check, and what a search asks of its words. UNKNOWN comes after COUNT and before ROOM, so refusals are not in the order of their numbers.
//   Size, Tree, List, Count   as the index check has them; Size touches nothing
//   Unknown(j)   without empty_ok: the list of a positive word is empty; j: the lowest such word
//   Ok           none of these
// Work is left as the index check leaves it.
pub fn admit(lent: Lent, empty_ok: bool, work: &mut [u32]) -> Result<(), Refusal>
    ensures { Admitted empty_ok (index_of lent.entry) work.old (verdict_of result) work.new }
{
    index::check(lent, work)?;
    if empty_ok {
        return Ok(());
    }
    match first_empty(lent.ends, lent.positive as usize) {
        Some(word) => Err(Refusal::Unknown(word as u32)),
        None => Ok(()),
    }
}
