// SLCA: the full nodes with no full proper descendant (01, "Which nodes are listed"; source document 000).
// Entry points: `slca`, the search, and `flag_slca`, the marks that the search with NOT starts from.
#![tactic(auto)]

ghost use Rattle.std.specs.Prelude.{◌≡◌};
ghost use Rattle.index.specs.Replies.{reply_of, verdict_of};
ghost use Rattle.index.specs.Promises.{index_of};
ghost use Rattle.slca.specs.Inner.{marks_of, marks_by};
ghost use Rattle.slca.specs.Promises.{Marked, SlcaSearched};
ghost use Rattle.slca.specs.Inner.{DropPre, MarkSlcaPre};

use index::{Lent, Refusal};

// From flags of full nodes: a full node with a full child becomes 2. From the last node to the first, a full node marks its parent.
fn drop_above(parents: &[u32], flags: &mut [u32])
    requires { DropPre parents.now flags.old }
    ensures { flags.new ≡ marks_of parents.now flags.old }
{
    for i in (1..flags.len()).rev() {
        if flags[i] != 0 {
            let up = parents[i] as usize;
            flags[up] = 2;
        }
    }
}

// The marks of the full nodes, from counts of whole rows: flags of full nodes first, then those with a full child.
fn mark_slca(parents: &[u32], counts: &[u32], flags: &mut [u32])
    requires { MarkSlcaPre parents.now counts.now flags.old }
    ensures { flags.new ≡ marks_by parents.now counts.now }
{
    full::flag_full(counts, &mut *flags);
    drop_above(parents, flags);
}

// The index check, with its refusals, for positive and negative words. Where it accepts, the first n entries of work then hold the marks of the
// positive words: 1 at an SLCA, 2 at any other full node, 0 elsewhere. All else is as the index check leaves it.
pub fn flag_slca(lent: Lent, work: &mut [u32]) -> Result<(), Refusal>
    ensures { Marked (index_of lent.entry) work.old (verdict_of result) work.new }
{
    index::check(lent, &mut *work)?;
    let n = lent.parents.len();
    let rows = lent.positive as usize * n;
    mark_slca(lent.parents, &lent.counts[..rows], &mut work[..n]);
    Ok(())
}

// The SLCAs of p positive words, in increasing number, in out; n nodes.
//   Size               a negative word, or as the index check has it; nothing is touched
//   Tree, List, Count  as the index check has them
//   Room(m)            out is shorter than the m answers
//   Ok(m)              the m answers are written over the front of out; later entries stay
// Any refusal keeps out as lent. Under every answer but Size the first (p + 2)·n entries of work end as 0, and the rest is untouched.
pub fn slca(lent: Lent, work: &mut [u32], out: &mut [u32]) -> Result<u32, Refusal>
    ensures { SlcaSearched (index_of lent.entry) work.old out.old (reply_of result) work.new out.new }
{
    if lent.negative != 0 {
        return Err(Refusal::Size);
    }
    flag_slca(lent, &mut *work)?;
    let n = lent.parents.len();
    let answer = listing::list_flagged(&work[..n], out);
    seq::clear(&mut work[..n]);
    answer
}
