// ELCA: the full nodes whose own count is 1 or more for every word (01, "Which nodes are listed"; source document 001).
// By Lemma 4 of that document the own count is the count at a node less the counts at its full children.
// One entry point, `elca`.
#![tactic(auto)]

mod rows;

ghost use Rattle.std.specs.Prelude.{◌+◌, ◌*◌, eqb};
ghost use Rattle.index.specs.Promises.{index_of};
ghost use Rattle.index.specs.Replies.{reply_of};
ghost use Rattle.elca.specs.Inner.Rows.{flag_at, own_diff};
ghost use Rattle.elca.specs.Promises.{ElcaSearched};
ghost use Rattle.elca.specs.Inner.Steps.{Answered, PutPre, SearchPre, ElcaFound};

use index::{Lent, Refusal};

// Lists the flagged nodes with their own counts: Room where out or own is short, with the answers needed.
fn put(
    counts: &[u32],
    n: usize,
    k: usize,
    work: &[u32],
    out: &mut [u32],
    own: &mut [u32],
) -> Result<u32, Refusal>
    requires { PutPre n k counts.now work.now }
    ensures { Answered n k (λ v. eqb (flag_at n k work.now v) 1) (own_diff counts.now n k work.now)
        out.old own.old (reply_of result) out.new own.new }
{
    let sums = n * k;
    let used = sums + n;
    let m = listing::count_flagged(&work[sums..used]);
    if out.len() < m || own.len() < m * k {
        return Err(Refusal::Room(m as u32));
    }
    rows::write_own(counts, n, k, work, own);
    listing::list_flagged(&work[sums..used], out)
}

// The search on an index that is checked, in zeros, which it leaves.
fn search(
    parents: &[u32],
    counts: &[u32],
    k: usize,
    work: &mut [u32],
    out: &mut [u32],
    own: &mut [u32],
) -> Result<u32, Refusal>
    requires { SearchPre parents.now counts.now k work.old }
    ensures { ElcaFound parents.now counts.now k work.old out.old own.old (reply_of result)
        work.new out.new own.new }
{
    let n = parents.len();
    let sums = n * k;
    let used = sums + n;
    full::flag_full(counts, &mut work[sums..used]);
    rows::take_off(parents, counts, k, &mut *work);
    rows::flag_above(counts, n, k, &mut *work);
    let answer = put(counts, n, k, &*work, out, own);
    seq::clear(work);
    answer
}

// The ELCAs of p positive words, in increasing number, in out, and for each of them p own counts, in word order, in own; n nodes.
//   Size               a negative word, or as the index check has it; nothing is touched
//   Tree, List, Count  as the index check has them
//   Room(m)            out is shorter than the m answers, or own than m·p
//   Ok(m)              the first m entries of out and the first m·p of own are written; later entries stay
// Any refusal keeps out and own as lent. Under every answer but Size the first (p + 2)·n entries of work end as 0, and the rest is untouched.
pub fn elca(lent: Lent, work: &mut [u32], out: &mut [u32], own: &mut [u32]) -> Result<u32, Refusal>
    ensures { ElcaSearched (index_of lent.entry) work.old out.old own.old (reply_of result) work.new
        out.new own.new }
{
    if lent.negative != 0 {
        return Err(Refusal::Size);
    }
    index::check(lent, &mut *work)?;
    let n = lent.parents.len();
    let k = lent.positive as usize;
    let used = n * k + n;
    search(lent.parents, lent.counts, k, &mut work[..used], out, own)
}
