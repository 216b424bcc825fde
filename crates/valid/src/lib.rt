// The search with NOT (01, "Which nodes are listed": valid SLCA; source document 002).
// One entry point, `valid`. The SLCAs are found first, on all occurrences of the positive words; then those are kept under which every positive word
// has a valid occurrence.
#![tactic(auto)]

mod tops;

ghost use Rattle.std.specs.Prelude.{◌≤◌, length};
ghost use Rattle.index.specs.Promises.{index_of};
ghost use Rattle.index.specs.Replies.{reply_of};
ghost use Rattle.valid.specs.Promises.{ValidSearched};
ghost use Rattle.valid.specs.Inner.Steps.{RejectPre, Rejected, Finished};
ghost use Rattle.valid.specs.Inner.Tops.{NegatePre, NegatorsMarked};

use index::{Lent, Refusal};
use tops::keep;

// Over the closest entity of each node: n at the closest entity of each text node of the list. That makes it a negator.
fn mark(list: &[u32], tags: &[u32], row: &mut [u32])
    requires { NegatePre list.now tags.now row.old }
    ensures { NegatorsMarked list.now tags.now row.old row.new }
{
    let n = tags.len() as u32;
    for x in list {
        let x = *x as usize;
        if tags[x] == 0 {
            let c = row[x] as usize;
            row[c] = n;
        }
    }
}

// From the marks of the SLCAs of p positive words in the first of four rows: 1 at each valid SLCA, 0 elsewhere. The other rows end as 0.
// The lists of the negative words stand behind those of the positive ones, so they are one stretch of the occurrences.
fn reject(lent: Lent, rows: &mut [u32])
    requires { RejectPre lent.parents.now lent.tags.now lent.positive lent.ends.now lent.occurrences.now rows.old }
    ensures { Rejected lent.entry.parents.now lent.entry.tags.now lent.entry.positive lent.entry.ends.now lent.entry.occurrences.now rows.new }
{
    let n = lent.parents.len();
    let p = lent.positive as usize;
    let (marks, rest) = rows.split_at_mut(n);
    entities::find_closest(lent.parents, lent.tags, &mut *rest);
    let from = lent.ends[p - 1] as usize;
    let closest = &mut rest[..n];
    mark(&lent.occurrences[from..], lent.tags, &mut *closest);
    keep(lent.parents, p, lent.ends, lent.occurrences, marks, closest);
}

// Lists the nodes that are flagged in the first n entries of work, and clears these.
fn finish(n: usize, work: &mut [u32], out: &mut [u32]) -> Result<u32, Refusal>
    requires { n ≤ length work.old }
    ensures { Finished n work.old out.old (reply_of result) work.new out.new }
{
    let answer = listing::list_flagged(&work[..n], out);
    seq::clear(&mut work[..n]);
    answer
}

// The valid SLCAs of p positive and q negative words, in increasing number, in out; n nodes.
//   Size, Tree, List, Count  as the index check has them; Size touches nothing
//   Room(m)                  out is shorter than the m answers
//   Ok(m)                    the m answers are written over the front of out; later entries stay
// Any refusal keeps out as lent. Under every answer but Size the first (p + q + 2)·n entries of work end as 0, and the rest is untouched.
// Without a negative word every SLCA is valid; with one there are four rows of work at least.
pub fn valid(lent: Lent, work: &mut [u32], out: &mut [u32]) -> Result<u32, Refusal>
    ensures { ValidSearched (index_of lent.entry) work.old out.old (reply_of result) work.new out.new }
{
    slca::flag_slca(lent, &mut *work)?;
    let n = lent.parents.len();
    if lent.negative > 0 {
        reject(lent, &mut work[..n * 4]);
    }
    finish(n, work, out)
}
