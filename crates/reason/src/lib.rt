// Why a node is listed under ELCA, or is not (02, Q-4).
// Two entry points: `explain`, and `in_numbers`, which puts an explanation into the numbers that C takes.
#![tactic(auto)]

mod finding;
mod flags;

ghost use Rattle.std.specs.Prelude.{◌≡◌};
ghost use Rattle.index.specs.Promises.{index_of};
ghost use Rattle.reason.specs.Promises.{Explained, numbers_of};
ghost use Rattle.reason.specs.Inner.{LookPre, Looked, explaining};

use finding::Why;
use index::{Lent, Refusal, Reply};

// The numbers of the cases. 0 is none of them.
pub const NOT_FULL: u32 = 1;

pub const NOT_LISTED: u32 = 2;

pub const LISTED: u32 = 3;

// The reason under ELCA. The words are counted from 0.
//   NotFull(j)     word j has no occurrence under the node, and each word before it has one
//   NotListed(j)   the node is full; its own count for word j is 0, and that for each word before it is not
//   Listed         the node is full, and no own count is 0
#[derive(Clone, Copy)]
pub enum Reason {
    NotFull(u32),
    NotListed(u32),
    Listed,
}

// What `explain` gives: the reply, the reason, and where the node is listed the lowest of its own occurrences of each word. What is not said is 0.
#[derive(Clone, Copy)]
pub struct Explanation {
    pub reply: Reply,
    pub reason: Reason,
    pub occurrences: [u32; 8],
}

// The same in numbers.
#[repr(C)]
#[derive(Clone, Copy)]
pub struct Numbers {
    pub reply: Reply,
    pub reason: u32,
    pub word: u32,
    pub occurrences: [u32; 8],
}

// An explanation of what is found, or of a refusal.
impl From<Result<Why, Refusal>> for Explanation {
    ghost from_gives = { λ found e. e ≡ explaining found };

    fn from(found: Result<Why, Refusal>) -> Explanation {
        let reply = Reply::from(found.map(|_| ()));
        let (reason, occurrences) = match found {
            Ok(Why::NotListed(j)) => (Reason::NotListed(j), [0; 8]),
            Ok(Why::Listed(lowest)) => (Reason::Listed, lowest),
            Ok(Why::NotFull(j)) => (Reason::NotFull(j), [0; 8]),
            Err(_) => (Reason::NotFull(0), [0; 8]),
        };
        Explanation {
            reply,
            reason,
            occurrences,
        }
    }
}

// The search for the reason on an index that is checked, with a row of zeros for the nodes, which it leaves.
fn look(lent: Lent, v: usize, row: &mut [u32]) -> Why
    requires { LookPre lent.parents.now lent.ends.now lent.occurrences.now lent.counts.now v row.old }
    ensures { Looked lent.entry.parents.now lent.entry.ends.now lent.entry.occurrences.now v row.old result row.new }
{
    let k = lent.ends.len();
    if let Some(j) = flags::first_missing(lent.counts, lent.parents.len(), k, v) {
        return Why::NotFull(j as u32);
    }
    let end = flags::flag_own(lent.parents, lent.counts, k, v, &mut *row);
    let found = finding::find(lent.ends, lent.occurrences, &*row);
    seq::clear(&mut row[v..end]);
    found
}

// The reason, or why the call is refused: Size for a negative word, as the index check has it, or Node.
fn find(lent: Lent, node: u32, work: &mut [u32]) -> Result<Why, Refusal>
    ensures { Explained (index_of lent.entry) node work.old (explaining result) work.new }
{
    if lent.negative != 0 {
        return Err(Refusal::Size);
    }
    index::check(lent, &mut *work)?;
    let n = lent.parents.len();
    let v = node as usize;
    if n <= v {
        return Err(Refusal::Node);
    }
    Ok(look(lent, v, &mut work[..n]))
}

// Why `node` is listed under ELCA of p positive words, or is not; n nodes.
//   1 SIZE   a negative word, or as the index check has it; nothing is touched
//   2 TREE, 3 LIST, 4 COUNT   as the index check has them
//   10 NODE  the node is n or more; place and total 0
//   0        place and total 0: the reason, and where it is `Listed` the lowest own occurrence of each word, entries past p being 0
// A refusal gives `NotFull(0)` and zeros. Under every reply but SIZE the first (p + 2)·n entries of work end as 0, and the rest is untouched.
pub fn explain(lent: Lent, node: u32, work: &mut [u32]) -> Explanation
    ensures { Explained (index_of lent.entry) node work.old result work.new }
{
    find(lent, node, work).into()
}

// An explanation in numbers: the case's number and its word, 0 where it names none; both 0 under a refusal.
pub fn in_numbers(e: Explanation) -> Numbers
    ensures { result ≡ numbers_of e }
{
    let reply = e.reply;
    let occurrences = e.occurrences;
    if reply.refusal != index::ACCEPTED {
        return Numbers {
            reply,
            reason: 0,
            word: 0,
            occurrences,
        };
    }
    let reason = e.reason;
    match reason {
        Reason::NotFull(j) => Numbers {
            reply,
            reason: NOT_FULL,
            word: j,
            occurrences,
        },
        Reason::NotListed(j) => Numbers {
            reply,
            reason: NOT_LISTED,
            word: j,
            occurrences,
        },
        Reason::Listed => Numbers {
            reply,
            reason: LISTED,
            word: 0,
            occurrences,
        },
    }
}
