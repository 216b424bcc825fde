// A search without counts (02, Q-3; source document 001's older method): the occurrence lists are merged, from the last occurrence to the first, over a lent stack of open nodes.
// Nodes are closed in reverse document order then: the answers are counted by one merge, and written from the end of out and own by a second.
// One entry point, `search`.
#![tactic(auto)]

ghost use Rattle.std.specs.Prelude.{◌≡◌};
ghost use Rattle.index.specs.Replies.{reply_of};
ghost use Rattle.depot.specs.Depot.{depot_of};
ghost use Rattle.engine.specs.Search.{Searched};
ghost use Rattle.engine.specs.Inner.Passes.{job, FitsPre, fitting, ListPre, Listed, Answering};

use depot::Depot;
use index::Refusal;
use steps::Tally;

mod cursors;
mod entries;
mod passes;
mod steps;

// An open node: of each word's occurrences met under it so far, those that are its own, and those that a full node below it covers.
#[repr(C)]
#[derive(Clone, Copy)]
pub struct Entry {
    pub node: u32,
    pub own: [u32; 8],
    pub covered: [u32; 8],
}

// Whether there is room for m answers: in out, and unless the smallest are listed for k counts of each in own.
fn fits(smallest: bool, m: usize, k: usize, out: usize, own: usize) -> bool
    requires { FitsPre m k }
    ensures { result ≡ fitting smallest m k out own }
{
    m <= out && (smallest || m * k <= own)
}

// Counts the answers, and lists them if there is room for them.
fn list(
    depot: Depot,
    stack: &mut [Entry],
    out: &mut [u32],
    own: &mut [u32],
    smallest: bool,
) -> Result<u32, Refusal>
    requires { ListPre (job depot.parents.now depot.ends.now depot.occurrences.now) stack.old }
    ensures { Listed (job depot.entry.parents.now depot.entry.ends.now depot.entry.occurrences.now) smallest
        stack.old out.old own.old (reply_of result) stack.new out.new own.new }
{
    let m = passes::pass(
        stack,
        depot.parents,
        depot.ends,
        depot.occurrences,
        out,
        own,
        smallest,
        Tally::Counted(0),
    );
    if !fits(smallest, m, depot.ends.len(), out.len(), own.len()) {
        return Err(Refusal::Room(m as u32));
    }
    passes::pass(
        stack,
        depot.parents,
        depot.ends,
        depot.occurrences,
        out,
        own,
        smallest,
        Tally::Left(m),
    );
    Ok(m as u32)
}

// The answers, or why the call is refused: a refusal of the check touches nothing.
fn answer(
    depot: Depot,
    stack: &mut [Entry],
    out: &mut [u32],
    own: &mut [u32],
    smallest: bool,
) -> Result<u32, Refusal>
    ensures { Answering (depot_of depot.entry) smallest stack.old out.old own.old (reply_of result)
        stack.new out.new own.new }
{
    depot::check(depot, stack.len())?;
    list(depot, stack, out, own, smallest)
}

// The answers to p positive words, the smallest or the exclusive ones, in increasing number, in out; and of the exclusive ones p own counts each, in word order, in own.
//   Size, Tree, List  as the depot's check has them; Size touches nothing
//   Room(m)           out is shorter than the m answers or, where the exclusive ones are listed, own than m·p
//   Ok(m)             the first m entries of out are written and, of the exclusive ones, the first m·p of own; later entries stay
// Any refusal keeps out and own as lent. Under every answer but Size the first 64 entries of the stack end as zero, and the rest is untouched.
pub fn search(
    depot: Depot,
    stack: &mut [Entry],
    out: &mut [u32],
    own: &mut [u32],
    smallest: bool,
) -> Result<u32, Refusal>
    ensures { Searched (depot_of depot.entry) smallest stack.old out.old own.old (reply_of result)
        stack.new out.new own.new }
{
    let answer = answer(depot, &mut *stack, out, own, smallest);
    if answer != Err(Refusal::Size) {
        passes::clear(stack);
    }
    answer
}
