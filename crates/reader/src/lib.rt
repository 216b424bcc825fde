// The reader of XML (02, Q-2): from the bytes of a text to the parents, the tags and the places of its nodes.
// One entry point, `read`: SIZE, then MARKUP or TREE, whichever comes first in the text, then ROOM. Slices of any length and any content may be lent.
#![tactic(auto)]

mod build;

ghost use Rattle.std.specs.Prelude.{◌≡◌};
ghost use Rattle.index.specs.Replies.{reply_of};
ghost use Rattle.reader.specs.Read.{fits, lent, Reads};
ghost use Rattle.reader.specs.Inner.{FillPre, Filled};

use index::{Refusal, Reply};

// Whether n nodes fit four rows of these lengths, and three times as many entries the work.
#[tactic(auto, unfolding(crate::specs::Read::fits), using(crate::proofs::Reading::third))]
pub fn has_room(
    n: usize,
    parents: usize,
    tags: usize,
    firsts: usize,
    lasts: usize,
    work: usize,
) -> bool
    ensures { result ≡ fits n parents tags firsts lasts work }
{
    n <= parents && n <= tags && n <= firsts && n <= lasts && n <= work / 3
}

// Writes the nodes of a text that is accepted, over rows that are as long as there are nodes.
fn fill(
    text: &[u8],
    parents: &mut [u32],
    tags: &mut [u32],
    firsts: &mut [u32],
    lasts: &mut [u32],
    work: &mut [u32],
)
    requires { FillPre text.now (lent parents.old tags.old firsts.old lasts.old work.old) }
    ensures { Filled text.now work.old
        (lent parents.new tags.new firsts.new lasts.new work.new) }
{
    build::build(text, &mut *parents, &mut *tags, &mut *firsts, &mut *lasts);
    names::number(text, &*firsts, &mut *tags, &mut *work);
}

// Reads a text, as `read` does: the number of its nodes, or why it is refused.
#[tactic(auto, unfolding(crate::specs::Read::fits))]
fn try_read(
    text: &[u8],
    parents: &mut [u32],
    tags: &mut [u32],
    firsts: &mut [u32],
    lasts: &mut [u32],
    work: &mut [u32],
) -> Result<u32, Refusal>
    ensures { Reads text.now
        (lent parents.old tags.old firsts.old lasts.old work.old) (reply_of result)
        (lent parents.new tags.new firsts.new lasts.new work.new) }
{
    let total = judge::judge(text)?;
    let n = total as usize;
    if !has_room(
        n,
        parents.len(),
        tags.len(),
        firsts.len(),
        lasts.len(),
        work.len(),
    ) {
        return Err(Refusal::Room(total));
    }
    fill(
        text,
        &mut parents[..n],
        &mut tags[..n],
        &mut firsts[..n],
        &mut lasts[..n],
        work,
    );
    Ok(total)
}

// Reads a text of the profile: parents, tags, and each node's first and last place, over the fronts of the rows. The total is the number of nodes, n.
// SIZE for a text of more than 16,777,216 bytes; then whichever comes first: MARKUP at the first byte at which no text of the profile continues, or TREE at the
// first node of level 65 or numbered 65,536; last ROOM where a row is shorter than n, or work than 3 * n. A refusal leaves everything as it was.
// Accepted, the first 3 * n entries of work are 0, and whatever is behind the n nodes stays.
pub fn read(
    text: &[u8],
    parents: &mut [u32],
    tags: &mut [u32],
    firsts: &mut [u32],
    lasts: &mut [u32],
    work: &mut [u32],
) -> Reply
    ensures { Reads text.now
        (lent parents.old tags.old firsts.old lasts.old work.old) result
        (lent parents.new tags.new firsts.new lasts.new work.new) }
{
    try_read(text, parents, tags, firsts, lasts, work).into()
}
