// The C interface: each function is one entry of a crate below it, under the name and with the parameters that include/sonquilate.h declares; `sonquilate_c` exports them.
// In C a slice is a pointer and then a length. What a function promises is what the function that it calls promises.
#![tactic(auto)]

ghost use Rattle.index.specs.Promises.{lent, Checked};
ghost use Rattle.slca.specs.Promises.{SlcaSearched};
ghost use Rattle.elca.specs.Promises.{ElcaSearched};
ghost use Rattle.valid.specs.Promises.{ValidSearched};
ghost use Rattle.depot.specs.Depot.{depot};
ghost use Rattle.merge.specs.Merge.{MergedElca, MergedSlca};
ghost use Rattle.reason.specs.Promises.{ExplainedInNumbers};
ghost use Rattle.reader.specs.Read.{Reads};
ghost use Rattle.reader.specs.Read as read;
ghost use Rattle.query.specs.Query.{query};
ghost use Rattle.build.specs.Build.{Builds};
ghost use Rattle.build.specs.Build as built;

use engine::Entry;
use index::{Lent, Reply};
use reason::Numbers;

// The index check alone.
pub fn sq_check(
    parents: &[u32],
    tags: &[u32],
    p: u32,
    q: u32,
    ends: &[u32],
    occurrences: &[u32],
    counts: &[u32],
    work: &mut [u32],
) -> Reply
    ensures { Checked (lent parents.now tags.now p q ends.now occurrences.now
        counts.now) work.old result work.new }
{
    let lent = Lent {
        parents,
        tags,
        positive: p,
        negative: q,
        ends,
        occurrences,
        counts,
    };
    index::check(lent, work).into()
}

// ELCA, with own counts.
pub fn sq_elca(
    parents: &[u32],
    tags: &[u32],
    p: u32,
    q: u32,
    ends: &[u32],
    occurrences: &[u32],
    counts: &[u32],
    work: &mut [u32],
    out: &mut [u32],
    own: &mut [u32],
) -> Reply
    ensures { ElcaSearched (lent parents.now tags.now p q ends.now occurrences.now
        counts.now) work.old out.old own.old result work.new out.new own.new }
{
    let lent = Lent {
        parents,
        tags,
        positive: p,
        negative: q,
        ends,
        occurrences,
        counts,
    };
    elca::elca(lent, work, out, own).into()
}

// SLCA.
pub fn sq_slca(
    parents: &[u32],
    tags: &[u32],
    p: u32,
    q: u32,
    ends: &[u32],
    occurrences: &[u32],
    counts: &[u32],
    work: &mut [u32],
    out: &mut [u32],
) -> Reply
    ensures { SlcaSearched (lent parents.now tags.now p q ends.now occurrences.now
        counts.now) work.old out.old result work.new out.new }
{
    let lent = Lent {
        parents,
        tags,
        positive: p,
        negative: q,
        ends,
        occurrences,
        counts,
    };
    slca::slca(lent, work, out).into()
}

// Valid SLCA, the search with NOT.
pub fn sq_valid(
    parents: &[u32],
    tags: &[u32],
    p: u32,
    q: u32,
    ends: &[u32],
    occurrences: &[u32],
    counts: &[u32],
    work: &mut [u32],
    out: &mut [u32],
) -> Reply
    ensures { ValidSearched (lent parents.now tags.now p q ends.now occurrences.now
        counts.now) work.old out.old result work.new out.new }
{
    let lent = Lent {
        parents,
        tags,
        positive: p,
        negative: q,
        ends,
        occurrences,
        counts,
    };
    valid::valid(lent, work, out).into()
}

// ELCA without an index's counts, with own counts.
pub fn sq_merge_elca(
    parents: &[u32],
    tags: &[u32],
    p: u32,
    q: u32,
    ends: &[u32],
    occurrences: &[u32],
    stack: &mut [Entry],
    out: &mut [u32],
    own: &mut [u32],
) -> Reply
    ensures { MergedElca (depot parents.now tags.now p q ends.now occurrences.now)
        stack.old out.old own.old result stack.new out.new own.new }
{
    merge::elca(parents, tags, p, q, ends, occurrences, stack, out, own)
}

// SLCA without an index's counts.
pub fn sq_merge_slca(
    parents: &[u32],
    tags: &[u32],
    p: u32,
    q: u32,
    ends: &[u32],
    occurrences: &[u32],
    stack: &mut [Entry],
    out: &mut [u32],
) -> Reply
    ensures { MergedSlca (depot parents.now tags.now p q ends.now occurrences.now)
        stack.old out.old result stack.new out.new }
{
    merge::slca(parents, tags, p, q, ends, occurrences, stack, out)
}

// Why a node is listed under ELCA, or is not.
pub fn sq_reason(
    parents: &[u32],
    tags: &[u32],
    p: u32,
    q: u32,
    ends: &[u32],
    occurrences: &[u32],
    counts: &[u32],
    node: u32,
    work: &mut [u32],
) -> Numbers
    ensures { ExplainedInNumbers (lent parents.now tags.now p q ends.now occurrences.now
        counts.now) node work.old result work.new }
{
    let lent = Lent {
        parents,
        tags,
        positive: p,
        negative: q,
        ends,
        occurrences,
        counts,
    };
    reason::in_numbers(reason::explain(lent, node, work))
}

// XML text into parents, tags, and each node's first and last place.
pub fn sq_read(
    text: &[u8],
    parents: &mut [u32],
    tags: &mut [u32],
    firsts: &mut [u32],
    lasts: &mut [u32],
    work: &mut [u32],
) -> Reply
    ensures { Reads text.now
        (read.lent parents.old tags.old firsts.old lasts.old work.old) result
        (read.lent parents.new tags.new firsts.new lasts.new work.new) }
{
    reader::read(text, parents, tags, firsts, lasts, work)
}

// XML text and the words of a query into the table of the text's words, the tree, and for each word of the query its list, its end and its counts.
pub fn sq_build(
    text: &[u8],
    words: &[u8],
    word_ends: &[u32],
    slots: &mut [u32],
    parents: &mut [u32],
    tags: &mut [u32],
    firsts: &mut [u32],
    lasts: &mut [u32],
    ends: &mut [u32],
    occurrences: &mut [u32],
    counts: &mut [u32],
    work: &mut [u32],
) -> Reply
    ensures { Builds text.now (query words.now word_ends.now)
        (built.lent slots.old parents.old tags.old firsts.old lasts.old ends.old
        occurrences.old counts.old work.old) result
        (built.lent slots.new parents.new tags.new firsts.new lasts.new ends.new
        occurrences.new counts.new work.new) }
{
    build::build(
        text,
        words,
        word_ends,
        slots,
        parents,
        tags,
        firsts,
        lasts,
        ends,
        occurrences,
        counts,
        work,
    )
}
