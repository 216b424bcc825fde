// An index built from a text and the words of a query (02, Q-5): the table of the text's words, the tree, and for each word of the query its list, its end and its counts.
// One entry point, `build`: SIZE, then MARKUP or TREE, whichever comes first in the text, then ROOM. Slices of any length and any content may be lent.
#![tactic(auto)]

mod flags;
mod lists;

ghost use Rattle.query.specs.Query.{query};
ghost use Rattle.build.specs.Build.{lent, Builds};
ghost use Rattle.build.specs.Inner.{WritePre, Written};

use query::Query;

// Writes lists, ends and counts, over slices that are as long as these, for a text that the judge has accepted and the parents that were read from it.
fn write(
    text: &[u8],
    q: &Query,
    parents: &[u32],
    ends: &mut [u32],
    occurrences: &mut [u32],
    counts: &mut [u32],
)
    requires { WritePre text.now (query q.now.words.now q.now.ends.now) parents.now ends.old occurrences.old counts.old }
    ensures { Written text.now (query q.now.words.now q.now.ends.now) ends.new occurrences.new counts.new }
{
    let n = parents.len();
    flags::flag_all(text, q, n, &mut *counts);
    lists::write_lists(&*counts, n, &mut *ends, &mut *occurrences);
    lists::sum_rows(parents, q.ends.len(), &mut *counts);
}

// Builds the index of a text for the words of a query, which are lent as bytes and ends. The reply, with n as its total, is that of `plan`, which says when each refusal is given.
// Refused, every slot is 0 under ROOM, and all else is as it was.
// Accepted, the slots are the table, the fronts of the others are written, the first 3 * n entries of work are 0, and later entries stay.
pub fn build(
    text: &[u8],
    words: &[u8],
    word_ends: &[u32],
    slots: &mut [u32],
    parents: &mut [u32],
    tags: &mut [u32],
    firsts: &mut [u32],
    lasts: &mut [u32],
    ends: &mut [u32],
    occurrences: &mut [u32],
    counts: &mut [u32],
    work: &mut [u32],
) -> index::Reply
    ensures { Builds text.now (query words.now word_ends.now)
        (lent slots.old parents.old tags.old firsts.old lasts.old ends.old occurrences.old counts.old work.old) result
        (lent slots.new parents.new tags.new firsts.new lasts.new ends.new occurrences.new counts.new work.new) }
{
    let q = Query {
        words,
        ends: word_ends,
    };
    let p = plan::plan(
        text,
        &q,
        &mut *slots,
        plan::Sizes {
            parents: parents.len(),
            tags: tags.len(),
            firsts: firsts.len(),
            lasts: lasts.len(),
            ends: ends.len(),
            occurrences: occurrences.len(),
            counts: counts.len(),
            work: work.len(),
        },
    );
    if p.reply.refusal != index::ACCEPTED {
        return p.reply;
    }
    let n = p.reply.total as usize;
    let k = word_ends.len();
    let total = p.total;
    let read = reader::read(
        text,
        &mut *parents,
        &mut *tags,
        &mut *firsts,
        &mut *lasts,
        work,
    );
    write(
        text,
        &q,
        &parents[..n],
        &mut ends[..k],
        &mut occurrences[..total],
        &mut counts[..k * n],
    );
    read
}
