// The first pass over the words of a text, which writes to the table alone: each word is put into it, and the entries that the query's lists will have are counted.
ghost use Rattle.query.specs.Query.{query};
ghost use Rattle.plan.specs.Inner.{TallyPre, Tallied, GatherPre, WordsPre, Gathers};

use mentions::{Mention, Walk};
use query::Query;

// How many words of the query stand at a place for the first time at its node; `lasts` has for each word the last node at which it stood before, if any.
fn tally(
    text: &[u8],
    mention: Mention,
    q: &Query,
    hashes: &[u32],
    lasts: &mut [Option<usize>],
) -> usize
    requires { TallyPre text.now mention (query q.now.words.now q.now.ends.now) hashes.now lasts.old }
    ensures { Tallied text.now mention (query q.now.words.now q.now.ends.now) lasts.old result lasts.new }
{
    let Mention { place, hash, node } = mention;
    let mut count = 0;
    for j in 0..q.ends.len() {
        // the hash mostly tells, and is asked before the bytes of the word are cut out
        if hash != hashes[j] {
            continue;
        }
        if lasts[j] != Some(node) && query::is_asked(text, place, hash, q.word(j), hashes[j]) {
            lasts[j] = Some(node);
            count += 1;
        }
    }
    count
}

// Puts the words of a text that the judge has accepted into the table, in order, and counts the entries of the lists, if the distinct words fit the table. `hashes` are those of the query's
// words; the table is zero, and `lasts` has none.
fn gather_words(
    text: &[u8],
    q: &Query,
    hashes: &[u32],
    lasts: &mut [Option<usize>],
    slots: &mut [u32],
) -> Option<usize>
    requires { WordsPre text.now (query q.now.words.now q.now.ends.now) hashes.now lasts.old slots.old }
    ensures { Gathers text.now (query q.now.words.now q.now.ends.now) slots.old result slots.new }
{
    let mut total = 0;
    let mut walk = Walk::new();
    while let Some(mention) = walk.next(text) {
        if !dictionary::enter(text, &mut *slots, mention.place, mention.hash) {
            return None;
        }
        total += tally(text, mention, q, hashes, &mut *lasts);
    }
    Some(total)
}

// Fills the table, whatever it held, with the words of a text that the judge has accepted, and counts the entries of the lists, if the distinct words fit.
pub(crate) fn gather(text: &[u8], q: &Query, slots: &mut [u32]) -> Option<usize>
    requires { GatherPre text.now (query q.now.words.now q.now.ends.now) }
    ensures { Gathers text.now (query q.now.words.now q.now.ends.now) slots.old result slots.new }
{
    let mut hashes = [0u32; 8];
    q.hash_words(&mut hashes);
    let mut lasts = [None; 8];
    seq::clear(&mut *slots);
    gather_words(text, q, &hashes, &mut lasts, &mut *slots)
}
