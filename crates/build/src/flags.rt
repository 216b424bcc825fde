// The second pass over the words of a text: in the counts, each node at which a word of the query stands gets a flag of 1.
ghost use Rattle.query.specs.Query.{query};
ghost use Rattle.build.specs.Inner.{FlagPre, Flags, FlagWordsPre, FlagAllPre, FlagsAll};

use mentions::{Mention, Walk};
use query::Query;

// Flags the node for each word of the query that stands at a place of the text. Word j's flags are the n entries from j * n on.
fn flag(text: &[u8], mention: Mention, q: &Query, hashes: &[u32], n: usize, counts: &mut [u32])
    requires { FlagPre text.now mention (query q.now.words.now q.now.ends.now) hashes.now n counts.old }
    ensures { Flags text.now mention (query q.now.words.now q.now.ends.now) n counts.old counts.new }
{
    let Mention { place, hash, node } = mention;
    for j in 0..q.ends.len() {
        // the hash mostly tells, and is asked before the bytes of the word are cut out
        if hash != hashes[j] {
            continue;
        }
        if query::is_asked(text, place, hash, q.word(j), hashes[j]) {
            counts[j * n + node] = 1;
        }
    }
}

// Flags the nodes for all words of a text that the judge has accepted with n nodes. `hashes` are those of the query's words; the counts are zero.
fn flag_words(text: &[u8], q: &Query, hashes: &[u32], n: usize, counts: &mut [u32])
    requires { FlagWordsPre text.now (query q.now.words.now q.now.ends.now) hashes.now n counts.old }
    ensures { FlagsAll text.now (query q.now.words.now q.now.ends.now) n counts.new }
{
    let mut walk = Walk::new();
    while let Some(mention) = walk.next(text) {
        flag(text, mention, q, hashes, n, &mut *counts);
    }
}

// The same over counts that may hold anything.
pub(crate) fn flag_all(text: &[u8], q: &Query, n: usize, counts: &mut [u32])
    requires { FlagAllPre text.now (query q.now.words.now q.now.ends.now) n counts.old }
    ensures { FlagsAll text.now (query q.now.words.now q.now.ends.now) n counts.new }
{
    let mut hashes = [0u32; 8];
    q.hash_words(&mut hashes);
    seq::clear(&mut *counts);
    flag_words(text, q, &hashes, n, &mut *counts);
}
