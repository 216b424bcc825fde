// The words of a query, lent as bytes and ends (02, Q-5): whether they are 1 to 8 words of letters and digits, their hashes, and whether one of them stands at a place of a text.
// Slices of any length and any content may be lent.
#![tactic(auto)]

ghost use Rattle.std.specs.Prelude.{◌≡◌, ◌≤◌, ◌<◌, map, ◌&&◌, eqb, true, length};
ghost use Rattle.seq.specs.Lists.{same_list};
ghost use Rattle.seq.specs.Memory.{over};
ghost use Rattle.index.specs.Index.{start, word_list};
ghost use Rattle.words.specs.Runs.{lower};
ghost use Rattle.words.specs.Reading.{word_at};
ghost use Rattle.query.specs.Query.{query, rises, query_ok, hashes_of, hashes_after};
ghost use Rattle.query.specs.Inner.{HashPre};

// What is lent: the bytes of all words, one after the other, and the end of each.
#[derive(Clone, Copy)]
pub struct Query<'a> {
    pub words: &'a [u8],
    pub ends: &'a [u32],
}

impl<'a> Query<'a> {
    // Where the bytes of word j begin, and behind the last word where they all end.
    fn start(&self, j: usize) -> usize
        requires { j ≤ length self.now.ends.now }
        ensures { result ≡ start self.now.ends.now j }
    {
        if j == 0 { 0 } else { self.ends[j - 1] as usize }
    }

    // Whether each end is above the one before, and the first above 0.
    fn ends_rise(&self) -> bool
        ensures { result ≡ rises self.now.ends.now }
    {
        (0..self.ends.len()).all(|j| self.start(j) < self.ends[j] as usize)
    }

    // Whether there are 1 to 8 words, the ends rise to the length of the bytes, and every byte is a letter or a digit.
    pub fn is_query(&self) -> bool
        ensures { result ≡ query_ok (query self.now.words.now self.now.ends.now) }
    {
        let k = self.ends.len();
        if k == 0 || 8 < k || !self.ends_rise() || self.start(k) != self.words.len() {
            return false;
        }
        inplace::only_letters(self.words)
    }

    // The bytes of word j; none where there is no such word, and as many as there are where the ends are none of a query.
    pub fn word(&self, j: usize) -> &'a [u8]
        ensures { result.now ≡ word_list self.now.ends.now self.now.words.now j }
    {
        if self.ends.len() <= j {
            return &[];
        }
        let n = self.words.len();
        let from = self.start(j).min(n);
        let to = n.min(self.ends[j] as usize).max(from);
        &self.words[from..to]
    }

    // Writes the hash of each word, in lower case, to the front of `hashes`.
    fn put_hashes(&self, hashes: &mut [u32])
        requires { HashPre (query self.now.words.now self.now.ends.now) hashes.old }
        ensures { hashes.new ≡ over (hashes_of (query self.now.words.now self.now.ends.now)) hashes.old }
    {
        for j in 0..self.ends.len() {
            hashes[j] = inplace::hash_of(self.word(j));
        }
    }

    // The same, whatever is lent: nothing is written where this is no query, or has more words than there are hashes.
    pub fn hash_words(&self, hashes: &mut [u32])
        ensures { hashes.new ≡ hashes_after (query self.now.words.now self.now.ends.now) hashes.old }
    {
        if self.is_query() && self.ends.len() <= hashes.len() {
            self.put_hashes(hashes);
        }
    }
}

// Whether two hashes are one, and the word that stands at a place of the text is the word that is lent. Where the hashes are those of the two words, the second alone says it, and mostly the first tells.
pub fn is_asked(text: &[u8], at: usize, own: u32, word: &[u8], hash: u32) -> bool
    ensures { result ≡ (eqb own hash && same_list (map lower word.now) (word_at text.now at)) }
{
    own == hash && inplace::is_word(text, at, word)
}
