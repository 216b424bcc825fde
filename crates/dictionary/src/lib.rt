// A table of the words of a text over lent slots, by the rule of `probing`: a slot is 0 where it is free, and else one more than the place in the text of the word that it holds.
// Words of the text are put in by their places, and any word that is lent as bytes is looked up. No remainder is taken in a loop, and none by 0. Text and slots may hold anything.
#![tactic(auto)]

ghost use Rattle.std.specs.Prelude.{ℕ, Bool, List, ◌≡◌, map};
ghost use Rattle.fnv.specs.Fnv.{hash_of};
ghost use Rattle.seq.specs.Lists.{same_list};
ghost use Rattle.words.specs.Runs.{lower};
ghost use Rattle.words.specs.Reading.{word_at};
ghost use Rattle.dictionary.specs.Slots.{stop_from, stop_of, Entered};
ghost use Rattle.dictionary.specs.Inner.{Stops};

// One more than the last place that a slot can name.
const PLACES: usize = u32::MAX as usize;

// The slot at which a search stops, from the slot that the hash gives on, cyclically: the first that is free, or whose word, named by its place, passes the test; none where there is none.
// So it is for each word of which the test says whether it is that of a place.
fn probe<F: Fn(usize) -> bool>(slots: &[u32], hash: u32, holds: F) -> Option<usize>
    requires { F.IsAlwaysCallable holds }
    ensures { (T : List ℕ) (q : List ℕ) → ((k : ℕ) (r : Bool) → F.post holds k r → r ≡ same_list q (word_at T k)) → Stops T q hash slots.now result }
{
    let mut i = (hash as usize).checked_rem(slots.len())?;
    for _ in 0..slots.len() {
        let x = slots[i] as usize;
        if x == 0 || holds(x - 1) {
            return Some(i);
        }
        i += 1;
        if i == slots.len() {
            i = 0;
        }
    }
    None
}

// The slot at which a search for the word at a place stops.
fn search(text: &[u8], slots: &[u32], at: usize, hash: u32) -> Option<usize>
    ensures { Stops text.now (word_at text.now at) hash slots.now result }
{
    probe(slots, hash, |place| inplace::same_word(text, at, place))
}

// The slot at which a search for the word at a place stops, from the slot that the hash gives on, cyclically: the first that is free or holds this word; the number of slots where
// there is none.
pub fn find(text: &[u8], slots: &[u32], at: usize, hash: u32) -> usize
    ensures { result ≡ stop_from text.now (word_at text.now at) hash slots.now }
{
    search(text, slots, at, hash).unwrap_or(slots.len())
}

// The same for a word that is lent, from its own hash on, without case.
pub fn lookup(text: &[u8], slots: &[u32], word: &[u8]) -> usize
    ensures { result ≡ stop_of text.now (map lower word.now) slots.now }
{
    probe(
        slots,
        inplace::hash_of(word),
        |place| inplace::is_word(text, place, word),
    )
    .unwrap_or(slots.len())
}

// Puts the word at a place into the table, where it is not in it yet, and says true. False, and the table as it was, where no slot is free for it, or where no slot
// can name its place.
pub fn enter(text: &[u8], slots: &mut [u32], at: usize, hash: u32) -> bool
    ensures { Entered text.now at hash slots.old result slots.new }
{
    if PLACES <= at {
        return false;
    }
    let Some(s) = search(text, &*slots, at, hash) else {
        return false;
    };
    if slots[s] == 0 {
        slots[s] = at as u32 + 1;
    }
    true
}
