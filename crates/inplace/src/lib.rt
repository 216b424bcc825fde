// Words that stand in a text, each by the place of its first byte: comments may stand inside them, and letters are compared without case.
// A word is hashed, compared with another of the text, or with one that is lent as bytes. The text is any bytes: no reader need have accepted it.
#![tactic(auto)]

ghost use Rattle.std.specs.Prelude.{◌≡◌, map};
ghost use Rattle.seq.specs.Lists.{every_of, same_list};
ghost use Rattle.fnv.specs.Fnv.{hash_of};
ghost use Rattle.words.specs.Runs.{word_byte};
ghost use Rattle.words.specs.Runs as runs;
ghost use Rattle.words.specs.Reading.{word_at};
ghost use Rattle.inplace.specs.Hashed.{hashed_at};
ghost use Rattle.inplace.specs.Inner.{CommentAt, LetterFrom};

// The hash of a word, and the place behind its last letter or digit.
#[derive(Clone, Copy)]
pub struct Hashed {
    pub hash: u32,
    pub end: usize,
}

// A letter or digit of a word, in lower case, and the place behind it.
#[derive(Clone, Copy)]
struct Letter {
    byte: u8,
    end: usize,
}

// In lower case.
#[tactic(auto, using(crate::proofs::Letters::lowered))]
fn lower(x: u8) -> u8
    ensures { result ≡ runs.lower x }
{
    x.to_ascii_lowercase()
}

// A letter in lower case, a digit as it is, and 0 for any other byte. The bit of 32 makes one test of the letters of both cases: each byte of a text is folded.
pub fn fold(x: u8) -> u8
    ensures { result ≡ runs.folded x }
{
    let y = x | 32;
    if y.is_ascii_lowercase() {
        y
    } else if x.is_ascii_digit() {
        x
    } else {
        0
    }
}

// The place behind the comment that stands at a place, if one does.
fn behind(text: &[u8], at: usize) -> Option<usize>
    ensures { CommentAt text.now at result }
{
    if octets::is_at(text, at, b'<') && octets::is_at(text, at + 1, b'!') {
        Some(skim::skim_at(text, at).end)
    } else {
        None
    }
}

// The next letter or digit of the word that goes on at a place, comments passed over, if it has one more.
fn letter_from(text: &[u8], at: usize) -> Option<Letter>
    ensures { LetterFrom text.now at result }
{
    let mut i = at;
    while i < text.len() {
        let byte = fold(text[i]);
        if byte != 0 {
            return Some(Letter { byte, end: i + 1 });
        }
        i = behind(text, i)?;
    }
    None
}

// The hash of the word that stands at a place, in lower case: that of no bytes where no letter or digit stands there. And the place behind its last letter or digit.
#[inline(never)]
pub fn hash_word(text: &[u8], at: usize) -> Hashed
    ensures { result ≡ hashed_at text.now at }
{
    let mut hash = fnv::START;
    let mut end = at;
    while let Some(letter) = letter_from(text, end) {
        hash = fnv::step(hash, letter.byte);
        end = letter.end;
    }
    Hashed { hash, end }
}

// Whether the words that stand at a and b are the same. A place past the end, or at no letter or digit, has the word of no bytes.
pub fn same_word(text: &[u8], a: usize, b: usize) -> bool
    ensures { result ≡ same_list (word_at text.now a) (word_at text.now b) }
{
    let mut i = a;
    let mut j = b;
    while let Some(p) = letter_from(text, i) {
        match letter_from(text, j) {
            Some(q) if p.byte == q.byte => {
                i = p.end;
                j = q.end;
            }
            _ => return false,
        }
    }
    letter_from(text, j).is_none()
}

// Whether the word that stands at a place is the one that is lent, without case.
pub fn is_word(text: &[u8], at: usize, word: &[u8]) -> bool
    ensures { result ≡ same_list (map runs.lower word.now) (word_at text.now at) }
{
    let mut i = at;
    for x in word {
        match letter_from(text, i) {
            Some(letter) if letter.byte == lower(*x) => i = letter.end,
            _ => return false,
        }
    }
    letter_from(text, i).is_none()
}

// The hash of a word that is lent, in lower case.
pub fn hash_of(word: &[u8]) -> u32
    ensures { result ≡ hash_of (map runs.lower word.now) }
{
    let mut hash = fnv::START;
    for x in word {
        hash = fnv::step(hash, lower(*x));
    }
    hash
}

// Whether every byte of a word that is lent is a letter or a digit.
pub fn only_letters(word: &[u8]) -> bool
    ensures { result ≡ every_of word_byte word.now }
{
    word.iter().all(u8::is_ascii_alphanumeric)
}
