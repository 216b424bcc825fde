// One piece of markup at a place of a text: what it is, whether it is whole, and where it ends or breaks (`profile`, specs/Pieces).
// Each piece is read by octets::skip over its name, data or comment, by octets::white over its white space, and by a few tests of single bytes between them.
#![tactic(auto)]

ghost use Rattle.std.specs.Prelude.{◌≡◌, ◌+◌, ◌<◌, false, length, drop};
ghost use Rattle.profile.specs.Machine.{b0};
ghost use Rattle.profile.specs.Pieces.{meant};
ghost use Rattle.profile.specs.Pieces as pieces;
ghost use Rattle.markup.specs.Pieces.{piece_from, piece_at};
ghost use Rattle.markup.specs.Inner.{ended_piece, word_stop, reached_from, named_piece};

// The kinds of pieces: the end of the text; character data and references, to the next `<`; a comment; a start tag; an empty-element tag; an end tag; and a `<`
// after which no piece begins.
#[derive(Clone, Copy, PartialEq, Eq)]
pub enum Kind {
    End,
    Data,
    Comment,
    Start,
    Empty,
    Close,
    Nothing,
}

// A piece: its kind; whether it is whole; of a tag the place after its name, of data its first byte that is no white space; the place after
// the piece, or where it is not whole the place of the byte that breaks it.
#[derive(Clone, Copy)]
pub struct Piece {
    pub kind: Kind,
    pub whole: bool,
    pub middle: usize,
    pub end: usize,
}

// A piece of which a part is read last: that ends at a place, where it is whole, or breaks there.
fn ended(kind: Kind, middle: usize, last: Result<usize, usize>) -> Piece
    ensures { result ≡ ended_piece kind middle last }
{
    let (Ok(end) | Err(end)) = last;
    Piece {
        kind,
        whole: last.is_ok(),
        middle,
        end,
    }
}

// A fixed word at a place: the place behind it, or that up to which it stands there.
fn word_end(word: &[u8], text: &[u8], at: usize) -> Result<usize, usize>
    ensures { result ≡ reached_from at (word_stop word.now (drop at text.now)) }
{
    let n = octets::common(word, text, at);
    if n == word.len() {
        Ok(at + n)
    } else {
        Err(at + n)
    }
}

// The reference that the bytes at a place may become, with its `;`: the first byte, or two, tell.
fn word_of(text: &[u8], at: usize) -> &'static [u8]
    ensures { result.now ≡ meant (drop at text.now) }
{
    if octets::is_at(text, at, b'l') {
        return b"lt;";
    }
    if octets::is_at(text, at, b'g') {
        return b"gt;";
    }
    if octets::is_at(text, at, b'q') {
        return b"quot;";
    }
    if octets::is_at(text, at, b'a') && octets::is_at(text, at + 1, b'p') {
        return b"apos;";
    }
    b"amp;"
}

// A reference, after its `&`.
fn reference_end(text: &[u8], at: usize) -> Result<usize, usize>
    ensures { result ≡ reached_from at (pieces.reference_stop (drop at text.now)) }
{
    word_end(word_of(text, at), text, at)
}

// Character data and references, to the next `<` or the end of the text. Brackets are passed over together: only a `>` at once after two of them,
// or more, asks how many there were, and breaks the data.
fn data_end(text: &[u8], at: usize) -> Result<usize, usize>
    ensures { result ≡ reached_from at (pieces.data_stop b0 0 (drop at text.now)) }
{
    let mut i = at;
    loop {
        i = octets::skip(text, i, octets::PLAINS);
        if text.len() <= i {
            return Ok(i);
        }
        match text[i] {
            b'<' => return Ok(i),
            b'&' => i = reference_end(text, i + 1)?,
            b'>' => i += 1,
            b']' => {
                let j = octets::skip(text, i + 1, octets::BRACKETS);
                if i + 1 < j && octets::is_at(text, j, b'>') {
                    return Err(j);
                }
                i = j;
            }
            _ => return Err(i),
        }
    }
}

// What is left of data behind its white space: often nothing.
fn rest_end(text: &[u8], at: usize) -> Result<usize, usize>
    ensures { result ≡ reached_from at (pieces.data_stop b0 0 (drop at text.now)) }
{
    if octets::is_at(text, at, b'<') {
        return Ok(at);
    }
    data_end(text, at)
}

// A `>` at a place.
fn greater_end(text: &[u8], at: usize) -> Result<usize, usize>
    ensures { result ≡ reached_from at (pieces.close_stop (drop at text.now)) }
{
    if octets::is_at(text, at, b'>') {
        Ok(at + 1)
    } else {
        Err(at)
    }
}

// The body of a comment and its `-->`. After two dashes only a `>` may stand.
fn body_end(text: &[u8], at: usize) -> Result<usize, usize>
    ensures { result ≡ reached_from at (pieces.body_stop false (drop at text.now)) }
{
    let mut i = at;
    loop {
        i = octets::skip(text, i, octets::COMMENTEDS);
        if !octets::is_at(text, i, b'-') {
            return Err(i);
        }
        i += 1;
        if octets::is_at(text, i, b'-') {
            return greater_end(text, i + 1);
        }
    }
}

// A comment, after its `<!`.
fn comment_end(text: &[u8], at: usize) -> Result<usize, usize>
    ensures { result ≡ reached_from at (pieces.comment_stop (drop at text.now)) }
{
    let body = word_end(b"--", text, at)?;
    body_end(text, body)
}

// Where the name that begins at a place ends; the place itself where none begins. The bytes below `:` begin no name, though `-`, `.` and the digits go on with one; from
// `:` on each byte that goes on with a name begins one too.
fn name_end(text: &[u8], at: usize) -> usize
    ensures { result ≡ at + pieces.name_size (drop at text.now) }
{
    if text.len() <= at || text[at] < b':' {
        return at;
    }
    octets::skip(text, at, octets::NAMECHARS)
}

// An end tag, of which the `</` stands at a place.
fn close_piece(text: &[u8], at: usize) -> Piece
    requires { at + 1 < length text.now }
    ensures { result ≡ piece_from at (pieces.close_piece (drop (at + 2) text.now)) }
{
    let name = at + 2;
    let middle = name_end(text, name);
    if middle == name {
        return ended(Kind::Close, middle, Err(middle));
    }
    let i = octets::white(text, middle);
    ended(Kind::Close, middle, greater_end(text, i))
}

// A start tag or an empty-element tag, of which the `<` stands at a place; Nothing where no name follows.
fn tag_piece(text: &[u8], at: usize) -> Piece
    requires { at < length text.now }
    ensures { result ≡ piece_from at (named_piece (drop (at + 1) text.now)) }
{
    let name = at + 1;
    let middle = name_end(text, name);
    if middle == name {
        return ended(Kind::Nothing, middle, Err(middle));
    }
    let i = octets::white(text, middle);
    if octets::is_at(text, i, b'/') {
        return ended(Kind::Empty, middle, greater_end(text, i + 1));
    }
    ended(Kind::Start, middle, greater_end(text, i))
}

// The piece at a place of a text: End at the end of the text, and at any place past it.
pub fn piece_at(text: &[u8], at: usize) -> Piece
    ensures { result ≡ piece_at text.now at }
{
    if text.len() <= at {
        return ended(Kind::End, at, Ok(at));
    }
    if text[at] != b'<' {
        let middle = octets::white(text, at);
        return ended(Kind::Data, middle, rest_end(text, middle));
    }
    let next = at + 1;
    if octets::is_at(text, next, b'!') {
        let middle = at + 2;
        return ended(Kind::Comment, middle, comment_end(text, middle));
    }
    if octets::is_at(text, next, b'/') {
        return close_piece(text, at);
    }
    tag_piece(text, at)
}
