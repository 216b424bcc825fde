// The piece of markup at a place of a text that was judged: it is told by its last byte, and nothing is judged again.
// One entry point, `skim_at`. Slices of any length and any content may be lent; what is said of a text that is none of the profile is in specs/Skim.
#![tactic(auto)]

ghost use Rattle.std.specs.Prelude.{◌≡◌, ◌+◌, ◌<◌, [], ◌∷◌, length, drop};
ghost use Rattle.profile.specs.Bytes.{'-'};
ghost use Rattle.markup.specs.Pieces.{piece_from};
ghost use Rattle.skim.specs.Skim.{until, skim_tag, skim_at};

use markup::{Kind, Piece};

// The first place from `at` on at which two dashes stand, or the end of the text; `at` itself past the end.
fn dashes(text: &[u8], at: usize) -> usize
    ensures { result ≡ at + until ('-' ∷ '-' ∷ []) (drop at text.now) }
{
    let mut i = octets::find(text, at, b'-');
    while i < text.len() && !octets::is_at(text, i + 1, b'-') {
        i = octets::find(text, i + 1, b'-');
    }
    i
}

// The tag of which the `<` stands at a place.
fn tag(text: &[u8], at: usize) -> Piece
    requires { at < length text.now }
    ensures { result ≡ piece_from at (skim_tag (drop at text.now)) }
{
    let next = at + 1;
    let last = octets::find(text, next, b'>');
    let kind = if octets::is_at(text, next, b'/') {
        Kind::Close
    } else if text[last - 1] == b'/' {
        Kind::Empty
    } else {
        Kind::Start
    };
    Piece {
        kind,
        whole: true,
        middle: at,
        end: last + 1,
    }
}

// The piece at a place of a text: End at the end of the text, and at any place past it. It is always whole; of markup the middle is where it begins.
pub fn skim_at(text: &[u8], at: usize) -> Piece
    ensures { result ≡ skim_at text.now at }
{
    if text.len() <= at {
        return Piece {
            kind: Kind::End,
            whole: true,
            middle: at,
            end: at,
        };
    }
    if text[at] != b'<' {
        let middle = octets::rise(text, at);
        let end = octets::find(text, middle, b'<');
        return Piece {
            kind: Kind::Data,
            whole: true,
            middle,
            end,
        };
    }
    if octets::is_at(text, at + 1, b'!') {
        let end = dashes(text, at + 4) + 3;
        return Piece {
            kind: Kind::Comment,
            whole: true,
            middle: at,
            end,
        };
    }
    tag(text, at)
}
