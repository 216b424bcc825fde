// A reader that holds the caller's text and its place in it, and gives one piece of markup per call (02, Q-2). The pieces are those of `markup`.
#![tactic(auto)]

ghost use Rattle.std.specs.Prelude.{◌≡◌};
ghost use Rattle.pieces.specs.Reading.{begun, place_after, Gives};

use markup::Piece;

// The text, and the place at which the next piece begins.
#[derive(Clone, Copy)]
pub struct Reader<'a> {
    pub text: &'a [u8],
    pub at: usize,
}

// A reader at the front of a text.
pub fn new<'a>(text: &'a [u8]) -> Reader<'a>
    ensures { result ≡ begun text.entry }
{
    Reader { text, at: 0 }
}

// The place behind a whole piece; where the piece is not whole, the place where it began.
fn place_after(piece: Piece, at: usize) -> usize
    ensures { result ≡ place_after piece at }
{
    if piece.whole { piece.end } else { at }
}

// The piece at the reader's place. Behind a whole piece the reader moves on; at the end of the text, and at a piece that is not whole, it stays.
pub fn next<'s, 'a>(r: &'s mut Reader<'a>) -> Piece
    ensures { Gives r.old result r.new }
{
    let at = r.at;
    let piece = markup::piece_at(r.text, at);
    r.at = place_after(piece, at);
    piece
}
