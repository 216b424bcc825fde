// What one piece of markup does to the judge: it ends the judge, or goes on behind the piece.
// The names of the open elements are kept in a row of 64: an element of level 65 is refused before it is opened.
ghost use Rattle.std.specs.Prelude.{◌≡◌, ◌≤◌};
ghost use Rattle.judge.specs.Inner.{behind, broken_at, over_at, is_full, is_closed, passed, space_turn, DataPre, data_turn, TagPre, tag_turn, ClosePre, close_turn, BarePre, Bare, TurnPre, Told, turn_of};

use index::Refusal;
use markup::{Kind, Piece};
use std::ops::ControlFlow::{self, Break, Continue};

// The name of an open element: where it stands in the text, and its size.
#[derive(Clone, Copy)]
pub(crate) struct Name {
    pub start: usize,
    pub size: usize,
}

// Between two pieces: the open elements, the nodes met, whether the data since the last tag makes a node, and whether the root was met.
#[derive(Clone, Copy)]
pub(crate) struct State {
    pub depth: usize,
    pub met: u32,
    pub solid: bool,
    pub rooted: bool,
}

impl State {
    // Whether the next node would be over a limit.
    #[tactic(auto, unfolding(crate::specs::Inner::is_full))]
    fn is_full(self) -> bool
        ensures { result ≡ is_full self.depth self.met }
    {
        64 <= self.depth || 65536 <= self.met
    }

    // Whether the root is closed.
    #[tactic(auto, unfolding(crate::specs::Inner::is_closed))]
    fn is_closed(self) -> bool
        ensures { result ≡ is_closed self.depth self.rooted }
    {
        self.depth == 0 && self.rooted
    }

    // Behind a tag, with so many elements open.
    pub fn behind(self, depth: usize) -> State
        ensures { result ≡ behind self depth }
    {
        State {
            depth,
            solid: false,
            ..self
        }
    }
}

// A turn goes on to a state, or ends the judge, with the number of the nodes or a refusal.
pub(crate) type Turn = ControlFlow<Result<u32, Refusal>, State>;

// MARKUP at a place.
fn broken(at: usize) -> Turn
    requires { at ≤ 4294967295 }
    ensures { result ≡ broken_at «at» }
{
    Break(Err(Refusal::Markup(at as u32)))
}

// TREE at a node.
fn over(node: u32) -> Turn
    ensures { result ≡ over_at node }
{
    Break(Err(Refusal::Tree(node)))
}

// A piece that meets no node.
fn pass(p: Piece, s: State) -> Turn
    requires { p.end ≤ 4294967295 }
    ensures { result ≡ passed p s }
{
    if !p.whole {
        return broken(p.end);
    }
    Continue(s)
}

// Data outside the root must be white space.
fn space_turn(p: Piece, s: State) -> Turn
    requires { p.middle ≤ 4294967295 }
    ensures { result ≡ space_turn p s }
{
    if p.whole && p.middle == p.end {
        return Continue(State { depth: 0, ..s });
    }
    broken(p.middle)
}

// Data: inside the root it makes a node where it is the first since the last tag that is not all white space.
fn data_turn(p: Piece, s: State) -> Turn
    requires { DataPre p s }
    ensures { result ≡ data_turn p s }
{
    if s.depth == 0 {
        return space_turn(p, s);
    }
    if p.end <= p.middle || s.solid {
        return pass(p, s);
    }
    if s.is_full() {
        return over(s.met);
    }
    if !p.whole {
        return broken(p.end);
    }
    Continue(State {
        met: s.met + 1,
        solid: true,
        ..s
    })
}

// A start tag or an empty-element tag: a node, unless the root is closed. Behind it so many elements are open.
fn tag_turn(at: usize, p: Piece, s: State, depth: usize) -> Turn
    requires { TagPre «at» p s }
    ensures { result ≡ tag_turn «at» p s depth }
{
    if s.is_closed() {
        return broken(at + 1);
    }
    if !p.whole {
        return broken(p.end);
    }
    if s.is_full() {
        return over(s.met);
    }
    Continue(State {
        met: s.met + 1,
        rooted: true,
        ..s.behind(depth)
    })
}

// An end tag: it must have the name of the element that was opened last.
fn close_turn(text: &[u8], at: usize, p: Piece, s: State, names: &[Name; 64]) -> Turn
    requires { ClosePre text.now «at» p s names.now }
    ensures { result ≡ close_turn text.now «at» p s names.now }
{
    if s.depth == 0 {
        return broken(at + 1);
    }
    let top = s.depth - 1;
    let Name { start, size } = names[top];
    let name = at + 2;
    let same = octets::common(&text[start..start + size], text, name);
    if same != size || p.middle != name + size {
        return broken(name + same);
    }
    if !p.whole {
        return broken(p.end);
    }
    Continue(s.behind(top))
}

// The place behind the end tag of the element that was opened last, where it stands at a place without white space. Nearly all end tags are such,
// and one comparison with the name that is open finds them right.
pub(crate) fn bare_close(text: &[u8], at: usize, depth: usize, names: &[Name; 64]) -> Option<usize>
    requires { BarePre text.now «at» depth names.now }
    ensures { Bare text.now «at» depth names.now result }
{
    if !octets::is_at(text, at, b'<') || !octets::is_at(text, at + 1, b'/') {
        return None;
    }
    if depth == 0 {
        return None;
    }
    let here = at + 2;
    let Name { start, size } = names[depth - 1];
    let end = here + size;
    if !octets::is_at(text, end, b'>') {
        return None;
    }
    if octets::common(&text[start..start + size], text, here) != size {
        return None;
    }
    Some(end + 1)
}

// The turn that the piece at a place gives.
pub(crate) fn take_turn(text: &[u8], at: usize, p: Piece, s: State, names: &mut [Name; 64]) -> Turn
    requires { TurnPre text.now «at» p s names.old }
    ensures { Told (turn_of text.now «at» s names.old) text.now result names.new }
{
    match p.kind {
        Kind::End => {
            if s.is_closed() {
                return Break(Ok(s.met));
            }
            broken(at)
        }
        Kind::Data => data_turn(p, s),
        Kind::Close => close_turn(text, at, p, s, names),
        Kind::Empty => tag_turn(at, p, s, s.depth),
        Kind::Start => {
            if s.depth < 64 {
                names[s.depth] = Name {
                    start: at + 1,
                    size: p.middle - (at + 1),
                };
            }
            tag_turn(at, p, s, s.depth + 1)
        }
        Kind::Comment | Kind::Nothing => pass(p, s),
    }
}
