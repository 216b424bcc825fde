// The second pass over a text, which the judge has accepted: it writes each node's parent, its mark (1 for an element, 0 for data) and the places of its first
// and its last byte. Every piece of such a text is whole, so it is skimmed and not judged again. The numbers of the open elements are kept in a row of 64. The
// data since the last tag is held until the next tag comes: only then it is known where it ends, and whether it makes a node.
ghost use Rattle.std.specs.Prelude.{◌≡◌, ◌<◌};
ghost use Rattle.profile.specs.Reader.{top};
ghost use Rattle.reader.specs.Inner.{rows, store_of, path_in, TopPre, NodePre, add_node, Room, flushed_store, data_store, TagPre, tag_store, TurnPre, turn_store, SameRows, rows_of, RunPre, BuildPre, Built};

use markup::{Kind, Piece};

// The data since the last tag: the places of its first and its last byte, and whether it makes a node.
#[derive(Clone, Copy)]
struct Held {
    first: usize,
    last: usize,
    solid: bool,
}

// The rows of the nodes, and what is known between two pieces: the open elements, how many they are, the nodes written, and the data held.
#[derive(Drop)]
struct Builder<'a> {
    parents: &'a mut [u32],
    marks: &'a mut [u32],
    firsts: &'a mut [u32],
    lasts: &'a mut [u32],
    opens: [usize; 64],
    depth: usize,
    met: usize,
    held: Option<Held>,
}

impl Builder<'_> {
    // The innermost open element, or 0 where none is open.
    fn top(&self) -> usize
        requires { TopPre self.now.depth self.now.opens }
        ensures { result ≡ top (path_in self.now.opens self.now.depth) }
    {
        if self.depth == 0 {
            0
        } else {
            self.opens[self.depth - 1]
        }
    }

    // Writes the entries of one node more, a child of the innermost open element.
    fn put(&mut self, mark: u32, first: usize, last: usize)
        requires { NodePre first last (store_of self.old) }
        ensures stored { store_of self.new ≡ add_node mark first last (store_of self.old) }
        ensures same { SameRows self.old self.new }
    {
        let v = self.met;
        self.parents[v] = self.top() as u32;
        self.marks[v] = mark;
        self.firsts[v] = first as u32;
        self.lasts[v] = last as u32;
        self.met = v + 1;
    }

    // Writes the node of the data held, if it makes one. None is held then.
    fn flush(&mut self)
        requires { Room (store_of self.old) }
        ensures stored { store_of self.new ≡ flushed_store (store_of self.old) }
        ensures same { SameRows self.old self.new }
    {
        match self.held.take() {
            Some(held) if held.solid => self.put(0, held.first, held.last),
            Some(_) | None => {}
        }
    }

    // Data. Outside the root it is white space, and is not held.
    fn data(&mut self, at: usize, p: Piece)
        requires { «at» < p.end }
        ensures stored { store_of self.new ≡ data_store «at» p (store_of self.old) }
        ensures same { SameRows self.old self.new }
    {
        if self.depth == 0 {
            return;
        }
        let last = p.end - 1;
        let solid = p.middle < p.end;
        self.held = Some(match self.held {
            None => Held {
                first: at,
                last,
                solid,
            },
            Some(held) => Held {
                last,
                solid: held.solid || solid,
                ..held
            },
        });
    }

    // A tag: the node of the data before it. An end tag then is the last place of the element that was opened last; another tag has a node of its own, and
    // the element of a start tag is open then.
    fn tag(&mut self, at: usize, p: Piece)
        requires { TagPre «at» p (store_of self.old) }
        ensures stored { store_of self.new ≡ tag_store «at» p (store_of self.old) }
        ensures same { SameRows self.old self.new }
    {
        self.flush();
        let last = p.end - 1;
        match p.kind {
            Kind::Close => {
                let top = self.top();
                self.lasts[top] = last as u32;
                self.depth -= 1;
            }
            Kind::Start => {
                let v = self.met;
                self.put(1, at, last);
                self.opens[self.depth] = v;
                self.depth += 1;
            }
            _ => self.put(1, at, last),
        }
    }

    // What one piece does. A comment does nothing.
    fn turn(&mut self, at: usize, p: Piece)
        requires { TurnPre «at» p (store_of self.old) }
        ensures stored { store_of self.new ≡ turn_store «at» p (store_of self.old) }
        ensures same { SameRows self.old self.new }
    {
        match p.kind {
            Kind::Data => self.data(at, p),
            Kind::Comment => {}
            _ => self.tag(at, p),
        }
    }

    // Goes over the pieces of a text that is accepted, from its beginning to its end.
    fn run(&mut self, text: &[u8])
        requires { RunPre text.now (store_of self.old) }
        ensures built { Built text.now (rows_of self.new) }
        ensures same { SameRows self.old self.new }
    {
        let mut at: usize = 0;
        loop {
            let p = skim::skim_at(text, at);
            match p.kind {
                Kind::End => return,
                _ => self.turn(at, p),
            }
            at = p.end;
        }
    }
}

// Writes the nodes of a text that is accepted over four rows, each as long as there are nodes.
pub(crate) fn build(
    text: &[u8],
    parents: &mut [u32],
    marks: &mut [u32],
    firsts: &mut [u32],
    lasts: &mut [u32],
)
    requires { BuildPre text.now (rows parents.old marks.old firsts.old lasts.old) }
    ensures { Built text.now (rows parents.new marks.new firsts.new lasts.new) }
{
    let mut builder = Builder {
        parents: &mut *parents,
        marks: &mut *marks,
        firsts: &mut *firsts,
        lasts: &mut *lasts,
        opens: [0; 64],
        depth: 0,
        met: 0,
        held: None,
    };
    builder.run(text);
}
