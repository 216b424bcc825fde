// The tree of names (PATRICIA, with leaves of its own) in three rows of n entries: for an inner node u, its links at u and n + u, and at 2 * n + u the bit that it tells
// names by. The link to the whole tree is at 0. Bits rise from each node to those below it.
ghost use Rattle.std.specs.Prelude.{◌≡◌, ◌*◌, slice_set};
ghost use Rattle.names.specs.Inner.Calls.{name_bit, way_of, linked, PlantPre, WayPre, WalkPre, Found, Slotted, LinkPre, PutPre, Put, SameRows};

use crate::compare;
use crate::link::Link;

#[derive(Drop)]
pub(crate) struct Tree<'a> {
    pub rows: &'a mut [u32],
    pub n: usize,
}

impl Tree<'_> {
    // Makes the leaf v the whole tree.
    pub(crate) fn plant(&mut self, v: usize)
        requires { PlantPre self.old.rows.now self.old.n v }
        ensures planted { self.new.rows.now ≡ slice_set self.old.rows.now 0 (2 * v) }
        ensures same { SameRows self.old self.new }
    {
        self.rows[0] = Link::Leaf(v).number();
    }

    // The place of the link that a name takes at an inner node.
    fn way(&self, name: &[u8], u: usize) -> usize
        requires { WayPre self.now.rows.now self.now.n u }
        ensures { result ≡ way_of self.now.n (name_bit name.now) self.now.rows.now u }
    {
        let bit = self.rows[2 * self.n + u] as usize;
        if compare::bit_at(name, bit) {
            self.n + u
        } else {
            u
        }
    }

    // The leaf that a name leads to: if any leaf has this name, it is that one.
    pub(crate) fn find(&self, name: &[u8]) -> usize
        requires { WalkPre self.now.rows.now self.now.n }
        ensures { Found name.now self.now.rows.now self.now.n result }
    {
        let mut at: usize = 0;
        loop {
            match Link::from(self.rows[at]) {
                Link::Leaf(v) => return v,
                Link::Inner(u) => at = self.way(name, u),
            }
        }
    }

    // The place of the link over which a new inner node with the bit d belongs: the first on the name's way that leads to no lower bit.
    fn slot(&self, name: &[u8], d: usize) -> usize
        requires { WalkPre self.now.rows.now self.now.n }
        ensures { Slotted name.now self.now.rows.now self.now.n d result }
    {
        let mut at: usize = 0;
        while let Link::Inner(u) = Link::from(self.rows[at]) {
            if d <= self.rows[2 * self.n + u] as usize {
                return at;
            }
            at = self.way(name, u);
        }
        at
    }

    // A new inner node v over what is at the place q: the place `near` has the link to the leaf v, the place `far` that to what was at q.
    fn link_in(&mut self, v: usize, q: usize, d: usize, near: usize, far: usize)
        requires { LinkPre self.old.n v q d near far self.old.rows.now }
        ensures linked { self.new.rows.now ≡ linked self.old.n v q d near far self.old.rows.now }
        ensures same { SameRows self.old self.new }
    {
        let old = self.rows[q];
        self.rows[2 * self.n + v] = d as u32;
        self.rows[near] = Link::Leaf(v).number();
        self.rows[far] = old;
        self.rows[q] = Link::Inner(v).number();
    }

    // Puts the leaf v in, whose name first differs in bit d from the name of the leaf found.
    pub(crate) fn put(&mut self, name: &[u8], v: usize, d: usize)
        requires { PutPre self.old.rows.now self.old.n v d }
        ensures put { Put name.now self.old.rows.now self.old.n v d self.new.rows.now }
        ensures same { SameRows self.old self.new }
    {
        let q = self.slot(name, d);
        let right = self.n + v;
        if compare::bit_at(name, d) {
            self.link_in(v, q, d, right, v);
        } else {
            self.link_in(v, q, d, v, right);
        }
    }
}
