// The names of a row of nodes, numbered in order of first appearance. `number` is the entry: the marks of the nodes become the numbers.
// Names are looked up in a tree that tells them apart bit by bit (`lookup`): a name that was seen before is found in at most eight steps for each of its bytes, and eight
// more, whatever the other names are. Most texts have few names, each many times: while few were seen, one node with a name like it is looked at first (`recent`).
#![tactic(auto)]

ghost use Rattle.std.specs.Prelude.{◌≡◌};
ghost use Rattle.names.specs.Names.{fits, Numbered};
ghost use Rattle.names.specs.Inner.Calls.{Fit, Ready, NamedPre, TurnedHere, Fresh, All, AllHere, SameLent, SameRows};

mod compare;
mod link;
mod lookup;
mod recent;

use lookup::Tree;

// The names met lately are asked while fewer names than this were seen. Their row has so many places: with more names, most nodes in it would have another one.
const FEW: u32 = 256;

// The text and its nodes: the places of their `<`, and their marks, which become tags; the names met lately; and how many names were seen.
#[derive(Drop)]
struct Numberer<'t, 'f, 'a> {
    text: &'t [u8],
    firsts: &'f [u32],
    tags: &'a mut [u32],
    lately: [usize; 256],
    count: u32,
}

impl Numberer<'_, '_, '_> {
    // Numbers node v, which has a mark and this name, by the tree.
    fn by_tree(&mut self, tree: &mut Tree, name: &[u8], v: usize)
        requires { NamedPre name.now self.old tree.old v }
        ensures turned { TurnedHere self.old tree.old self.new tree.new v }
        ensures same { SameLent self.old self.new }
        ensures same_tree { SameRows tree.old tree.new }
    {
        if self.count == 0 {
            tree.plant(v);
            self.tags[v] = 1;
            self.count = 1;
            return;
        }
        let y = tree.find(name);
        match compare::differ(name, self.text, self.firsts[y] as usize + 1) {
            None => self.tags[v] = self.tags[y],
            Some(d) => {
                tree.put(name, v, d);
                self.count += 1;
                self.tags[v] = self.count;
            }
        }
    }

    // Numbers node v. While few names were seen, the names met lately are asked before the tree.
    fn take_up(&mut self, tree: &mut Tree, v: usize)
        requires { Ready self.old tree.old v }
        ensures turned { TurnedHere self.old tree.old self.new tree.new v }
        ensures same { SameLent self.old self.new }
        ensures same_tree { SameRows tree.old tree.new }
    {
        if self.tags[v] == 0 {
            return;
        }
        let place = self.firsts[v] as usize + 1;
        let text = self.text;
        let end = octets::skip(text, place, octets::NAMECHARS);
        if end == place {
            self.tags[v] = 0;
            return;
        }
        let name = &text[place..end];
        if self.count < FEW {
            let key = recent::key(name);
            if let Some(tag) = self.tag_of(name, v, self.lately[key]) {
                self.tags[v] = tag;
                return;
            }
            self.lately[key] = v;
        }
        self.by_tree(tree, name, v);
    }

    // Numbers all nodes, in order.
    fn take_all(&mut self, tree: &mut Tree)
        requires { Fresh self.old tree.old }
        ensures numbered { AllHere self.old tree.old self.new tree.new }
        ensures same { SameLent self.old self.new }
        ensures same_tree { SameRows tree.old tree.new }
    {
        for v in 0..self.tags.len() {
            self.take_up(&mut *tree, v);
        }
    }
}

// Numbers all nodes. What the rows hold then is of no use.
fn number_all(text: &[u8], firsts: &[u32], tags: &mut [u32], work: &mut [u32])
    requires { Fit text.now firsts.now tags.old work.old }
    ensures { All text.now firsts.now tags.old work.old tags.new work.new }
{
    let mut tree = Tree {
        rows: &mut *work,
        n: tags.len(),
    };
    let mut numberer = Numberer {
        text,
        firsts,
        tags: &mut *tags,
        lately: [0; 256],
        count: 0,
    };
    numberer.take_all(&mut tree);
}

// Whether all fits: at most 65,536 nodes, a place for each, three entries of work for each, and at most 16,777,216 bytes of text.
#[tactic(auto, unfolding(crate::specs::Names::fits))]
fn all_fits(text: &[u8], firsts: &[u32], tags: &[u32], work: &[u32]) -> bool
    ensures { result ≡ fits text.now firsts.now tags.now work.now }
{
    let n = tags.len();
    n <= 65536 && n <= firsts.len() && 3 * n <= work.len() && text.len() <= 16777216
}

// The tags of a row of nodes. In `tags` each element has a mark, not 0, and data has 0; `firsts` has the place of each element's `<` in the text. Each mark becomes
// the number of the element's name, from 1 in order of first appearance, or 0 where no name stands after the `<`. The tree of names is in `work` meanwhile.
// Says whether all fits: at most 65,536 nodes, a place for each, three entries of work for each, and at most 16,777,216 bytes of text. The first three entries of
// work for each node are 0 then, and later ones as they were. Where something does not fit, nothing is changed.
pub fn number(text: &[u8], firsts: &[u32], tags: &mut [u32], work: &mut [u32]) -> bool
    ensures { Numbered text.now firsts.now tags.old work.old tags.new work.new result }
{
    if !all_fits(text, firsts, &*tags, &*work) {
        return false;
    }
    let m = 3 * tags.len();
    number_all(text, firsts, tags, &mut *work);
    seq::clear(&mut work[..m]);
    true
}
