// The names met lately: a row of 256 nodes, each at the key of its name. A node in it is only a guess: another name can have the same key, so the two names are compared,
// and the tree is asked where they differ. So a look-up compares one name more at most, whatever the names are.
ghost use Rattle.std.specs.Prelude.{◌<◌, ◌≤◌, length};
ghost use Rattle.names.specs.Inner.Calls.{KeyPre, RecallPre, Recalled};

use crate::{Numberer, compare};

// The key of a name: a number below 256, made of its size, its first and its last byte.
pub(crate) fn key(name: &[u8]) -> usize
    requires { KeyPre name.now }
    ensures { result < 256 }
{
    let first = name[0] as usize;
    let last = name[name.len() - 1] as usize;
    (5 * first + 17 * last + name.len()) % 256
}

impl Numberer<'_, '_, '_> {
    // The number of y, if it is a node before v and has a number and this name.
    pub(crate) fn tag_of(&self, name: &[u8], v: usize, y: usize) -> Option<u32>
        requires { RecallPre name.now self.now v }
        ensures { Recalled name.now self.now v result }
    {
        if y < v
            && self.tags[y] != 0
            && compare::same(name, self.text, self.firsts[y] as usize + 1)
        {
            Some(self.tags[y])
        } else {
            None
        }
    }
}
