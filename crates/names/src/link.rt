// A link of the tree of names. As a number it is 2 * v for the leaf v, and 2 * u + 1 for the inner node u.
ghost use Rattle.std.specs.Prelude.{◌≡◌, ◌<◌};
ghost use Rattle.names.specs.Inner.Calls.{link_of, number_of, node_of};

#[derive(Clone, Copy)]
pub(crate) enum Link {
    Leaf(usize),
    Inner(usize),
}

impl From<u32> for Link {
    ghost from_gives = { λ k l. l ≡ link_of k };

    fn from(k: u32) -> Self {
        let node = (k / 2) as usize;
        if k % 2 == 0 {
            Link::Leaf(node)
        } else {
            Link::Inner(node)
        }
    }
}

impl Link {
    // The link as a number.
    pub(crate) fn number(self) -> u32
        requires { node_of self < 2147483648 }
        ensures { result ≡ number_of self }
    {
        match self {
            Link::Leaf(v) => 2 * (v as u32),
            Link::Inner(u) => 2 * (u as u32) + 1,
        }
    }
}
