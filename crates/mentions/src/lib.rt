// Where the words of a text start: one call gives the next one, with its node; and a walk gives them all, with their hashes. The text was judged: it is cut by the first bytes of its
// markup (`words`, specs/Scan). Slices of any length and any content may be lent.
#![tactic(auto)]

ghost use Rattle.std.specs.Prelude.{◌≡◌, ◌≤◌, ◌+◌, List, ℕ, IfSome, drop};
ghost use Rattle.profile.specs.Spans.{span};
ghost use Rattle.words.specs.Scan.{mentions_in};
ghost use Rattle.mentions.specs.Next.{next_of};
ghost use Rattle.mentions.specs.Walk.{left, Walked};
ghost use Rattle.mentions.specs.Inner.{quiet, Reached, MarkupPre, PassPre, Passed};

use markup::Kind;

// Where a pass over a text is: at which place, whether in a tag, whether the data so far makes a node, and how many nodes on from where it began.
#[derive(Clone, Copy)]
pub struct Pass {
    pub at: usize,
    pub tag: bool,
    pub solid: bool,
    pub node: usize,
}

// The first place from `at` on at which a letter or digit, a `<` or the byte y stands, or the end of the text; `at` itself past the end.
fn quiet_end(text: &[u8], at: usize, y: u8) -> usize
    ensures { result ≡ at + span (quiet y) (drop at text.now) }
{
    for i in at..text.len() {
        let x = text[i];
        if inplace::fold(x) != 0 || x == b'<' || x == y {
            return i;
        }
    }
    at.max(text.len())
}

// On to the next byte that matters: in a tag a `>`, in data a `&`, and in both a letter, a digit or a `<`. Data makes a node where it has a byte that is no white space.
fn reach(text: &[u8], s: Pass) -> Pass
    ensures { Reached text.now s result }
{
    if s.tag {
        return Pass {
            at: quiet_end(text, s.at, b'>'),
            ..s
        };
    }
    let at = quiet_end(text, s.at, b'&');
    Pass {
        at,
        solid: s.solid || octets::white(text, s.at) < at,
        ..s
    }
}

// Over a comment, an end tag, or the `<` of another tag.
fn over_markup(text: &[u8], s: Pass) -> Pass
    requires { MarkupPre text.now s }
    ensures { Passed text.now s result }
{
    let p = skim::skim_at(text, s.at);
    let node = s.node + usize::from(s.solid);
    match p.kind {
        Kind::Comment => Pass { at: p.end, ..s },
        Kind::Close => Pass {
            at: p.end,
            tag: false,
            solid: false,
            node,
        },
        _ => Pass {
            at: s.at + 1,
            tag: true,
            solid: false,
            node,
        },
    }
}

// Over markup, the `>` of a tag, or a reference.
fn over(text: &[u8], s: Pass) -> Pass
    requires { PassPre text.now s }
    ensures { Passed text.now s result }
{
    if text[s.at] == b'<' {
        return over_markup(text, s);
    }
    if s.tag {
        return Pass {
            at: s.at + 1,
            tag: false,
            solid: false,
            node: s.node + 1,
        };
    }
    let end = octets::find(text, s.at + 1, b';');
    Pass {
        at: end + 1,
        solid: true,
        ..s
    }
}

// The pass at the first byte of the next word, if there is one, from a place on, in a tag or not, where the data before it makes a node or not. In data the word makes the node.
pub fn next(text: &[u8], at: usize, tag: bool, solid: bool) -> Option<Pass>
    ensures is { result ≡ next_of text.now at tag solid }
    ensures few { IfSome result (λ r. r.node + at ≤ r.at) }
{
    let mut s = Pass {
        at,
        tag,
        solid,
        node: 0,
    };
    loop {
        let r = reach(text, s);
        let x = *text.get(r.at)?;
        if inplace::fold(x) != 0 {
            return Some(Pass {
                solid: r.solid || !r.tag,
                ..r
            });
        }
        s = over(text, r);
    }
}

// A word of a text: the place of its first byte, its hash, and its node.
#[derive(Clone, Copy)]
pub struct Mention {
    pub place: usize,
    pub hash: u32,
    pub node: usize,
}

// A walk over the words of a text, from the first on. It is behind the last word that it gave.
#[derive(Clone, Copy)]
pub struct Walk {
    pass: Pass,
    ghost few: { pass.node ≤ pass.at },
}

impl Walk {
    // Before the first word of a text.
    pub fn new() -> Walk
        ensures { (T : List ℕ) → left T result.pass ≡ mentions_in T }
    {
        Walk {
            pass: Pass {
                at: 0,
                tag: false,
                solid: false,
                node: 0,
            },
        }
    }

    // On to the next word, if there is one; else the walk stays where it is.
    #[inline(always)]
    pub fn next(&mut self, text: &[u8]) -> Option<Mention>
        ensures { Walked text.now self.old.pass result self.new.pass }
    {
        let s = self.pass;
        let r = next(text, s.at, s.tag, s.solid)?;
        let word = inplace::hash_word(text, r.at);
        let node = s.node + r.node;
        self.pass = Pass {
            at: word.end,
            node,
            ..r
        };
        Some(Mention {
            place: r.at,
            hash: word.hash,
            node,
        })
    }
}
