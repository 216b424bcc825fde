// The judge of a text: whether it is a text of the profile within the limits, and how many nodes it has (02, Q-2). It writes nothing.
// One entry point, `judge`: SIZE, then MARKUP or TREE, whichever comes first in the text.
#![tactic(auto)]

mod turns;

ghost use Rattle.std.specs.Prelude.{◌≡◌};
ghost use Rattle.index.specs.Replies.{reply_of};
ghost use Rattle.judge.specs.Judge.{judge_reply};

use index::Refusal;
use std::ops::ControlFlow::{Break, Continue};
use turns::{Name, State};

// The longest text that is read, in bytes.
pub const LONGEST: usize = 16777216;

// The number of the nodes of a text of the profile that keeps the limits. Size for a text that is too long; then whichever comes first: Markup at the first byte at
// which no text of the profile continues, or Tree at the first node that is too deep or one too many.
pub fn judge(text: &[u8]) -> Result<u32, Refusal>
    ensures { reply_of result ≡ judge_reply text.now }
{
    if LONGEST < text.len() {
        return Err(Refusal::Size);
    }
    let mut names = [Name { start: 0, size: 0 }; 64];
    let mut at: usize = 0;
    let mut s = State {
        depth: 0,
        met: 0,
        solid: false,
        rooted: false,
    };
    loop {
        if let Some(end) = turns::bare_close(text, at, s.depth, &names) {
            at = end;
            s = s.behind(s.depth - 1);
            continue;
        }
        let p = markup::piece_at(text, at);
        match turns::take_turn(text, at, p, s, &mut names) {
            Continue(next) => s = next,
            Break(ending) => return ending,
        }
        at = p.end;
    }
}
