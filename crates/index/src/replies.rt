// Why a call is refused, and the reply that says it to C (01, "Replies").
ghost use Rattle.std.specs.Prelude.{◌≡◌};
ghost use Rattle.index.specs.Replies.{refused, totalled, refusal_reply, reply_of, verdict_of};

use crate::Reply;

// The lines of the table that refuse. The number is the place, a node, a word, an entry or a byte; that of Room is the total that is needed.
#[derive(Clone, Copy, Debug, PartialEq, Eq)]
pub enum Refusal {
    Size,
    Tree(u32),
    List(u32),
    Count(u32),
    Room(u32),
    Markup(u32),
    Unknown(u32),
    Node,
}

// A refusal at a place.
fn refused_at(refusal: u32, place: u32) -> Reply
    ensures { result ≡ refused refusal place }
{
    Reply {
        refusal,
        place,
        total: 0,
    }
}

// Acceptance or ROOM, with a total.
fn with_total(refusal: u32, total: u32) -> Reply
    ensures { result ≡ totalled refusal total }
{
    Reply {
        refusal,
        place: 0,
        total,
    }
}

impl From<Refusal> for Reply {
    ghost from_gives = { λ e r. r ≡ refusal_reply e };

    fn from(refusal: Refusal) -> Reply {
        match refusal {
            Refusal::Size => refused_at(crate::SIZE, 0),
            Refusal::Tree(node) => refused_at(crate::TREE, node),
            Refusal::List(word) => refused_at(crate::LIST, word),
            Refusal::Count(entry) => refused_at(crate::COUNT, entry),
            Refusal::Room(total) => with_total(crate::ROOM, total),
            Refusal::Markup(byte) => refused_at(crate::MARKUP, byte),
            Refusal::Unknown(word) => refused_at(crate::UNKNOWN, word),
            Refusal::Node => refused_at(crate::NODE, 0),
        }
    }
}

// A call that lists something gives the total, or its refusal.
impl From<Result<u32, Refusal>> for Reply {
    ghost from_gives = { λ x r. r ≡ reply_of x };

    fn from(answer: Result<u32, Refusal>) -> Reply {
        match answer {
            Ok(total) => with_total(crate::ACCEPTED, total),
            Err(refusal) => Reply::from(refusal),
        }
    }
}

// A call that lists nothing accepts with 0, or gives its refusal.
impl From<Result<(), Refusal>> for Reply {
    ghost from_gives = { λ x r. r ≡ verdict_of x };

    fn from(verdict: Result<(), Refusal>) -> Reply {
        match verdict {
            Ok(()) => with_total(crate::ACCEPTED, 0),
            Err(refusal) => Reply::from(refusal),
        }
    }
}
