// The first line of a table (01, "The table program"): `parent,tag`, then `+,#` for each positive word and `-,#` for each negative one.
ghost use Rattle.std.specs.Prelude.{◌≡◌, ◌+◌, ◌≤◌, ◌&&◌, eqb, leb};
ghost use Rattle.seq.specs.Lists.{tally, same_list};
ghost use Rattle.text.specs.Buffers.{Added};
ghost use Rattle.sheet.specs.Table.{times, header_text};

use text::Writer;

// How many bytes of a line are x.
pub(crate) fn count(l: &[u8], x: u8) -> usize
    ensures { result ≡ tally (eqb x) l.now }
{
    l.iter().filter(|b| **b == x).count()
}

// The bytes of a text, m times over.
fn put_times(out: &mut Writer<u8>, text: &[u8], m: usize)
    ensures { Added (times m text.now) out.old out.new }
{
    for _ in 0..m {
        out.put_all(text);
    }
}

// Whether a line is the header of p positive and q negative words, of which there are at most 8.
fn is_header(l: &[u8], p: usize, q: usize) -> bool
    requires { p + q ≤ 8 }
    ensures { result ≡ same_list l.now (header_text p q) }
{
    // 10 bytes, and 4 for each word
    let mut text = [0u8; 42];
    let mut header = Writer {
        out: &mut text,
        at: 0,
    };
    header.put_all(b"parent,tag");
    put_times(&mut header, b",+,#", p);
    put_times(&mut header, b",-,#", q);
    l == header.written()
}

// Whether a line is the header of p positive and q negative words, with at least one positive and at most 8 words.
pub(crate) fn header_ok(l: &[u8], p: usize, q: usize) -> bool
    ensures { result ≡ ((leb 1 p && leb (p + q) 8) && same_list l.now (header_text p q)) }
{
    1 <= p && p <= 8 && q <= 8 - p && is_header(l, p, q)
}
