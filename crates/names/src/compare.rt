// Names, bit by bit: the bits of each byte from the lowest, and zeros past a name's end. The one name is cut out of the text; the other is looked at where it
// stands, and no further than it agrees with the first, however long it is.
ghost use Rattle.std.specs.Prelude.{◌≡◌, slice_index};
ghost use Rattle.names.specs.Inner.Calls.{name_bit, byte_here, Name, FirstBit, DifferPre, Compared, Alike};

// Byte k of a name, or 0 past its end.
fn byte_of(name: &[u8], k: usize) -> u8
    ensures { result ≡ slice_index name.now k }
{
    name.get(k).copied().unwrap_or(0)
}

// Bit i of a name.
pub(crate) fn bit_at(name: &[u8], i: usize) -> bool
    ensures { result ≡ name_bit name.now i }
{
    byte_of(name, i / 8) >> (i % 8) & 1 == 1
}

// The first bit in which two different bytes differ.
fn first_bit(x: u8, y: u8) -> usize
    requires { x ≡ y → ⊥ }
    ensures { FirstBit x y result }
{
    (x ^ y).trailing_zeros() as usize
}

// The first byte of the name at a place, or 0 where none stands there.
fn name_byte(text: &[u8], place: usize) -> u8
    ensures { result ≡ byte_here text.now place }
{
    if place < text.len() && octets::skip(&text[place..place + 1], 0, octets::NAMECHARS) == 1 {
        text[place]
    } else {
        0
    }
}

// The first bit in which a name and the name at a place differ; none where they are the same.
pub(crate) fn differ(name: &[u8], text: &[u8], other: usize) -> Option<usize>
    requires { DifferPre name.now other }
    ensures { Compared name.now text.now other result }
{
    let k = octets::common(name, text, other);
    let x = byte_of(name, k);
    let y = name_byte(text, other + k);
    if x == y {
        return None;
    }
    Some(8 * k + first_bit(x, y))
}

// Whether a name and the name at a place are the same bytes.
pub(crate) fn same(name: &[u8], text: &[u8], other: usize) -> bool
    requires { DifferPre name.now other }
    ensures { Alike name.now text.now other result }
{
    octets::common(name, text, other) == name.len() && name_byte(text, other + name.len()) == 0
}
