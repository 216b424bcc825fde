// Texts of RFC 4180 without quoted fields (01, "The table program"): the ends of lines and fields, numbers, and writing to the front of a buffer.
// Each function takes slices of any length and any content. What does not fit a buffer is not written, and the next place stays at the buffer's end.
#![tactic(auto)]

ghost use Rattle.std.specs.Prelude.{◌≡◌, ◌+◌, ◌≤◌, ◌∷◌, [], length, take, drop};
ghost use Rattle.text.specs.Text.{line_length, field_length, number_of, decimal};
ghost use Rattle.text.specs.Buffers.{Added};

// Where the line that begins at a place ends: at the next CR LF, or at the end of the text where there is none.
pub fn line_end(s: &[u8], at: usize) -> usize
    ensures { result ≡ at + line_length (drop at s.now) }
{
    for i in at..s.len() {
        if s[i..].starts_with(b"\r\n") {
            return i;
        }
    }
    at.max(s.len())
}

// Where the field that begins at a place ends: at the next comma, or at the end of the line where there is none.
pub fn field_end(l: &[u8], at: usize) -> usize
    ensures { result ≡ at + field_length (drop at l.now) }
{
    for i in at..l.len() {
        if l[i] == b',' {
            return i;
        }
    }
    at.max(l.len())
}

// The number in a field: none where it is no decimal number of 1 to 5 digits, or has a leading zero.
pub fn number(f: &[u8]) -> Option<u32>
    ensures { result ≡ number_of f.now }
{
    let n = f.len();
    if n == 0 || 5 < n {
        return None;
    }
    if n != 1 && f[0] == b'0' {
        return None;
    }
    let mut x: u32 = 0;
    for b in f {
        if !b.is_ascii_digit() {
            return None;
        }
        x = x * 10 + u32::from(*b - b'0');
    }
    Some(x)
}

// A buffer that is written from its front, and the next place in it.
#[derive(Drop)]
pub struct Writer<'a, T> {
    pub out: &'a mut [T],
    pub at: usize,
}

impl<T: Copy> Writer<'_, T> {
    // One entry.
    pub fn put(&mut self, x: T)
        ensures { Added (x ∷ []) self.old self.new }
    {
        if self.at < self.out.len() {
            self.out[self.at] = x;
            self.at += 1;
        }
    }

    // The entries of a list.
    pub fn put_all(&mut self, xs: &[T])
        ensures { Added xs.now self.old self.new }
    {
        for x in xs {
            self.put(*x);
        }
    }

    // What has been written; all of the buffer where the next place is past its end.
    pub fn written(&self) -> &[T]
        ensures { result.now ≡ take self.now.at self.now.out.now }
    {
        &self.out[..self.at.min(self.out.len())]
    }
}

impl Writer<'_, u8> {
    // A number in decimal, with no leading zero.
    pub fn put_number(&mut self, x: u32)
        ensures { Added (decimal x) self.old self.new }
    {
        if x >= 10 {
            self.put_number(x / 10);
        }
        self.put(b'0' + (x % 10) as u8);
    }
}
