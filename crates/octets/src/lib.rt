// The loops over the bytes of a text that an XML reader is made of: how far bytes of some classes go on, where a byte stands next, and how much of a
// word stands at a place.
// Each function takes slices of any length and any content, and a place past the end of the text has no bytes at it.
#![tactic(auto)]

ghost use Rattle.std.specs.Prelude.{ℕ, Bool, ◌≡◌, ◌+◌, ◌<◌, [], ◌∷◌, drop};
ghost use Rattle.profile.specs.Classes.{class, within};
ghost use Rattle.profile.specs.Bytes as bytes;
ghost use Rattle.profile.specs.Spans as spans;

// Sets of classes, each the sum of its classes (`profile`, specs/Classes): the bytes that go on with a name; those of data but for `]` and `>`; those of a comment's body but for `-`; and `]`.
pub const NAMECHARS: u32 = 128 + 256 + 512;

pub const PLAINS: u32 = 32 + 64 + 128 + 256 + 512;

pub const COMMENTEDS: u32 = 2 + 4 + 8 + 16 + 32 + 64 + 128 + 256;

pub const BRACKETS: u32 = 8;

// The table of the classes of the 256 bytes (`profile`, specs/Classes), sixteen to a line.
// 1 no Char; 2 `<`; 4 `&`; 8 `]`; 16 `>`; 32 white space; 64 any other Char; 128 a digit or `.`; 256 NameStartChar; 512 `-`.
// It is a `match` and no constant array: the compiler keeps the arms as one constant table in memory and reads it without a test, where a constant array is
// built anew on the stack wherever it is named. `skip` alone asks for classes, so that the table stands in its loop and no call is made for a byte.
#[rattlefmt::skip]
#[tactic(auto, unfolding(profile::specs::Classes::class, profile::specs::Classes::table))]
fn class_of(x: u8) -> u32
    ensures { result ≡ class x }
{
    match x {
          0 => 1,     1 => 1,     2 => 1,     3 => 1,     4 => 1,     5 => 1,     6 => 1,     7 => 1,     8 => 1,     9 => 32,   10 => 32,   11 => 1,    12 => 1,    13 => 32,   14 => 1,    15 => 1,
         16 => 1,    17 => 1,    18 => 1,    19 => 1,    20 => 1,    21 => 1,    22 => 1,    23 => 1,    24 => 1,    25 => 1,    26 => 1,    27 => 1,    28 => 1,    29 => 1,    30 => 1,    31 => 1,
         32 => 32,   33 => 64,   34 => 64,   35 => 64,   36 => 64,   37 => 64,   38 => 4,    39 => 64,   40 => 64,   41 => 64,   42 => 64,   43 => 64,   44 => 64,   45 => 512,  46 => 128,  47 => 64,
         48 => 128,  49 => 128,  50 => 128,  51 => 128,  52 => 128,  53 => 128,  54 => 128,  55 => 128,  56 => 128,  57 => 128,  58 => 256,  59 => 64,   60 => 2,    61 => 64,   62 => 16,   63 => 64,
         64 => 64,   65 => 256,  66 => 256,  67 => 256,  68 => 256,  69 => 256,  70 => 256,  71 => 256,  72 => 256,  73 => 256,  74 => 256,  75 => 256,  76 => 256,  77 => 256,  78 => 256,  79 => 256,
         80 => 256,  81 => 256,  82 => 256,  83 => 256,  84 => 256,  85 => 256,  86 => 256,  87 => 256,  88 => 256,  89 => 256,  90 => 256,  91 => 64,   92 => 64,   93 => 8,    94 => 64,   95 => 256,
         96 => 64,   97 => 256,  98 => 256,  99 => 256, 100 => 256, 101 => 256, 102 => 256, 103 => 256, 104 => 256, 105 => 256, 106 => 256, 107 => 256, 108 => 256, 109 => 256, 110 => 256, 111 => 256,
        112 => 256, 113 => 256, 114 => 256, 115 => 256, 116 => 256, 117 => 256, 118 => 256, 119 => 256, 120 => 256, 121 => 256, 122 => 256, 123 => 64,  124 => 64,  125 => 64,  126 => 64,  127 => 64,
        128 => 1,   129 => 1,   130 => 1,   131 => 1,   132 => 1,   133 => 1,   134 => 1,   135 => 1,   136 => 1,   137 => 1,   138 => 1,   139 => 1,   140 => 1,   141 => 1,   142 => 1,   143 => 1,
        144 => 1,   145 => 1,   146 => 1,   147 => 1,   148 => 1,   149 => 1,   150 => 1,   151 => 1,   152 => 1,   153 => 1,   154 => 1,   155 => 1,   156 => 1,   157 => 1,   158 => 1,   159 => 1,
        160 => 1,   161 => 1,   162 => 1,   163 => 1,   164 => 1,   165 => 1,   166 => 1,   167 => 1,   168 => 1,   169 => 1,   170 => 1,   171 => 1,   172 => 1,   173 => 1,   174 => 1,   175 => 1,
        176 => 1,   177 => 1,   178 => 1,   179 => 1,   180 => 1,   181 => 1,   182 => 1,   183 => 1,   184 => 1,   185 => 1,   186 => 1,   187 => 1,   188 => 1,   189 => 1,   190 => 1,   191 => 1,
        192 => 1,   193 => 1,   194 => 1,   195 => 1,   196 => 1,   197 => 1,   198 => 1,   199 => 1,   200 => 1,   201 => 1,   202 => 1,   203 => 1,   204 => 1,   205 => 1,   206 => 1,   207 => 1,
        208 => 1,   209 => 1,   210 => 1,   211 => 1,   212 => 1,   213 => 1,   214 => 1,   215 => 1,   216 => 1,   217 => 1,   218 => 1,   219 => 1,   220 => 1,   221 => 1,   222 => 1,   223 => 1,
        224 => 1,   225 => 1,   226 => 1,   227 => 1,   228 => 1,   229 => 1,   230 => 1,   231 => 1,   232 => 1,   233 => 1,   234 => 1,   235 => 1,   236 => 1,   237 => 1,   238 => 1,   239 => 1,
        240 => 1,   241 => 1,   242 => 1,   243 => 1,   244 => 1,   245 => 1,   246 => 1,   247 => 1,   248 => 1,   249 => 1,   250 => 1,   251 => 1,   252 => 1,   253 => 1,   254 => 1,     _ => 1,
    }
}

// Whether the class of a byte is one of a set.
fn is_within(set: u32, x: u8) -> bool
    ensures { result ≡ within set x }
{
    class_of(x) & set != 0
}

// The first place from `at` on at which a byte does not pass the test, or the end of the text; `at` itself past the end. So it is for each test of numbers that
// says of a byte what this one answers.
fn run<F: Fn(u8) -> bool>(text: &[u8], at: usize, test: F) -> usize
    requires { F.IsAlwaysCallable test }
    ensures { (f : ℕ → Bool) → ((x : ℕ) (r : Bool) → x < 256 → F.post test x r → r ≡ f x) → result ≡ at + spans.span f (drop at text.now) }
{
    for i in at..text.len() {
        if !test(text[i]) {
            return i;
        }
    }
    at.max(text.len())
}

// The first place from `at` on at which a byte's class is not one of the set, or the end of the text; `at` itself past the end.
pub fn skip(text: &[u8], at: usize, set: u32) -> usize
    ensures { result ≡ at + spans.span (within set) (drop at text.now) }
{
    run(text, at, |x| is_within(set, x))
}

// Whether a byte is white space.
#[tactic(auto, unfolding(profile::specs::Bytes::white))]
fn is_white(x: u8) -> bool
    ensures { result ≡ bytes.white x }
{
    matches!(x, b' ' | b'\t' | b'\r' | b'\n')
}

// The first place from `at` on at which no white space stands, or the end of the text; `at` itself past the end. White space is mostly short: four bytes are told
// without the table.
pub fn white(text: &[u8], at: usize) -> usize
    ensures { result ≡ at + spans.span bytes.white (drop at text.now) }
{
    run(text, at, is_white)
}

// The first place from `at` on at which the byte x stands, or the end of the text; `at` itself past the end. Four bytes a turn, which ask for the end
// of the text once.
pub fn find(text: &[u8], at: usize, x: u8) -> usize
    ensures { result ≡ at + spans.span (spans.other x) (drop at text.now) }
{
    let mut i = at;
    while i < text.len() {
        if text.len() - i < 4 {
            return run(text, i, |y| y != x);
        }
        for j in 0..4 {
            if text[i + j] == x {
                return i + j;
            }
        }
        i += 4;
    }
    i
}

// The first place from `at` on at which a byte above 32 stands, or the end of the text; `at` itself past the end.
#[tactic(auto, unfolding(profile::specs::Spans::low))]
pub fn rise(text: &[u8], at: usize) -> usize
    ensures { result ≡ at + spans.span spans.low (drop at text.now) }
{
    run(text, at, |x| x <= b' ')
}

// Whether the byte x stands at a place.
pub fn is_at(text: &[u8], at: usize, x: u8) -> bool
    ensures { result ≡ bytes.starts_with (x ∷ []) (drop at text.now) }
{
    at < text.len() && text[at] == x
}

// How many bytes of the word stand in the text at a place, up to the first that differs.
pub fn common(word: &[u8], text: &[u8], at: usize) -> usize
    ensures { result ≡ spans.common word.now (drop at text.now) }
{
    if text.len() < at {
        return 0;
    }
    let rest = &text[at..];
    let n = word.len().min(rest.len());
    for i in 0..n {
        if rest[i] != word[i] {
            return i;
        }
    }
    n
}
