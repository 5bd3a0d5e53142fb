// Writes the lines that the program `oxlanyard` prints to the front of a lent list of bytes, and answers how many bytes
// that is. These are parts of `session`, and no calls that a user makes: that there is room is required.

#![tactic(auto)]

ghost use Rattle.std.specs.Prelude.{◌≡◌, [], ◌∷◌, ◌+◌, ◌*◌, ◌≤◌, ◌<◌, length};
ghost use Rattle.texts.specs.Texts.{glyph, spelled, decimal, entry_text, entries_text, vector_text, refused_text, bad_text};
ghost use Rattle.texts.specs.Puts.{Puts};

// The byte of a digit.
fn glyph(d: u64) -> u8
    requires { d < 16 }
    ensures { result ≡ glyph d }
{
    if d < 10 {
        b'0' + d as u8
    } else {
        b'a' + (d - 10) as u8
    }
}

// A line that is being written: the list, and the place after what is written.
#[derive(Drop)]
struct Line<'a> {
    out: &'a mut [u8],
    at: usize,
}

impl Line<'_> {
    ghost use Rattle.texts.specs.Lines.{Adds};

    // Writes one byte.
    fn put(&mut self, c: u8)
        requires { self.old.at < length self.old.out.now }
        ensures { Adds (c ∷ []) self.old self.new }
    {
        self.out[self.at] = c;
        self.at += 1;
    }

    // Writes a text.
    fn text(&mut self, s: &[u8])
        requires { self.old.at + length s.now ≤ length self.old.out.now }
        ensures { Adds s.now self.old self.new }
    {
        let to = self.at + s.len();
        self.out[self.at..to].copy_from_slice(s);
        self.at = to;
    }

    // Writes a number in a base, with at most k digits.
    fn number(&mut self, n: u64, base: u64, padded: bool, k: usize)
        requires { (0 < base) × (base ≤ 16) × (self.old.at + k ≤ length self.old.out.now) }
        ensures { Adds (spelled base padded k n) self.old self.new }
    {
        if k == 0 {
            return;
        }
        if n < base && !padded {
            self.put(glyph(n % base));
            return;
        }
        self.number(n / base, base, padded, k - 1);
        self.put(glyph(n % base));
    }

    // Writes a decimal.
    fn decimal(&mut self, n: u64)
        requires { self.old.at + 20 ≤ length self.old.out.now }
        ensures { Adds (decimal n) self.old self.new }
    {
        self.number(n, 10, false, 20);
    }

    // Writes an entry, with the space before it.
    fn entry(&mut self, index: u32, bits: u32)
        requires { self.old.at + 30 ≤ length self.old.out.now }
        ensures { Adds (entry_text index bits) self.old self.new }
    {
        self.put(b' ');
        self.decimal(index as u64);
        self.put(b':');
        self.number(bits as u64, 16, true, 8);
    }

    // Writes the entries of a vector.
    fn entries(&mut self, indexes: &[u32], bits: &[u32])
        requires { (length indexes.now ≡ length bits.now) × (self.old.at + 30 * length indexes.now ≤ length self.old.out.now) }
        ensures { Adds (entries_text indexes.now bits.now) self.old self.new }
    {
        for (index, pattern) in indexes.iter().zip(bits) {
            self.entry(*index, *pattern);
        }
    }
}

// Writes a vector's line.
pub fn vector(out: &mut [u8], dims: u32, indexes: &[u32], bits: &[u32]) -> usize
    requires { (length indexes.now ≡ length bits.now) × (21 + 30 * length indexes.now ≤ length out.old) }
    ensures { Puts (vector_text dims indexes.now bits.now) 0 out.old result out.new }
{
    let mut line = Line { out, at: 0 };
    line.decimal(dims as u64);
    line.entries(indexes, bits);
    line.put(b'\n');
    line.at
}

// Writes a refusal's line. It takes the two numbers, since its promise is for any: docs/PROMISES.md.
pub fn refused(out: &mut [u8], number: u32, place: usize) -> usize
    requires { 50 ≤ length out.old }
    ensures { Puts (refused_text number place) 0 out.old result out.new }
{
    let mut line = Line { out, at: 0 };
    line.text(b"refused ");
    line.decimal(number as u64);
    line.put(b' ');
    line.decimal(place as u64);
    line.put(b'\n');
    line.at
}

// Writes that a line is bad.
pub fn bad_line(out: &mut [u8], bad: u32) -> usize
    requires { 30 ≤ length out.old }
    ensures { Puts (bad_text bad) 0 out.old result out.new }
{
    let mut line = Line { out, at: 0 };
    line.text(b"bad line ");
    line.decimal(bad as u64);
    line.put(b'\n');
    line.at
}
