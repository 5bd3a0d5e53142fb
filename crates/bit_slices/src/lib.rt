// Loops that make words: clear ones, and those of a slice. Parts of the calls of `bvect`, not for users.

#![tactic(auto)]

ghost use Rattle.std.specs.Prelude.{◌≡◌, ◌++◌, ◌≤◌, ◌<◌, ◌*◌, ◌+◌, ◌/◌, ◌%◌, ◌^◌, length, drop};
ghost use Rattle.places.specs.Below.{list_below};
ghost use Rattle.bits.specs.Bits.{bit_at, cut, word_from};
ghost use Rattle.bit_slices.specs.Loops.{joined, Last, Gathers};

// Writes `n` clear words to the front of `out`.
pub fn clear(n: usize, out: &mut [u64])
    requires { n ≤ length out.old }
    ensures { out.new ≡ list_below (λ i. 0) n ++ drop n out.old }
{
    out[..n].fill(0);
}

// The bit at place `i` of a list of words that reaches so far.
pub fn bit_at(words: &[u64], i: usize) -> bool
    requires { i < 64 * length words.now }
    ensures { result ≡ bit_at words.now i }
{
    let word = words[i / 64];
    (word >> (i % 64)) % 2 == 1
}

// The upper part of a word, from bit `shift` on, and above it the lower part of the word after it. The remainder changes
// nothing: without it the compiler makes one instruction of both shifts on x86-64, a word at a time, and no vectors.
fn join(low: u64, high: u64, shift: usize) -> u64
    requires { (0 < shift) × (shift < 64) }
    ensures { result ≡ joined low high shift }
{
    (low >> shift) | (high << ((64 - shift) % 64))
}

// The 64 bits from bit `shift` of word `k` on: that word, or it and the next one. Word `k` is not the last.
fn word_at(words: &[u64], k: usize, shift: usize) -> u64
    requires { (k + 1 < length words.now) × (shift < 64) }
    ensures { result ≡ word_from (bit_at words.now) (64 * k + shift) 64 }
{
    if shift == 0 {
        return words[k];
    }
    join(words[k], words[k + 1], shift)
}

// The lowest `used` bits of a word; the others are clear.
fn lowest(word: u64, used: usize) -> u64
    requires { (0 < used) × (used ≤ 64) }
    ensures { result ≡ word % 2 ^ used }
{
    let unused = 64 - used;
    (word << unused) >> unused
}

// The word of the 64 bits from place `from` on, of which those at and above `end` are clear. The word that has the last one
// below `end` is the last that is read.
fn gather(words: &[u64], from: usize, end: usize) -> u64
    requires { Last words.now from end }
    ensures { result ≡ word_from (cut end (bit_at words.now)) from 64 }
{
    let k = from / 64;
    let shift = from % 64;
    if k < (end - 1) / 64 {
        return lowest(word_at(words, k, shift), end - from);
    }
    lowest(words[k] >> shift, end - from)
}

// Writes the bits from `start` on to the first `n` words of `out`, 64 to each.
fn gather_whole(words: &[u64], start: usize, n: usize, out: &mut [u64])
    requires { (start / 64 + n < length words.now) × (n ≤ length out.old) }
    ensures { out.new ≡ list_below (λ j. word_from (bit_at words.now) (start + 64 * j) 64) n ++ drop n out.old }
{
    let first = start / 64;
    let shift = start % 64;
    for j in 0..n {
        out[j] = word_at(words, first + j, shift);
    }
}

// Writes the bits from `start` up to `end` to the first `n` words of `out`.
pub fn gather_all(words: &[u64], start: usize, end: usize, n: usize, out: &mut [u64])
    requires { Gathers words.now start end n out.old }
    ensures { out.new ≡ list_below (λ j. word_from (cut end (bit_at words.now)) (start + 64 * j) 64) n ++ drop n out.old }
{
    let last = n - 1;
    gather_whole(words, start, last, out);
    out[last] = gather(words, start + 64 * last, end);
}
