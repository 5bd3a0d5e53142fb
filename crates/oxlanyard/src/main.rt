// Answers a session that it reads from standard input with one line on standard output: see `session`.
//
// 12,289 bytes are enough, whatever follows them: three lines have at most 4,096 bytes each, and one byte more tells
// whether there is a fourth (`enough` in crates/session/proofs/Enough.antt). They and the line have room in lists of a fixed
// size, since the program has no heap.

#![tactic(auto)]

// The descriptor of standard input.
const STDIN: i32 = 0;

// The descriptor of standard output.
const STDOUT: i32 = 1;

fn main() {
    let mut space = [0u8; 12289];
    let n = io::read_full(STDIN, &mut space);
    let mut out = [0u8; 8192];
    let m = session::answer_front(&space, n, &mut out);
    io::write_all(STDOUT, &out[..m]);
}
