// Answers sessions of the program `oxlanyard`. Standard input has a session a line: a label, a bar, and the bytes of the
// session, as `spelled` reads them. For each it prints the label, a bar and the answer. A line that starts with `#` is a
// comment, and is printed as it is. The program stops at a line that it cannot read, and says so.
#![tactic(auto)]

mod spelled;

use cases::Line;
use spelled::Made;

// Prints the answer to the session that is spelled after a bar.
fn answer(line: &mut Line<'_>) -> Option<()> {
    if !line.skip(b'|') {
        return None;
    }
    line.skip(b' ');
    let mut made = Made::new();
    spelled::bytes(line, &mut made)?;
    let mut out = [0u8; 8192];
    let m = session::answer(made.bytes(), &mut out);
    shown::text(b" ");
    shown::text(&out[..m]);
    Some(())
}

// Answers one line. Answers whether it is a comment or a session.
fn line(s: &[u8]) -> bool {
    if cases::comment(s) {
        return true;
    }
    let mut line = Line { rest: s };
    line.label();
    match answer(&mut line) {
        Some(()) => true,
        None => cases::ended(false),
    }
}

fn main() {
    cases::run(|s| line(s));
}
