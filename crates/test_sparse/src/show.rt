// Prints three sums, and what a call left in lent lists.

use folds::Three;
use refusal::Refusal;

pub fn summed(r: Result<Three, Refusal>) {
    shown::answered(r, |t| {
        shown::text(b"sums");
        shown::float(t.xy);
        shown::float(t.x2);
        shown::float(t.y2);
    });
}

// What a call left in the lent lists.
pub fn left(indexes: &[u32], values: &[f32]) {
    shown::text(b" |");
    for index in indexes {
        shown::number(*index as u64);
    }
    shown::text(b" |");
    for value in values {
        shown::float(*value);
    }
}
