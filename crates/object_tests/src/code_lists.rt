//! What the tests of lists of codes share.
use linear_combos::{Code, Codes};

// Whether the codes are these, in this order.
pub(crate) fn are(codes: &Codes, wanted: &[&[u8]]) -> bool {
    if codes.len() != wanted.len() {
        return false;
    }
    for at in 0..codes.len() {
        if Code::new(wanted[at]) != Some(*codes.at(at)) {
            return false;
        }
    }
    true
}
