// An entry of a journal.
use link_base::{Step, Text, Verdict};

/// A verdict of a reviewer on a pair of records: its day, counted from 1970-01-01, the reviewer, whether it stands alone,
/// waits for a second reviewer or confirms a first one, and the positions of the pair in A and in B.
#[derive(Drop)]
pub struct Entry {
    pub date: i32,
    pub reviewer: Text,
    pub step: Step,
    pub a: u32,
    pub b: u32,
    pub verdict: Verdict,
}
