//! Words that cannot be had.

use super::asserts::assert_at;
use super::fakes::{AtBad, writer};
use lpm_program::run::refuse_words;
use std::io::ErrorKind;

#[test]
fn words_that_cannot_be_had(rt: HostRuntime) {
    let mut err = writer(rt.alloc(), 0, AtBad::Fails);
    let unreadable = refuse_words(ErrorKind::InvalidData, &mut err);
    assert_at(&rt, "not UTF-8", unreadable, 2);
    let wants_memory = refuse_words(ErrorKind::OutOfMemory, &mut err);
    assert_at(&rt, "out of memory", wants_memory, 5);
}
