// Where the word of each operator is found.
use kf_ops::{Op, OpRow, find, operator_row, operators};
use std::process::Abort;

const WORDS: [&str; 27] = [
    "or", "and", "not", "=", "!=", "<", "<=", ">", ">=", "in", "+", "-", "union", "less", "*",
    "div", "mod", "inter", "~", "size", "cond", "xor", "implies", "subset", "min", "max", "abs",
];

#[test]
fn finds_each_word_at_its_place(rt: HostRuntime) {
    let rows = operators();
    for (place, word) in WORDS.iter().enumerate() {
        assert!(rt; find(&rows, word) == Some(place), "the place of {word}");
    }
}

/// No word is found.
fn has_none(rt: &impl Abort, table: &[OpRow], words: &[&str]) {
    for word in words {
        assert!(rt; find(table, word).is_none(), "no place of {word}");
    }
}

const NO_WORDS: [&str; 6] = ["nor", "", "OR", "orr", "o", "<>"];

#[test]
fn finds_no_other_word(rt: HostRuntime) {
    has_none(&rt, &operators(), &NO_WORDS);
    has_none(&rt, &[], &WORDS);
}

#[test]
fn finds_the_first_of_two(rt: HostRuntime) {
    let rows = operators();
    let twice = [rows[4], rows[0], rows[1], rows[0]];
    assert_eq!(rt; find(&twice, "or"), Some(1));
}

#[test]
fn has_the_row_of_each_operator(rt: HostRuntime) {
    let (or, minus, cond) = (
        operator_row(Op::Or),
        operator_row(Op::Subtract),
        operator_row(Op::Cond),
    );
    assert_eq!(rt; (or.word, minus.level, cond.arity), ("or", 5, 3));
}
