// The tokens of texts, and the operators of tokens, worked out by hand.
use kf_lex::{Sign, Tok, Token, Word, lex, operator_of};
use kf_ops::Op;
use std::alloc::Global;

// A token's kind, the byte offset of its first byte, and the one behind its last.
type Parts = (Tok, u32, u32);

fn parts(token: &Token) -> Parts {
    (token.kind, token.start, token.end)
}

fn have_parts(tokens: &[Token], expected: &[Parts]) -> bool {
    tokens.len() == expected.len()
        && tokens
            .iter()
            .zip(expected)
            .all(|(token, want)| parts(token) == *want)
}

/// Whether the source has just these tokens.
fn has_tokens(alloc: Global, src: &[u8], expected: &[Parts]) -> bool {
    if src.len() > 1_048_576 {
        return false;
    }
    match lex(alloc, src) {
        Ok(tokens) => have_parts(tokens.as_slice(), expected),
        Err(_) => false,
    }
}

const TEXTS: [(&str, &[Parts]); 18] = [
    (" \t\r\n", &[]),
    (":=", &[(Tok::Sign(Sign::Assign), 0, 2)]),
    (
        ": =",
        &[
            (Tok::Sign(Sign::Colon), 0, 1),
            (Tok::Sign(Sign::Equal), 2, 3),
        ],
    ),
    (
        "...",
        &[(Tok::Sign(Sign::Range), 0, 2), (Tok::Sign(Sign::Dot), 2, 3)],
    ),
    (
        "1..2",
        &[
            (Tok::Number(1), 0, 1),
            (Tok::Sign(Sign::Range), 1, 3),
            (Tok::Number(2), 3, 4),
        ],
    ),
    (
        "x.1.0",
        &[
            (Tok::Name, 0, 1),
            (Tok::Sign(Sign::Dot), 1, 2),
            (Tok::Number(1), 2, 3),
            (Tok::Sign(Sign::Dot), 3, 4),
            (Tok::Number(0), 4, 5),
        ],
    ),
    ("<=", &[(Tok::Sign(Sign::AtMost), 0, 2)]),
    (
        "< =",
        &[
            (Tok::Sign(Sign::Less), 0, 1),
            (Tok::Sign(Sign::Equal), 2, 3),
        ],
    ),
    ("!=", &[(Tok::Sign(Sign::NotEqual), 0, 2)]),
    ("a # b", &[(Tok::Name, 0, 1)]),
    ("a#b\nc", &[(Tok::Name, 0, 1), (Tok::Name, 4, 5)]),
    ("#a\rb\nc", &[(Tok::Name, 5, 6)]),
    ("é_x2 ж", &[(Tok::Name, 0, 5), (Tok::Name, 6, 8)]),
    (
        "_ vars OR",
        &[(Tok::Name, 0, 1), (Tok::Name, 2, 6), (Tok::Name, 7, 9)],
    ),
    (
        "var or",
        &[
            (Tok::Word(Word::VarWord), 0, 3),
            (Tok::Word(Word::OrWord), 4, 6),
        ],
    ),
    ("007", &[(Tok::Number(7), 0, 3)]),
    ("1000000000", &[(Tok::Number(1_000_000_000), 0, 10)]),
    ("2b", &[(Tok::Number(2), 0, 1), (Tok::Name, 1, 2)]),
];

#[test]
fn tokens_of_texts(rt: HostRuntime) {
    for (text, tokens) in &TEXTS {
        assert!(rt; has_tokens(rt.alloc(), text.as_bytes(), tokens), "{text:?}");
    }
}

// A token's kind, and the operator that it stands for.
const OPERATORS: [(Tok, Option<Op>); 9] = [
    (Tok::Word(Word::OrWord), Some(Op::Or)),
    (Tok::Word(Word::LessWord), Some(Op::Without)),
    (Tok::Word(Word::AbsWord), Some(Op::Abs)),
    (Tok::Sign(Sign::AtLeast), Some(Op::AtLeast)),
    (Tok::Sign(Sign::Minus), Some(Op::Subtract)),
    (Tok::Word(Word::FalseWord), None),
    (Tok::Sign(Sign::Range), None),
    (Tok::Name, None),
    (Tok::Number(0), None),
];

#[test]
fn operators_of_tokens(rt: HostRuntime) {
    for (kind, op) in &OPERATORS {
        assert!(rt; operator_of(*kind) == *op, "the operator of {kind:?}");
    }
}
