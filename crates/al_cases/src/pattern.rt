//! Patterns.

use al_pattern::{Pattern, PatternFault};
use std::alloc::{AllocError, Global};

/// Patterns, texts, and whether the whole text is taken.
const TEXTS: [(&str, &str, bool); 45] = [
    ("(eth|lag)[0-9]+", "eth12", true),
    ("(eth|lag)[0-9]+", "eth", false),
    ("(eth|lag)[0-9]+", "xeth1", false),
    ("(eth|lag)[0-9]+", "lag0", true),
    ("(eth|lag)[0-9]+", "eth1x", false),
    ("", "", true),
    ("", "a", false),
    ("()*", "", true),
    ("()*", "a", false),
    ("a|", "", true),
    ("ab?c", "ac", true),
    ("ab?c", "abbc", false),
    ("ab+c", "ac", false),
    ("ab+c", "abbbc", true),
    ("(a|b)*c", "abbac", true),
    ("(a|b)*c", "abxc", false),
    ("(a*b*)+", "abab", true),
    ("((a?)(b?)c*)+d", "bacbd", true),
    ("[a-c]x", "bx", true),
    ("[a-c]x", "dx", false),
    ("[^a-c]", "d", true),
    ("[^a-c]", "c", false),
    ("[^a-c]", "\u{e9}", true),
    ("[^a-c]", "\u{1f600}", true),
    ("[-a]", "-", true),
    ("[a-]", "-", true),
    ("[a-]", "b", false),
    ("[^-]", "-", false),
    ("[a^]", "^", true),
    ("[\\d.]+", "10.2", true),
    ("\\d\\s\\d", "1\t2", true),
    ("\\d", "a", false),
    ("\\s", "\r", true),
    ("a\\tb", "a\tb", true),
    (".", "x", true),
    (".", "\n", false),
    (".", "\r", false),
    (".", "\u{e9}", true),
    ("..", "\u{e9}", false),
    ("a.c", "a\u{20ac}c", true),
    ("\\.\\\\", ".\\", true),
    ("\\.", "x", false),
    ("^a$", "^a$", true),
    ("[\\[-\\]]", "\\", true),
    // no pattern is slow
    (
        "(a*)*b",
        "aaaaaaaaaaaaaaaaaaaaaaaaaaaaaaaaaaaaaaaaaaaaaaaaaaaaaaaaaaaaaaaa",
        false,
    ),
];

/// Texts that are no patterns, with the fault.
const FAULTS: [(&str, PatternFault); 42] = [
    ("a{2}", PatternFault::Unsupported(1)),
    ("a**", PatternFault::Syntax(2)),
    ("*a", PatternFault::Syntax(0)),
    ("a|+", PatternFault::Syntax(2)),
    ("(?", PatternFault::Syntax(1)),
    (")", PatternFault::Syntax(0)),
    ("(a))", PatternFault::Syntax(3)),
    ("(a", PatternFault::Syntax(2)),
    ("((a)", PatternFault::Syntax(4)),
    ("a]", PatternFault::Syntax(1)),
    ("a}", PatternFault::Syntax(1)),
    ("[a", PatternFault::Syntax(2)),
    ("[", PatternFault::Syntax(1)),
    ("[]", PatternFault::Syntax(1)),
    ("[^]", PatternFault::Syntax(2)),
    ("[b-a]", PatternFault::Syntax(1)),
    ("[xb-a", PatternFault::Syntax(2)),
    ("[a-\\n]", PatternFault::Syntax(1)),
    ("[a-[b]]", PatternFault::Unsupported(2)),
    ("[-[b]]", PatternFault::Unsupported(1)),
    ("[a--[b]]", PatternFault::Unsupported(3)),
    ("[a-b-\\q]", PatternFault::Unsupported(5)),
    ("[a-b-c]", PatternFault::Syntax(5)),
    ("[--a]", PatternFault::Syntax(3)),
    ("[a--]", PatternFault::Syntax(3)),
    ("[\\d-a]", PatternFault::Syntax(4)),
    ("[a-\\d]", PatternFault::Syntax(4)),
    ("[\\-[", PatternFault::Syntax(3)),
    ("[a-", PatternFault::Syntax(3)),
    ("[a[", PatternFault::Syntax(2)),
    ("[\\", PatternFault::Syntax(2)),
    ("[\\,]", PatternFault::Syntax(2)),
    ("[\\w]", PatternFault::Unsupported(1)),
    ("[\u{e9}]", PatternFault::Unsupported(1)),
    ("\\p", PatternFault::Unsupported(0)),
    ("a\\1", PatternFault::Unsupported(1)),
    ("\\", PatternFault::Syntax(1)),
    ("\\,", PatternFault::Syntax(1)),
    ("\\\u{e9}", PatternFault::Unsupported(1)),
    ("a\u{e9}", PatternFault::Unsupported(1)),
    ("a\tb", PatternFault::Unsupported(1)),
    ("{", PatternFault::Unsupported(0)),
];

/// Three parts of a text, each so often, and the fault of the text.
const LIMITS: [([(&str, usize); 3], Option<PatternFault>); 10] = [
    ([("a", 256), ("", 0), ("", 0)], None),
    (
        [("a", 257), ("", 0), ("", 0)],
        Some(PatternFault::TooLarge(256)),
    ),
    (
        [("a", 256), ("*", 1), ("", 0)],
        Some(PatternFault::TooLarge(256)),
    ),
    (
        [("a", 256), ("|", 1), ("", 0)],
        Some(PatternFault::TooLarge(256)),
    ),
    (
        [("a", 256), ("]", 1), ("", 0)],
        Some(PatternFault::Syntax(256)),
    ),
    (
        [("a", 256), ("\\q", 1), ("", 0)],
        Some(PatternFault::Unsupported(256)),
    ),
    (
        [("a", 256), ("\\,", 1), ("", 0)],
        Some(PatternFault::TooLarge(256)),
    ),
    ([("(", 16), ("a", 1), (")", 16)], None),
    (
        [("(", 17), ("a", 1), (")", 17)],
        Some(PatternFault::TooDeep(16)),
    ),
    (
        [("(", 16), ("a", 240), ("(", 1)],
        Some(PatternFault::TooLarge(256)),
    ),
];

fn text_of(alloc: Global, parts: &[(&str, usize)]) -> Result<Vec<u8>, AllocError> {
    let mut text = Vec::new(alloc);
    for (part, times) in parts {
        for _ in 0..*times {
            text.extend_from_slice(part.as_bytes())?;
        }
    }
    Ok(text)
}

/// Whether the text is a pattern that takes the other one or doesn't, as wanted.
fn takes(alloc: Global, pattern: &str, text: &str, want: bool) -> bool {
    match Pattern::read(alloc, pattern.as_bytes()) {
        Ok(pattern) => pattern.matches(text.as_bytes()) == want,
        Err(_) => false,
    }
}

fn fault_of(alloc: Global, text: &[u8]) -> Option<PatternFault> {
    Pattern::read(alloc, text).err()
}

#[test]
fn takes_whole_texts(rt: HostRuntime) {
    for (pattern, text, want) in &TEXTS {
        assert!(rt; takes(rt.alloc(), pattern, text, *want));
    }
}

/// Whether three parts of a text, each so often, make a text of this fault.
fn is_limit(alloc: Global, parts: &[(&str, usize)], fault: Option<PatternFault>) -> bool {
    match text_of(alloc, parts) {
        Ok(text) => fault_of(alloc, &text) == fault,
        Err(_) => false,
    }
}

#[test]
fn faults_at_their_places(rt: HostRuntime) {
    for (text, fault) in &FAULTS {
        assert!(rt; fault_of(rt.alloc(), text.as_bytes()) == Some(*fault));
    }
    for (parts, fault) in &LIMITS {
        assert!(rt; is_limit(rt.alloc(), parts, *fault));
    }
}
