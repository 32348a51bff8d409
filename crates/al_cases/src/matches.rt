//! Resource matches.

use al_ids::{MatchFault, Resource, ResourceMatch};
use al_pattern::PatternFault;
use std::alloc::Global;

/// A resource with two predicates.
const LINK: &str = "/ex:net/link[from='a'][to='b']";

/// Matches, resources, and whether the one takes the other.
const TAKES: [(&str, &str, bool); 38] = [
    ("1.3.6.1.2.1.2.2", "1.3.6.1.2.1.2.2.1.1.5", true),
    ("1.3.6.1.2.1.2.2", "1.3.6.1.2.1.2.20", false),
    ("1.3", "1.3", true),
    ("1.3.6", "1.3", false),
    ("1.3.6", "1.3x6", false),
    ("/ex:net/link[to='b']", LINK, true),
    ("/net/link", LINK, true),
    ("/ex:net/link[to='a']", LINK, false),
    ("/ex:net", LINK, false),
    ("/net/link/x", LINK, false),
    ("/ex:net/link[to='b'][from='a']", LINK, true),
    ("/net/link[ex:to=\"b\"]", LINK, true),
    ("/net/link[via='b']", LINK, false),
    ("/net/links", LINK, false),
    ("/other:net/link", LINK, false),
    ("/net/ex:link", LINK, true),
    ("/net/other:link", LINK, false),
    ("/ex:net/link", "/ex:net/other:link", false),
    ("/ex:net/other:link", "/ex:net/other:link", true),
    ("/net/link", "/ex:net/other:link", true),
    ("/net/other:link/x", "/ex:net/other:link/x", true),
    ("/net/other:link/x", "/ex:net/other:link/ex:x", false),
    ("/net[.='v']", "/ex:net[.='v']", true),
    ("/net[a='v']", "/ex:net[.='v']", false),
    ("/net[to='c']", "/ex:net[to='b'][to='c']", true),
    ("/net[a='\u{e9}']", "/ex:net[a=\"\u{e9}\"]", true),
    ("/a", "/a", false),
    ("[/]a", "/a", true),
    ("[/]ex:a", "/ex:a", false),
    ("eth[0-9]+", "eth12", true),
    ("eth[0-9]+", "xeth1", false),
    ("eth", "eth1", false),
    (".*", "1.3.6", false),
    (".*", "/ex:a", false),
    (".*", "/a", true),
    (".*", "1.40", true),
    ("1.40", "1.40", true),
    ("[^a]", "\u{e9}", true),
];

/// Bytes that are no match, with the fault.
const FAULTS: [(&[u8], MatchFault); 29] = [
    (
        &[b'a'; 512],
        MatchFault::Pattern(PatternFault::TooLarge(256)),
    ),
    (&[b'a'; 513], MatchFault::TooLong),
    (b"", MatchFault::Empty),
    (b"/", MatchFault::XPathUnsupported(1)),
    (b"//link", MatchFault::XPathUnsupported(1)),
    (b"/1a", MatchFault::XPathUnsupported(1)),
    (b"/\xc3\xa9", MatchFault::XPathUnsupported(1)),
    (b"/a b", MatchFault::XPathUnsupported(2)),
    (b"/a\xff", MatchFault::XPathUnsupported(2)),
    (b"/a/", MatchFault::XPathUnsupported(3)),
    (b"/a[1]", MatchFault::XPathUnsupported(3)),
    (b"/ex:", MatchFault::XPathUnsupported(4)),
    (b"/a:b:c", MatchFault::XPathUnsupported(4)),
    (b"/a[.:b='c']", MatchFault::XPathUnsupported(4)),
    (b"/a[b=c]", MatchFault::XPathUnsupported(5)),
    (b"/a[b='c' ]", MatchFault::XPathUnsupported(8)),
    (b"/a[b='c'", MatchFault::XPathUnsupported(8)),
    (b"/a[b='c\"]", MatchFault::XPathUnsupported(9)),
    (b"/a[b='\xff']", MatchFault::XPathUnsupported(6)),
    (b"/a[b='\xc3(']", MatchFault::XPathUnsupported(7)),
    (b"/a[b='\xc3", MatchFault::XPathUnsupported(7)),
    (b"/a[b='\xed\xa0\x80']", MatchFault::XPathUnsupported(7)),
    (b"/a[b='\xf4\x90", MatchFault::XPathUnsupported(7)),
    (b"/a[b='\xe2\x82'", MatchFault::XPathUnsupported(8)),
    (b"/a[b='\xf0\x9f\x98", MatchFault::XPathUnsupported(9)),
    (b"/a[b='\xf0\x9f\x98'", MatchFault::XPathUnsupported(9)),
    (b"eth{2}", MatchFault::Pattern(PatternFault::Unsupported(3))),
    (b"(a", MatchFault::Pattern(PatternFault::Syntax(2))),
    (b"\xff", MatchFault::Pattern(PatternFault::Unsupported(0))),
];

/// Whether the text is a match that takes the resource or doesn't, as wanted.
fn takes(alloc: Global, text: &str, name: &str, taken: bool) -> bool {
    match ResourceMatch::read(alloc, text.as_bytes()) {
        Ok(read) => match Resource::read(alloc, name.as_bytes()) {
            Ok(resource) => read.matches(&resource) == taken,
            Err(_) => false,
        },
        Err(_) => false,
    }
}

#[test]
fn takes_resources_of_its_kind(rt: HostRuntime) {
    for (text, name, taken) in &TAKES {
        assert!(rt; takes(rt.alloc(), text, name, *taken));
    }
}

#[test]
fn tells_the_first_fault(rt: HostRuntime) {
    for (text, fault) in &FAULTS {
        assert!(rt; ResourceMatch::read(rt.alloc(), text).err() == Some(*fault));
    }
}
