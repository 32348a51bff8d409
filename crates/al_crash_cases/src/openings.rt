//! What is opened, and why not.

use crate::journals::shown;
use al_office::OfficeFault;

/// A journal of capacity 4,096 whose one entry sets the maximum of status changes to 2, at time 1.
const ONE: &[u8] = b"\x01ALJ1\0\0\0\0\0\0\x10\0\x01\0\0\0\x0d\0\0\0\0\0\0\0\x01\0\0\x03\0\x02\0";

/// The same without its last byte.
const TORN: &[u8] = b"\x01ALJ1\0\0\0\0\0\0\x10\0\x01\0\0\0\x0d\0\0\0\0\0\0\0\x01\0\0\x03\0\x02";

/// The same entry at time 0, which is not later than the start.
const EARLY: &[u8] = b"\x01ALJ1\0\0\0\0\0\0\x10\0\x01\0\0\0\x0d\0\0\0\0\0\0\0\0\0\0\x03\0\x02\0";

/// The same entry of a kind that there is none of.
const STRANGE: &[u8] = b"\x01ALJ1\0\0\0\0\0\0\x10\0\x01\0\0\0\x0d\0\0\0\0\0\0\0\x01\0\0\0\0\x02\0";

/// The same entry twice, of which the second changes nothing.
const TWICE: &[u8] =
    b"\x01ALJ1\0\0\0\0\0\0\x10\0\x01\0\0\0\x0d\0\0\0\0\0\0\0\x01\0\0\x03\0\x02\x01\0\0\0\x0d\0\0\0\0\0\0\0\x02\0\0\x03\0\x02\0";

/// The bytes of a disk, and how many entries it shows, or why it isn't opened.
const OPENED: [(&[u8], Result<usize, OfficeFault>); 8] = [
    (b"", Err(OfficeFault::NotAJournal)),
    (b"\x01ALJ1", Err(OfficeFault::NotAJournal)),
    (b"\x01ALJ1\0\0\0\0\0\0\x10\0\0", Ok(0)),
    (ONE, Ok(1)),
    (TORN, Err(OfficeFault::Invalid(0))),
    (EARLY, Err(OfficeFault::Invalid(0))),
    (STRANGE, Err(OfficeFault::Invalid(0))),
    (TWICE, Err(OfficeFault::Invalid(1))),
];

#[test]
fn opens_what_is_legal(rt: HostRuntime) {
    for (image, wanted) in &OPENED {
        assert!(rt; shown(rt.alloc(), image) == *wanted, "{image:?}");
    }
}
