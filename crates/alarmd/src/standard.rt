//! The trusted edge: descriptors 0, 1 and 2 are no file's that the program opens.

use std::fs::{File, OpenOptions};
use std::os::fd::AsRawFd;

const NULL: &str = "/dev/null";

/// The numbers of standard input and of standard errors, the last of the three.
const INPUT: i32 = 0;

const LAST: i32 = 2;

/// Holds the numbers of standard descriptors that were closed when the program began, so that no file gets them. What is opened there fails
/// at what is asked of it: reads of standard input, and writes of the two others.
#[derive(Drop)]
pub struct StandardNumbers {
    _held: [Option<File>; 3],
}

impl StandardNumbers {
    /// Takes those that are free. It has to come before anything else is opened.
    pub fn hold(rt: &HostRuntime) -> StandardNumbers {
        let input = null(rt, false, INPUT);
        let output = null(rt, true, LAST);
        let errors = null(rt, true, LAST);
        StandardNumbers {
            _held: [input, output, errors],
        }
    }
}

/// The null device for reading or for writing alone, where it gets at most this number: the system gives the least that is free.
fn null(rt: &HostRuntime, read: bool, last: i32) -> Option<File> {
    let file = OpenOptions::new()
        .read(read)
        .write(!read)
        .open(rt, NULL)
        .ok()?;
    (file.as_raw_fd() <= last).then_some(file)
}

/// Whether the file has the number of a standard descriptor.
pub fn is_standard(file: &File) -> bool {
    file.as_raw_fd() <= LAST
}
