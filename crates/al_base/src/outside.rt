//! The outside: what gives bytes, what takes them, and what tells the time.
//!
//! Each of them may tell what it has left or holds. What lies in memory does; a real stream tells nothing, and then no clause speaks of its bytes.

ghost use Rattle.std.specs.Prelude.{◌≡◌, ℕ, ◌<◌, ◌≤◌, Option, List, take, length, IfOk, IfSome, OnErr};
ghost use Rattle.std.specs.Option.{option_map};
ghost use Rattle.std.specs.Io.KnownBytes.{Consumes, Appends, Keeps};
ghost use Rattle.al_base.specs.Outside.{Rose, TellsEnd};
ghost use Rattle.al_base.specs.Readings.{Readings, next_reading, after_reading};

use crate::stamp::Stamp;
use std::error::Error;
use std::fmt;

/// A source didn't give its next bytes, which are left as they were.
#[derive(Clone, Copy, Debug, PartialEq, Eq)]
pub struct ReadFault;

impl fmt::Display for ReadFault {
    fn fmt<W: fmt::Write>(&self, f: &mut fmt::Formatter<W>) -> fmt::Result {
        f.write_str("a read failed")
    }
}

impl Error for ReadFault {}

/// A sink took nothing of a piece.
#[derive(Clone, Copy, Debug, PartialEq, Eq)]
pub struct WriteFault;

impl fmt::Display for WriteFault {
    fn fmt<W: fmt::Write>(&self, f: &mut fmt::Formatter<W>) -> fmt::Result {
        f.write_str("a write failed")
    }
}

impl Error for WriteFault {}

/// What gives bytes, one after the other, in pieces of its own choice.
pub trait Source: Drop {
    /// The bytes that are left, where the source tells them.
    ghost left: { Self → Option (List ℕ) };

    /// How many reads have failed.
    ghost faults: { Self → ℕ };

    /// Reads the next bytes into the front of `buf`, at least one; 0 is the end.
    fn read(&mut self, buf: &mut [u8]) -> Result<usize, ReadFault>
        requires { 0 < length buf.old }
        ensures within { IfOk result (λ count. count ≤ length buf.new) }
        ensures gave { IfOk result (λ count.
            Consumes (left self.old) (left self.new) (take count buf.new)) }
        ensures end { IfOk result (λ count. TellsEnd (left self.old) count) }
        ensures fault { OnErr result (Keeps (left self.old) (left self.new)) }
        ensures later { faults self.old ≤ faults self.new }
        ensures cause { OnErr result (Rose (faults self.old) (faults self.new)) };
}

/// What takes bytes, one after the other.
pub trait Sink: Drop {
    /// The bytes that the sink holds, where it tells them.
    ghost held: { Self → Option (List ℕ) };

    /// How many writes have failed.
    ghost faults: { Self → ℕ };

    /// Takes the first bytes of the piece, at least one, and answers how many.
    fn write(&mut self, bytes: &[u8]) -> Result<usize, WriteFault>
        requires { 0 < length bytes.now }
        ensures some { IfOk result (λ count. 0 < count) }
        ensures within { IfOk result (λ count. count ≤ length bytes.now) }
        ensures took { IfOk result (λ count.
            Appends (held self.old) (held self.new) (take count bytes.now)) }
        ensures fault { OnErr result (Keeps (held self.old) (held self.new)) }
        ensures later { faults self.old ≤ faults self.new }
        ensures cause { OnErr result (Rose (faults self.old) (faults self.new)) };
}

/// What tells the time. It can't fail: where there is no new reading it repeats the last one.
pub trait Clock: Drop {
    /// The readings to come, where the clock tells them.
    ghost readings: { Self → Option Readings };

    /// The next reading.
    fn now(&mut self) -> Stamp
        ensures reading { IfSome (readings self.old) (λ ahead. result ≡ next_reading ahead) }
        ensures after { readings self.new ≡ option_map after_reading (readings self.old) };
}
