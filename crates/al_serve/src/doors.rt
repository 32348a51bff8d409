//! The door by which connections come.

ghost use Rattle.std.specs.Prelude.{◌≡◌, ◌≤◌, ◌<◌, ℕ, IfOk, IfSome, IfNone, OnErr};
ghost use Rattle.al_base.specs.Outside.{Rose};
ghost use Rattle.al_serve.specs.Doors.{DoorState, Gives, IsAtEnd, StaysOpen, TakesBack, connection_of};

use al_base::{Sink, Source};
use std::error::Error;
use std::fmt;

/// A door gave no connection, and may give one at the next call.
#[derive(Clone, Copy, Debug, PartialEq, Eq)]
pub struct DoorFault;

impl fmt::Display for DoorFault {
    fn fmt<W: fmt::Write>(&self, f: &mut fmt::Formatter<W>) -> fmt::Result {
        f.write_str("a door failed")
    }
}

impl Error for DoorFault {}

/// What gives connections, one after the other, and takes them back.
pub trait Doors: Drop {
    type In: Source;

    type Out: Sink;

    /// The connections to come and those that were finished, where it tells them, how many are out, and how many calls have failed.
    ghost state: { Self → DoorState };

    /// The next connection; None is the end of the door.
    fn next_connection(&mut self) -> Result<Option<(Self::In, Self::Out)>, DoorFault>
        ensures gives { IfOk result (λ got.
            IfSome got (λ connection.
            Gives (state self.old)
            (connection_of Self.In.left Self.In.faults Self.Out.held Self.Out.faults connection.0
            connection.1) (state self.new))) }
        ensures end { IfOk result (λ got. IfNone got (IsAtEnd (state self.old))) }
        ensures ended { IfOk result (λ got.
            IfNone got (StaysOpen (state self.old) (state self.new))) }
        ensures fault { OnErr result (StaysOpen (state self.old) (state self.new)) }
        ensures later { (state self.old).faults ≤ (state self.new).faults }
        ensures cause { OnErr result (Rose (state self.old).faults (state self.new).faults) };

    /// Takes a connection back that was served. It can't fail.
    fn finish(&mut self, input: Self::In, output: Self::Out)
        requires { 0 < (state self.old).out }
        ensures takes { TakesBack (state self.old)
            (connection_of Self.In.left Self.In.faults Self.Out.held Self.Out.faults input output)
            (state self.new) }
        ensures later { (state self.old).faults ≤ (state self.new).faults };
}
