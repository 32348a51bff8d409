//! The trusted edge: connections over TCP, and the door that they come by. They tell no bytes, but count their faults.

ghost use Rattle.std.specs.Prelude.{◌≡◌, ◌≤◌, IfOk, vec_len};
ghost use Rattle.al_base.specs.Outside.{Rose};

use al_base::{ReadFault, Sink, Source, WriteFault};
use al_serve::{DoorFault, Doors};
use std::alloc::{AllocError, Global};
use std::io::{ErrorKind, Read, Write};
use std::net::{Net, Shutdown, SocketAddr, TcpListener, TcpStream};
use std::rt::Clock;
use std::thread;
use std::time::Duration;

/// How long a read or a write of a connection may wait. It then fails, which ends that connection alone.
const PATIENCE_SECONDS: u64 = 30;

/// How often a door tries to get one connection before it fails.
const TRIES: u32 = 100;

/// How long it waits after a try that failed.
const PAUSE_MS: u64 = 100;

/// How many pieces are still read behind the last answer, and how long each may take.
const LAST_PIECES: u32 = 64;

const LAST_MS: u64 = 250;

const PIECE: usize = 16_384;

/// What a client sends.
#[derive(Drop)]
pub struct TcpSource {
    stream: TcpStream,
    faults: u64,
}

impl Source for TcpSource {
    ghost use Rattle.std.specs.Prelude.{None};

    ghost left = { λ _. None };

    ghost faults = { λ s. s.faults };

    fn read(&mut self, buf: &mut [u8]) -> Result<usize, ReadFault> {
        let got = match self.stream.read(buf) {
            // A program that was stopped and goes on finds its read interrupted.
            Err(error) if error.kind() == ErrorKind::Interrupted => self.stream.read(buf),
            got => got,
        };
        if let Ok(count) = got {
            return Ok(count);
        }
        self.faults = self.faults.saturating_add(1);
        Err(ReadFault)
    }
}

/// What goes to a client.
#[derive(Drop)]
pub struct TcpSink {
    stream: TcpStream,
    faults: u64,
}

impl Sink for TcpSink {
    ghost use Rattle.std.specs.Prelude.{None};

    ghost held = { λ _. None };

    ghost faults = { λ s. s.faults };

    fn write(&mut self, bytes: &[u8]) -> Result<usize, WriteFault> {
        let put = match self.stream.write(bytes) {
            Err(error) if error.kind() == ErrorKind::Interrupted => self.stream.write(bytes),
            put => put,
        };
        if let Ok(count) = put
            && count > 0
        {
            return Ok(count);
        }
        self.faults = self.faults.saturating_add(1);
        Err(WriteFault)
    }
}

/// A door that takes connections off a socket. Several doors may share one; one without a socket fails at each call.
#[derive(Drop)]
pub struct TcpDoor<R: Clock + Drop> {
    rt: R,
    listener: Option<TcpListener>,
    out: u64,
    faults: u64,
}

impl<R: Clock + Drop> TcpDoor<R> {
    /// A door of this socket, where there is one and the system gives a further handle of it.
    fn of(rt: R, listener: &Option<TcpListener>) -> TcpDoor<R> {
        TcpDoor {
            rt,
            listener: another(listener),
            out: 0,
            faults: 0,
        }
    }

    /// The next connection. What fails is tried again, since mostly it was that one connection alone that failed.
    fn accept(&self) -> Option<(TcpSource, TcpSink)> {
        let listener = self.listener.as_ref()?;
        for _ in 0..TRIES {
            if let Some(connection) = accept_one(listener) {
                return Some(connection);
            }
            thread::sleep(&self.rt, Duration::from_millis(PAUSE_MS));
        }
        None
    }

    /// Counts a fault.
    fn fault(&mut self) -> DoorFault
        ensures later { self.old.faults ≤ self.new.faults }
        ensures cause { Rose self.old.faults self.new.faults }
        ensures out { self.new.out ≡ self.old.out }
    {
        self.faults = self.faults.saturating_add(1);
        DoorFault
    }
}

impl<R: Clock + Drop> Doors for TcpDoor<R> {
    type In = TcpSource;

    type Out = TcpSink;

    ghost use Rattle.std.specs.Prelude.{None};

    ghost state = { λ d. record {
      coming = None;
      finished = None;
      out = d.out;
      faults = d.faults;
    } };

    fn next_connection(&mut self) -> Result<Option<(TcpSource, TcpSink)>, DoorFault> {
        let Some(out) = self.out.checked_add(1) else {
            return Err(self.fault());
        };
        match self.accept() {
            Some(connection) => {
                self.out = out;
                Ok(Some(connection))
            }
            None => Err(self.fault()),
        }
    }

    fn finish(&mut self, input: TcpSource, output: TcpSink) {
        self.out -= 1;
        part(input, output);
    }
}

/// So many doors of the socket of this address, which fail where it can't be bound.
pub fn doors_at<R: Net<Listener = TcpListener, Stream = TcpStream> + Clock + Copy + Drop>(
    rt: R,
    alloc: Global,
    address: SocketAddr,
    count: usize,
) -> Result<Vec<TcpDoor<R>>, AllocError>
    ensures { IfOk result (λ doors. vec_len doors ≡ count) }
{
    let listener = TcpListener::bind(&rt, address).ok();
    let mut doors = Vec::new(alloc);
    for _ in 0..count {
        doors.push(TcpDoor::of(rt, &listener))?;
    }
    Ok(doors)
}

fn another(listener: &Option<TcpListener>) -> Option<TcpListener> {
    listener.as_ref()?.try_clone().ok()
}

/// A connection whose reads and writes wait for some time alone, and whose writes go out at once.
fn accept_one(listener: &TcpListener) -> Option<(TcpSource, TcpSink)> {
    let (stream, _) = listener.accept().ok()?;
    stream.set_nodelay(true).ok()?;
    let patience = Some(Duration::from_secs(PATIENCE_SECONDS));
    stream.set_read_timeout(patience).ok()?;
    stream.set_write_timeout(patience).ok()?;
    let source = TcpSource {
        stream: stream.try_clone().ok()?,
        faults: 0,
    };
    Some((source, TcpSink { stream, faults: 0 }))
}

/// Ends a connection. What the client still sends is read for a short time, since the system would reset a connection that is closed with
/// bytes unread, and the client might lose its last answer.
fn part(mut input: TcpSource, output: TcpSink) {
    let short = Some(Duration::from_millis(LAST_MS));
    let quiet = output.stream.shutdown(Shutdown::Write).is_ok()
        && input.stream.set_read_timeout(short).is_ok();
    if !quiet {
        return;
    }
    let mut piece = [0; PIECE];
    for _ in 0..LAST_PIECES {
        match input.stream.read(&mut piece) {
            Ok(count) if count > 0 => {}
            _ => return,
        }
    }
}
