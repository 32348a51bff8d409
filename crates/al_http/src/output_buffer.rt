//! Bytes that are gathered to be written together.

ghost use Rattle.std.specs.Prelude.{◌≡◌, ◌+◌, ◌≤◌, [], ◌++◌, take, length};
ghost use Rattle.al_http.specs.OutputBuffers.{output_room};

use std::marker::Model;

/// How many bytes are gathered at most.
pub const ROOM: usize = 1_024;

/// The gathered bytes.
#[derive(Drop)]
pub struct OutputBuffer {
    bytes: [u8; ROOM],
    len: usize,
}

impl Model for OutputBuffer {
    ghost use Rattle.std.specs.Prelude.{◌≤◌, List, ℕ, take};
    ghost use Rattle.al_http.specs.OutputBuffers.{output_room};

    ghost Value = { List ℕ };

    ghost view = { λ b. take b.len b.bytes };

    ghost invariant = { λ b. b.len ≤ output_room };
}

/// Writes bytes into the room, from the index on.
fn write_at(room: &mut [u8], at: usize, bytes: &[u8])
    requires { at + length bytes.now ≤ length room.old }
    ensures { take (at + length bytes.now) room.new ≡ take at room.old ++ bytes.now }
{
    room[at..at + bytes.len()].copy_from_slice(bytes);
}

impl OutputBuffer {
    pub fn new() -> OutputBuffer
        ensures { result ≡ [] }
    {
        OutputBuffer {
            bytes: [0; ROOM],
            len: 0,
        }
    }

    pub fn len(&self) -> usize
        ensures value { result ≡ length self.now }
        ensures within { result ≤ output_room }
    {
        self.len
    }

    pub fn bytes(&self) -> &[u8]
        ensures { result.now ≡ self.now }
    {
        &self.bytes[..self.len]
    }

    pub fn clear(&mut self)
        ensures { self.new ≡ [] }
    {
        self.len = 0;
    }

    pub fn push(&mut self, bytes: &[u8])
        requires { length self.old + length bytes.now ≤ output_room }
        ensures { self.new ≡ self.old ++ bytes.now }
    {
        write_at(&mut self.bytes, self.len, bytes);
        self.len += bytes.len();
    }

    pub fn push_text(&mut self, text: &str)
        requires { length self.old + length text.now ≤ output_room }
        ensures { self.new ≡ self.old ++ text.now }
    {
        self.push(text.as_bytes());
    }
}
