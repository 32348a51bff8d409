//! A disk, as a journal needs it.
//!
//! A disk may tell its state: the content that its reads give, and what a crash may leave at this moment and may have left at each moment before.
//! Between two syncs each written range and the part past the old end may hold any bytes, bytes outside stay, and the size is between the old and
//! the new. After a sync that succeeds a crash leaves the content alone. A call that fails may have had any part of its effect.
//! A disk in memory tells all this; a real file tells nothing, and then no clause speaks of its bytes.

ghost use Rattle.std.specs.Prelude.{◌≡◌, ℕ, ◌≤◌, Option, take, drop, length, IfOk, OnErr};
ghost use Rattle.al_base.specs.Outside.{Rose};
ghost use Rattle.al_disk.specs.Images.{Wrote, CutTo};
ghost use Rattle.al_disk.specs.States.{DiskState, Told, Goes, Changes, Syncs, ReadsAsAnImage, put};

use std::error::Error;
use std::fmt;

/// A disk refused a call, of which it may have done a part.
#[derive(Clone, Copy, Debug, PartialEq, Eq)]
pub struct DiskFault;

impl fmt::Display for DiskFault {
    fn fmt<W: fmt::Write>(&self, f: &mut fmt::Formatter<W>) -> fmt::Result {
        f.write_str("a disk failed")
    }
}

impl Error for DiskFault {}

/// What keeps bytes, by places from 0 on.
pub trait Disk: Drop {
    /// The state, where the disk tells it.
    ghost told: { Self → Option DiskState };

    /// How many calls have failed.
    ghost faults: { Self → ℕ };

    /// How many bytes there are.
    fn size(&mut self) -> Result<u64, DiskFault>
        ensures size { IfOk result (λ size. Told (told self.old) (λ s. size ≡ length s.content)) }
        ensures same { told self.new ≡ told self.old }
        ensures as_it_reads { Told (told self.new) ReadsAsAnImage }
        ensures later { faults self.old ≤ faults self.new }
        ensures cause { OnErr result (Rose (faults self.old) (faults self.new)) };

    /// Reads from a place on into the front of `buf`, as much as there is and fits, and answers how much.
    fn read_at(&mut self, place: u64, buf: &mut [u8]) -> Result<usize, DiskFault>
        ensures within { IfOk result (λ count. count ≤ length buf.new) }
        ensures read { IfOk result (λ count.
            Told (told self.old) (λ s.
            take count buf.new ≡ take (length buf.old) (drop place s.content))) }
        ensures same { told self.new ≡ told self.old }
        ensures as_it_reads { Told (told self.new) ReadsAsAnImage }
        ensures later { faults self.old ≤ faults self.new }
        ensures cause { OnErr result (Rose (faults self.old) (faults self.new)) };

    /// Writes over what is there from a place on, and past the end.
    fn write_at(&mut self, place: u64, bytes: &[u8]) -> Result<(), DiskFault>
        requires { Told (told self.old) (λ s. place ≤ length s.content) }
        ensures wrote { Goes (λ s t.
            Changes (Wrote place (length bytes.now)) (put place bytes.now s.content) result s t)
            (told self.old) (told self.new) }
        ensures as_it_reads { Told (told self.new) ReadsAsAnImage }
        ensures later { faults self.old ≤ faults self.new }
        ensures cause { OnErr result (Rose (faults self.old) (faults self.new)) };

    /// Cuts what lies past a size off.
    fn cut(&mut self, size: u64) -> Result<(), DiskFault>
        requires { Told (told self.old) (λ s. size ≤ length s.content) }
        ensures cut { Goes (λ s t.
            Changes (CutTo size) (take size s.content) result s t) (told self.old) (told self.new) }
        ensures as_it_reads { Told (told self.new) ReadsAsAnImage }
        ensures later { faults self.old ≤ faults self.new }
        ensures cause { OnErr result (Rose (faults self.old) (faults self.new)) };

    /// Makes what was changed last over a crash.
    fn sync(&mut self) -> Result<(), DiskFault>
        ensures as_it_read { Told (told self.old) ReadsAsAnImage }
        ensures synced { Goes (λ s t. Syncs result s t) (told self.old) (told self.new) }
        ensures as_it_reads { Told (told self.new) ReadsAsAnImage }
        ensures later { faults self.old ≤ faults self.new }
        ensures cause { OnErr result (Rose (faults self.old) (faults self.new)) };
}
