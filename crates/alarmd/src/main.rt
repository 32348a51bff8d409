//! The alarm management server.
#![tactic(auto)]

mod journal_file;
mod standard;
mod tcp_door;
mod words;

ghost use Rattle.std.specs.Prelude.{◌≡◌, IfOk, vec_len};
ghost use Rattle.al_server.specs.ServeWords.{IsServe};

use al_base::{Reading, SystemClock, Text, Writing};
use al_commands::{Command, run, status};
use al_disk::FileDisk;
use al_server::{ServeWords, run_serve};
use journal_file::{Access, disk_at};
use standard::StandardNumbers;
use std::alloc::{AllocError, Global};
use std::fs::File;
use std::net::{SocketAddr, SocketAddrV4};
use std::process::ExitCode;
use std::rt::Clock;
use tcp_door::doors_at;
use words::{journal_in, words_of};

fn main(rt: HostRuntime) -> ExitCode {
    let _numbers = StandardNumbers::hold(&rt);
    let Ok(words) = words_of(&rt) else {
        return ExitCode::from(status::OUT_OF_MEMORY);
    };
    let words = words.as_slice();
    let Some(asked) = ServeWords::of(words) else {
        return ExitCode::from(run_on_disk(rt, words));
    };
    // Each worker has a door and a clock of its own.
    let workers = workers_of(words, asked);
    let address = SocketAddr::V4(SocketAddrV4::new(asked.address.ip, asked.address.port));
    let (Ok(doors), Ok(clocks)) = (
        doors_at(rt, rt.alloc(), address, workers),
        clocks_of(rt, rt.alloc(), workers),
    ) else {
        return ExitCode::from(status::OUT_OF_MEMORY);
    };
    let disk = disk_at(&rt, journal_in(words), Access::Add);
    let mut sink = Writing::new(rt.stdout());
    let (status, ..) = run_serve(&rt, rt.alloc(), words, disk, doors, clocks, &mut sink);
    ExitCode::from(status)
}

/// Does what the words ask for on the file that they name.
fn run_on_disk(rt: HostRuntime, words: &[Text]) -> u8 {
    let journal = journal_in(words);
    let disk = match Command::of(words) {
        Some(Command::Init { capacity }) => disk_at(&rt, journal, Access::Make(capacity)),
        Some(Command::Session) => disk_at(&rt, journal, Access::Add),
        Some(Command::Check) => disk_at(&rt, journal, Access::Look),
        _ => FileDisk::closed(),
    };
    let (status, mut disk) = run_on(rt, words, disk);
    if let Some(Command::Init { capacity }) = Command::of(words)
        && status == status::DONE
    {
        // A commit in a file that has the length of its journal changes no length. A journal whose file stays short is as good.
        let _ = disk.lengthen(capacity);
    }
    status
}

/// Does what the words ask for on this disk, between standard input and standard output, and gives the status and the disk.
fn run_on(rt: HostRuntime, words: &[Text], disk: FileDisk<File>) -> (u8, FileDisk<File>) {
    let mut source = Reading::new(rt.stdin());
    let mut sink = Writing::new(rt.stdout());
    let alloc = rt.alloc();
    let mut clock = SystemClock::new(rt);
    run(alloc, words, disk, &mut source, &mut sink, &mut clock)
}

/// How many workers the row asks for: no other row has the same words.
fn workers_of(words: &[Text], asked: ServeWords) -> usize
    requires { IsServe words.now asked }
    ensures { (serve : ServeWords) → IsServe words.now serve → result ≡ serve.workers }
{
    usize::from(asked.workers)
}

fn clocks_of<R: Clock + Copy + Drop>(
    rt: R,
    alloc: Global,
    count: usize,
) -> Result<Vec<SystemClock<R>>, AllocError>
    ensures { IfOk result (λ clocks. vec_len clocks ≡ count) }
{
    let mut clocks = Vec::new(alloc);
    for _ in 0..count {
        clocks.push(SystemClock::new(rt))?;
    }
    Ok(clocks)
}
