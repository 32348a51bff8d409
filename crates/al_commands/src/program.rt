//! The commands of the program, over any disk, source, sink and clock.

ghost use Rattle.std.specs.Prelude.{◌≡◌, ◌≢◌, ◌≤◌, ◌⊎◌, ℕ};
ghost use Rattle.al_base.specs.Outside.{Rose};
ghost use Rattle.al_commands.specs.Commands.{HasChecked, HasMade};
ghost use Rattle.al_commands.specs.Drills.{Drills};
ghost use Rattle.al_commands.specs.Lines.{Tells, usage_line};
ghost use Rattle.al_commands.specs.Sessions.{HasConversed, HasNotBegun, HasNotTalked};
ghost use Rattle.al_commands.specs.Statuses.{status_bad_words, status_read_fault, status_write_fault};
ghost use Rattle.al_commands.specs.Words.{ByCommand, IsCheck, IsDrill, IsInit, IsNoRow, IsSession, IsWithinRow};

use crate::checking::run_check;
use crate::command::Command;
use crate::drill::run_drill;
use crate::line::tell;
use crate::making::run_init;
use crate::session::run_session;
use crate::status::BAD_WORDS;
use al_base::{Clock, Sink, Source, Text};
use al_disk::Disk;
use std::alloc::Global;

const USAGE: &[u8] =
    b"usage: alarmd init JOURNAL CAPACITY / session JOURNAL / check JOURNAL / drill SEED COUNT / serve JOURNAL ADDRESS WORKERS CONNECTIONS\n";

/// Does what the words ask for, and answers the program's exit status and the disk. The journal is the disk that is handed in.
pub fn run<D: Disk, S: Source, O: Sink, K: Clock>(
    alloc: Global,
    words: &[Text],
    disk: D,
    source: &mut S,
    sink: &mut O,
    clock: &mut K,
) -> (u8, D)
    ensures init { (capacity : ℕ) → IsInit words.now capacity
        → HasMade capacity (record {
          old_disk = D.told disk;
          new_disk = D.told result.1;
          old_faults = D.faults disk;
          new_faults = D.faults result.1;
          old_output = O.held sink.old;
          new_output = O.held sink.new;
        }) result.0 }
    ensures session { IsSession words.now
        → (HasNotBegun (record {
          old_disk = D.told disk;
          new_disk = D.told result.1;
          old_faults = D.faults disk;
          new_faults = D.faults result.1;
        }) result.0
        × HasNotTalked source.old source.new sink.old sink.new clock.old clock.new)
        ⊎ HasConversed (S.left source.old) (record {
          old_output = O.held sink.old;
          new_output = O.held sink.new;
          old_clock = K.readings clock.old;
          new_clock = K.readings clock.new;
        }) (record {
          old_disk = D.told disk;
          new_disk = D.told result.1;
          old_faults = D.faults disk;
          new_faults = D.faults result.1;
        }) result.0 }
    ensures check { IsCheck words.now
        → HasChecked (record {
          old_disk = D.told disk;
          new_disk = D.told result.1;
          old_faults = D.faults disk;
          new_faults = D.faults result.1;
          old_output = O.held sink.old;
          new_output = O.held sink.new;
        }) result.0 }
    ensures drill { (seed count : ℕ) → IsDrill words.now seed count
        → Drills seed count (O.held sink.old) (O.held sink.new) result.0 × (result.1 ≡ disk) }
    ensures usage { IsNoRow words.now
        → Tells usage_line status_bad_words (O.held sink.old) (O.held sink.new) result.0
        × (result.1 ≡ disk) }
    ensures untouched { ¬ (IsSession words.now) → (source.new ≡ source.old)
        × (clock.new ≡ clock.old) }
    ensures read_fault { result.0 ≡ status_read_fault
        → Rose (S.faults source.old) (S.faults source.new) }
    ensures write_fault { result.0 ≡ status_write_fault
        → Rose (O.faults sink.old) (O.faults sink.new) }
    ensures later_source { S.faults source.old ≤ S.faults source.new }
    ensures later_sink { O.faults sink.old ≤ O.faults sink.new }
    ensures later_disk { D.faults disk ≤ D.faults result.1 }
{
    match Command::of(words) {
        Some(command) => run_command(alloc, command, disk, source, sink, clock),
        None => (refuse_words(sink), disk),
    }
}

/// Does what the command says.
fn run_command<D: Disk, S: Source, O: Sink, K: Clock>(
    alloc: Global,
    command: Command,
    disk: D,
    source: &mut S,
    sink: &mut O,
    clock: &mut K,
) -> (u8, D)
    requires { IsWithinRow command }
    ensures does { ByCommand command
        (λ capacity. HasMade capacity (record {
          old_disk = D.told disk;
          new_disk = D.told result.1;
          old_faults = D.faults disk;
          new_faults = D.faults result.1;
          old_output = O.held sink.old;
          new_output = O.held sink.new;
        }) result.0)
        ((HasNotBegun (record {
          old_disk = D.told disk;
          new_disk = D.told result.1;
          old_faults = D.faults disk;
          new_faults = D.faults result.1;
        }) result.0
        × HasNotTalked source.old source.new sink.old sink.new clock.old clock.new)
        ⊎ HasConversed (S.left source.old) (record {
          old_output = O.held sink.old;
          new_output = O.held sink.new;
          old_clock = K.readings clock.old;
          new_clock = K.readings clock.new;
        }) (record {
          old_disk = D.told disk;
          new_disk = D.told result.1;
          old_faults = D.faults disk;
          new_faults = D.faults result.1;
        }) result.0)
        (HasChecked (record {
          old_disk = D.told disk;
          new_disk = D.told result.1;
          old_faults = D.faults disk;
          new_faults = D.faults result.1;
          old_output = O.held sink.old;
          new_output = O.held sink.new;
        }) result.0)
        (λ seed count. Drills seed count (O.held sink.old) (O.held sink.new) result.0
        × (result.1 ≡ disk)) }
    ensures untouched { command ≢ Command.Session → (source.new ≡ source.old)
        × (clock.new ≡ clock.old) }
    ensures read_fault { result.0 ≡ status_read_fault
        → Rose (S.faults source.old) (S.faults source.new) }
    ensures write_fault { result.0 ≡ status_write_fault
        → Rose (O.faults sink.old) (O.faults sink.new) }
    ensures later_source { S.faults source.old ≤ S.faults source.new }
    ensures later_sink { O.faults sink.old ≤ O.faults sink.new }
    ensures later_disk { D.faults disk ≤ D.faults result.1 }
{
    match command {
        Command::Init { capacity } => run_init(capacity, disk, sink),
        Command::Session => run_session(alloc, disk, source, sink, clock),
        Command::Check => run_check(alloc, disk, sink),
        Command::Drill { seed, count } => (run_drill(alloc, seed, count, sink), disk),
    }
}

/// Tells which words there are.
pub fn refuse_words<O: Sink>(sink: &mut O) -> u8
    ensures usage { Tells usage_line status_bad_words (O.held sink.old) (O.held sink.new) result }
    ensures write_fault { result ≡ status_write_fault
        → Rose (O.faults sink.old) (O.faults sink.new) }
    ensures other { result ≢ status_read_fault }
    ensures later { O.faults sink.old ≤ O.faults sink.new }
{
    tell(sink, USAGE, BAD_WORDS)
}
