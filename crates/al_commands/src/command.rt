ghost use Rattle.std.specs.Prelude.{◌≡◌, ◌≤◌, ◌↔◌, ◌∷◌, [], IsTrue, codes, decimal, length};
ghost use Rattle.al_commands.specs.Words.{AskFor, IsJournal, IsNumber};

use al_base::Text;
use itoa::Buffer;
use std::str;

/// What the command line asks for.
#[derive(Clone, Copy, Debug, PartialEq, Eq)]
pub enum Command {
    /// `init JOURNAL CAPACITY`: to make a journal.
    Init { capacity: u64 },
    /// `session JOURNAL`: to answer the requests of standard input.
    Session,
    /// `check JOURNAL`: to tell what there is in a journal.
    Check,
    /// `drill SEED COUNT`: to answer made-up requests over a journal in memory.
    Drill { seed: u64, count: u64 },
}

/// The longest name of a journal, in bytes.
const JOURNAL_LIMIT: usize = 4096;

const LEAST_CAPACITY: u64 = 4096;

const GREATEST_CAPACITY: u64 = 268_435_456;

const GREATEST_SEED: u64 = 2_147_483_647;

const GREATEST_COUNT: u64 = 20_000;

impl Command {
    /// What these words ask for, None where they are no row of the usage line.
    pub fn of(words: &[Text]) -> Option<Command>
        ensures { AskFor words.now result }
    {
        match words {
            [name, journal] => of_two(name.bytes(), journal.bytes()),
            [name, first, second] => of_three(name.bytes(), first.bytes(), second.bytes()),
            _ => None,
        }
    }
}

fn of_two(name: &[u8], journal: &[u8]) -> Option<Command>
    ensures { AskFor (name.now ∷ journal.now ∷ []) result }
{
    if !is_journal(journal) {
        return None;
    }
    if name == b"session".as_slice() {
        return Some(Command::Session);
    }
    if name == b"check".as_slice() {
        return Some(Command::Check);
    }
    None
}

fn of_three(name: &[u8], first: &[u8], second: &[u8]) -> Option<Command>
    ensures { AskFor (name.now ∷ first.now ∷ second.now ∷ []) result }
{
    if name == b"init".as_slice() {
        return init(first, second);
    }
    if name == b"drill".as_slice() {
        return drill(first, second);
    }
    None
}

fn init(journal: &[u8], capacity: &[u8]) -> Option<Command>
    ensures { AskFor (codes "init" ∷ journal.now ∷ capacity.now ∷ []) result }
{
    let capacity = number(capacity, GREATEST_CAPACITY)?;
    if is_journal(journal) && capacity >= LEAST_CAPACITY {
        Some(Command::Init { capacity })
    } else {
        None
    }
}

fn drill(seed: &[u8], count: &[u8]) -> Option<Command>
    ensures { AskFor (codes "drill" ∷ seed.now ∷ count.now ∷ []) result }
{
    let seed = number(seed, GREATEST_SEED)?;
    let count = number(count, GREATEST_COUNT)?;
    Some(Command::Drill { seed, count })
}

/// Whether this may name a journal: by its length alone.
pub fn is_journal(journal: &[u8]) -> bool
    ensures { IsTrue result ↔ IsJournal journal.now }
{
    !journal.is_empty() && journal.len() <= JOURNAL_LIMIT
}

/// The number that the digits are, without sign or needless leading zero, where it is this great at most.
pub fn number(digits: &[u8], greatest: u64) -> Option<u64>
    ensures { IsNumber digits.now greatest result }
{
    let Ok(text) = str::from_utf8(digits) else {
        return None;
    };
    number_in(text, greatest)
}

#[tactic(auto, using(crate::proofs::Numbers::not_parsed, crate::proofs::Numbers::other_number))]
fn number_in(text: &str, greatest: u64) -> Option<u64>
    ensures { IsNumber text.now greatest result }
{
    let Ok(number) = text.parse::<u64>() else {
        return None;
    };
    if number <= greatest && is_written(text.as_bytes(), number) {
        Some(number)
    } else {
        None
    }
}

/// Whether these are the digits of the number.
fn is_written(digits: &[u8], number: u64) -> bool
    ensures { IsTrue result ↔ (digits.now ≡ decimal number) }
{
    let mut buffer = Buffer::new();
    buffer.format(number).as_bytes() == digits
}
