//! The words of `serve`.

ghost use Rattle.std.specs.Prelude.{◌≡◌, ◌≤◌, ◌∷◌, ◌++◌, [], ℕ, IfNone, IfSome, codes};
ghost use Rattle.al_server.specs.Addresses.{HasNoColon, SplitsAtColon, TellsAddress};
ghost use Rattle.al_server.specs.ServeWords.{AskToServe, IsCount, IsOneServe};

use al_base::Text;
use al_commands::command::{is_journal, number};
use std::net::Ipv4Addr;

/// How the command line asks to serve: `serve JOURNAL ADDRESS WORKERS CONNECTIONS`.
#[derive(Clone, Copy)]
pub struct ServeWords {
    /// Where connections come to.
    pub address: Address,
    /// How many workers serve, each at a door of its own.
    pub workers: u16,
    /// How many connections each of them serves.
    pub connections: u64,
}

/// `a.b.c.d:port`.
#[derive(Clone, Copy)]
pub struct Address {
    pub ip: Ipv4Addr,
    pub port: u16,
}

const GREATEST_PORT: u64 = 65_535;

const MOST_WORKERS: u64 = 64;

const MOST_CONNECTIONS: u64 = 1_000_000;

impl ServeWords {
    /// How these words ask to serve, None where they are no row that does.
    pub fn of(words: &[Text]) -> Option<ServeWords>
        ensures asked { AskToServe words.now result }
        ensures one { IfSome result (λ serve. IsOneServe words.now serve) }
    {
        match words {
            [name, journal, address, workers, connections] => of_five(
                name.bytes(),
                journal.bytes(),
                address.bytes(),
                workers.bytes(),
                connections.bytes(),
            ),
            _ => None,
        }
    }
}

fn of_five(
    name: &[u8],
    journal: &[u8],
    address: &[u8],
    workers: &[u8],
    connections: &[u8],
) -> Option<ServeWords>
    ensures asked { AskToServe (name.now ∷ journal.now ∷ address.now ∷ workers.now ∷ connections.now
        ∷ []) result }
    ensures one { IfSome result (λ serve.
        IsOneServe (name.now ∷ journal.now ∷ address.now ∷ workers.now ∷ connections.now ∷ [])
        serve) }
{
    if name != b"serve".as_slice() || !is_journal(journal) {
        return None;
    }
    let address = address_of(address)?;
    let workers = count(workers, MOST_WORKERS)?;
    let connections = count(connections, MOST_CONNECTIONS)?;
    Some(ServeWords {
        address,
        workers: workers as u16,
        connections,
    })
}

/// The number from 1 on that the digits are, where it is this great at most.
fn count(digits: &[u8], greatest: u64) -> Option<u64>
    ensures { IsCount digits.now greatest result }
{
    let number = number(digits, greatest)?;
    if number == 0 { None } else { Some(number) }
}

/// The address that the text is.
fn address_of(text: &[u8]) -> Option<Address>
    ensures { TellsAddress text.now result }
{
    let (ip, port) = at_colon(text)?;
    let Ok(ip) = Ipv4Addr::parse_ascii(ip) else {
        return None;
    };
    let port = number(port, GREATEST_PORT)?;
    Some(Address {
        ip,
        port: port as u16,
    })
}

/// What stands before the first colon, and behind it.
fn at_colon(text: &[u8]) -> Option<(&[u8], &[u8])>
    ensures some { IfSome result (λ parts. SplitsAtColon text.now parts.0.now parts.1.now) }
    ensures none { IfNone result (HasNoColon text.now) }
{
    let place = text.iter().position(|byte| *byte == b':')?;
    Some((&text[..place], &text[place + 1..]))
}
