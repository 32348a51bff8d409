//! Numbers at the front of bytes, and at their end.

ghost use Rattle.al_frame.specs.Formats.{Gives, byte_at, bytes_at, number_at, piece_at};
ghost use Rattle.std.specs.Int.{to_be_bytes, w16, w64};
ghost use Rattle.std.specs.Prelude.{◌≡◌, ◌-◌, ◌++◌, ◌<◌, ◌^◌, OnOk, length};

use crate::fault::FrameFault;
use std::alloc::AllocError;

/// Where a field begins whose bytes, and those behind it, end an input of that length.
pub fn place(n: usize, bytes: &[u8]) -> usize
    ensures { result ≡ n - length bytes.now }
{
    n.saturating_sub(bytes.len())
}

/// The fault of a field that begins where these bytes do, which end an input of that length.
pub fn bad(n: usize, bytes: &[u8]) -> FrameFault
    ensures { result ≡ FrameFault.Byte (n - length bytes.now) }
{
    FrameFault::Byte(place(n, bytes))
}

#[tactic(auto, unfolding(crate::specs::Formats::byte_at))]
pub fn u8_at(n: usize, bytes: &[u8]) -> Result<(u8, &[u8]), FrameFault>
    ensures { Gives (λ x. (x.0, x.1.now)) result (byte_at n bytes.now) }
{
    match bytes {
        [] => Err(FrameFault::Truncated(n)),
        [byte, rest @ ..] => Ok((*byte, rest)),
    }
}

#[tactic(auto, unfolding(crate::specs::Formats::number_at))]
pub fn u16_at(n: usize, bytes: &[u8]) -> Result<(u16, &[u8]), FrameFault>
    ensures { Gives (λ x. (x.0, x.1.now)) result (number_at w16 n bytes.now) }
{
    if bytes.len() < 2 {
        return Err(FrameFault::Truncated(n));
    }
    let (front, rest) = bytes.split_at(2);
    Ok((u16::from_be_bytes([front[0], front[1]]), rest))
}

#[tactic(auto, unfolding(crate::specs::Formats::number_at))]
pub fn u64_at(n: usize, bytes: &[u8]) -> Result<(u64, &[u8]), FrameFault>
    ensures { Gives (λ x. (x.0, x.1.now)) result (number_at w64 n bytes.now) }
{
    if bytes.len() < 8 {
        return Err(FrameFault::Truncated(n));
    }
    let (front, rest) = bytes.split_at(8);
    let number = u64::from_be_bytes([
        front[0], front[1], front[2], front[3], front[4], front[5], front[6], front[7],
    ]);
    Ok((number, rest))
}

#[tactic(auto, unfolding(crate::specs::Formats::bytes_at))]
fn bytes_at(n: usize, count: usize, bytes: &[u8]) -> Result<(&[u8], &[u8]), FrameFault>
    ensures { Gives (λ x. (x.0.now, x.1.now)) result (bytes_at count n bytes.now) }
{
    if bytes.len() < count {
        return Err(FrameFault::Truncated(n));
    }
    Ok(bytes.split_at(count))
}

/// A length, and that many bytes.
#[tactic(auto, unfolding(crate::specs::Formats::piece_at))]
pub fn piece_at(n: usize, bytes: &[u8]) -> Result<(&[u8], &[u8]), FrameFault>
    ensures { Gives (λ x. (x.0.now, x.1.now)) result (piece_at n bytes.now) }
{
    let (count, rest) = u16_at(n, bytes)?;
    bytes_at(n, usize::from(count), rest)
}

pub fn put_u16(number: u16, out: &mut Vec<u8>) -> Result<(), AllocError>
    ensures { OnOk result (out.new.items ≡ out.old.items ++ to_be_bytes w16 number) }
{
    out.extend_from_slice(&number.to_be_bytes())
}

pub fn put_u64(number: u64, out: &mut Vec<u8>) -> Result<(), AllocError>
    ensures { OnOk result (out.new.items ≡ out.old.items ++ to_be_bytes w64 number) }
{
    out.extend_from_slice(&number.to_be_bytes())
}

/// Puts the length of a text before it.
pub fn put_piece(text: &[u8], out: &mut Vec<u8>) -> Result<(), AllocError>
    requires { length text.now < 2 ^ 16 }
    ensures { OnOk result (out.new.items
        ≡ out.old.items ++ (to_be_bytes w16 (length text.now) ++ text.now)) }
{
    put_u16(text.len() as u16, out)?;
    out.extend_from_slice(text)
}
