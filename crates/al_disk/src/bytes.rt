//! Bytes that go where there is room for them.

ghost use Rattle.std.specs.Prelude.{◌≡◌, ◌≤◌, ◌+◌, ◌-◌, ◌++◌, length, take, drop, min, vec_capacity};
ghost use Rattle.al_disk.specs.States.{put};

/// Copies what there is from a place on and fits, and answers how much.
pub fn copy_from(bytes: &[u8], place: u64, to: &mut [u8]) -> usize
    ensures within { result ≤ length to.new }
    ensures count { result ≡ min (length to.old) (length bytes.now - place) }
    ensures copied { take result to.new ≡ take (length to.old) (drop place bytes.now) }
{
    if place >= bytes.len() as u64 {
        return 0;
    }
    let from = &bytes[place as usize..];
    let count = to.len().min(from.len());
    let (front, _) = to.split_at_mut(count);
    front.copy_from_slice(&from[..count]);
    count
}

/// Puts bytes over those from a place on, and past the end.
pub fn put_bytes(content: &mut Vec<u8>, place: usize, bytes: &[u8])
    requires place { place ≤ length content.old.items }
    requires room { place + length bytes.now ≤ vec_capacity content.old }
    ensures items { content.new.items ≡ put place bytes.now content.old.items }
    ensures capacity { vec_capacity content.old ≤ vec_capacity content.new }
{
    let over = bytes.len().min(content.len() - place);
    content[place..place + over].copy_from_slice(&bytes[..over]);
    add_bytes(content, &bytes[over..]);
}

/// Adds bytes for which there is room.
pub fn add_bytes(to: &mut Vec<u8>, bytes: &[u8])
    requires { length to.old.items + length bytes.now ≤ vec_capacity to.old }
    ensures items { to.new.items ≡ to.old.items ++ bytes.now }
    ensures capacity { vec_capacity to.old ≤ vec_capacity to.new }
{
    let _ = to.extend_from_slice(bytes);
}
