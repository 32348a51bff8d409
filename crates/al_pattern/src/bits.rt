//! Sets of small numbers: one bit each, in words of 64.

ghost use Rattle.std.specs.Prelude.{◌≡◌, ℕ, ◌<◌, ◌*◌, ◌||◌, ◌&&◌, ◌==◌, nat_le, length};
ghost use Rattle.al_pattern.specs.Sets.{is_in};

#[tactic(auto, unfolding(crate::specs::Sets::is_in))]
pub fn contains(words: &[u64], n: usize) -> bool
    ensures { result ≡ is_in words.now n }
{
    match words.get(n / 64) {
        Some(word) => (*word >> (n % 64)) & 1 == 1,
        None => false,
    }
}

pub fn insert(words: &mut [u64], n: usize)
    requires { n < 64 * length words.old }
    ensures { (k : ℕ) → is_in words.new k ≡ (k == n || is_in words.old k) }
{
    let word = words[n / 64];
    words[n / 64] = word | (1 << (n % 64));
}

/// Puts the numbers from `first` to `last` into the set.
pub fn insert_range(words: &mut [u64], first: u8, last: u8)
    requires { last < 64 * length words.old }
    ensures { (k : ℕ) → is_in words.new k ≡ (nat_le first k && nat_le k last || is_in words.old k) }
{
    for n in usize::from(first)..usize::from(last) + 1 {
        insert(words, n);
    }
}
