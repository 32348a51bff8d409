//! What an answer tells of its status.

ghost use Rattle.std.specs.Prelude.{◌≡◌, ◌++◌, ◌∷◌, ℕ, List, codes, decimal};
ghost use Rattle.al_commands.specs.Told.{status_told, three_digits};

/// The status that the bytes of an answer tell.
pub fn status_in(bytes: &[u8]) -> u16
    ensures { (status : ℕ) (rest : List ℕ)
        → bytes.now ≡ codes "HTTP/1.1 " ++ decimal status ++ 32 ∷ rest
        → result ≡ status_told status }
{
    if bytes.len() < 13 || bytes[12] != b' ' {
        return 0;
    }
    number_of(bytes[9], bytes[10], bytes[11])
}

/// The number that three digits write, 0 where one isn't a digit.
fn number_of(a: u8, b: u8, c: u8) -> u16
    ensures { result ≡ three_digits a b c }
{
    if a.is_ascii_digit() && b.is_ascii_digit() && c.is_ascii_digit() {
        u16::from(a - b'0') * 100 + u16::from(b - b'0') * 10 + u16::from(c - b'0')
    } else {
        0
    }
}
