//! Bytes cut at a separator.

ghost use Rattle.al_base.specs.Cuts.{behind, front};
ghost use Rattle.std.specs.Option.{option_copied};
ghost use Rattle.std.specs.Prelude.{◌≡◌, ◌<◌, IfSome, length};

/// What stands before the first separator and, where there is one, what stands behind it.
pub fn cut(bytes: &[u8], separator: u8) -> (&[u8], Option<&[u8]>)
    ensures front { result.0.now ≡ front separator bytes.now }
    ensures behind { option_copied result.1 ≡ behind separator bytes.now }
    ensures shorter { IfSome result.1 (λ rest. length rest.now < length bytes.now) }
{
    for (i, byte) in bytes.iter().enumerate() {
        if *byte == separator {
            return (&bytes[..i], Some(&bytes[i + 1..]));
        }
    }
    (bytes, None)
}
