//! Texts that have to be of a form, and within limits.

ghost use Rattle.al_base.specs.Forms.{IsReadAs};
ghost use Rattle.al_base.specs.Limits.{is_operator_name, is_text};
ghost use Rattle.std.specs.List.{list_all};
ghost use Rattle.std.specs.Prelude.{◌≡◌, ◌&&◌, nat_le};

use crate::limits::{LONGEST_OPERATOR_NAME, OWN_NAME};
use crate::text::{Text, TextFault};
use std::alloc::{AllocError, Global};
use std::error::Error;
use std::fmt;

/// Why bytes weren't read as what they should be.
#[derive(Clone, Copy, Debug, PartialEq, Eq)]
pub enum FormFault {
    /// The bytes are of another form, or outside the limits.
    Form,
    /// There was no memory for what they say.
    Memory,
}

impl From<AllocError> for FormFault {
    ghost use Rattle.std.specs.Prelude.{◌≡◌};
    ghost use Rattle.al_base.specs.declared.form.FormFault.TheVariants.{Memory};

    ghost from_gives = { λ _ fault. fault ≡ Memory };

    fn from(_error: AllocError) -> FormFault {
        FormFault::Memory
    }
}

impl fmt::Display for FormFault {
    fn fmt<W: fmt::Write>(&self, f: &mut fmt::Formatter<W>) -> fmt::Result {
        f.write_str(match self {
            FormFault::Form => "the bytes are of another form",
            FormFault::Memory => "out of memory",
        })
    }
}

impl Error for FormFault {}

/// The text of these bytes, of at least `least` bytes and at most `most`.
#[tactic(auto, using(crate::proofs::TextTests::utf8_holds, crate::proofs::TextTests::utf8_fails), unfolding(crate::specs::Limits::is_text))]
pub fn read_text(alloc: Global, least: usize, most: usize, bytes: &[u8]) -> Result<Text, FormFault>
    ensures { IsReadAs (is_text least most) bytes.now result }
{
    if bytes.len() < least || bytes.len() > most {
        return Err(FormFault::Form);
    }
    match Text::read(alloc, bytes) {
        Ok(text) => Ok(text),
        Err(TextFault::NotUtf8) => Err(FormFault::Form),
        Err(TextFault::Memory) => Err(FormFault::Memory),
    }
}

/// The name of an operator: 1 to 64 printed characters of ASCII or blanks, and not the server's own name.
#[tactic(auto, using(crate::proofs::TextTests::operator_is_utf8))]
pub fn read_operator_name(alloc: Global, bytes: &[u8]) -> Result<Text, FormFault>
    ensures { IsReadAs is_operator_name bytes.now result }
{
    if !is_operator_name(bytes) {
        return Err(FormFault::Form);
    }
    match Text::read(alloc, bytes) {
        Ok(name) => Ok(name),
        Err(TextFault::Memory) => Err(FormFault::Memory),
        Err(TextFault::NotUtf8) => unreachable!(),
    }
}

#[tactic(auto, unfolding(crate::specs::Limits::is_operator_name))]
fn is_operator_name(name: &[u8]) -> bool
    ensures { result ≡ is_operator_name name.now }
{
    !name.is_empty() && name.len() <= LONGEST_OPERATOR_NAME && is_printed(name) && name != OWN_NAME
}

/// Whether each byte is a printed character of ASCII or a blank.
fn is_printed(name: &[u8]) -> bool
    ensures { result ≡ list_all (λ byte. nat_le 0x20 byte && nat_le byte 0x7E) name.now }
{
    name.iter().all(|byte| *byte >= 0x20 && *byte <= 0x7E)
}
