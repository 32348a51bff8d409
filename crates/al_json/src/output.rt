//! What an action answers.

ghost use Rattle.al_fields.specs.Texts.{text_of};
ghost use Rattle.al_json.specs.Outputs.{counted_by, output_of};
ghost use Rattle.serde_json.specs.Written.{compact_text};
ghost use Rattle.std.specs.Prelude.{◌≡◌, ◌+◌, ◌++◌, ◌≤◌, codes, option_map, vec_capacity, vec_len};

use al_fields::{Field, Object, object, put_whole};
use al_uri::Target;

/// Writes what the action of the target answers with this count, and nothing where it answers none. It can't fail, whatever memory there is.
pub fn append_output(target: &Target, count: u32, out: &mut Vec<u8>)
    requires { vec_len out.old + 64 ≤ vec_capacity out.old }
    ensures items { out.new.items
        ≡ out.old.items ++ text_of
        (option_map (λ name. output_of name count) (counted_by target.now)) }
    ensures room { vec_capacity out.old ≤ vec_capacity out.new }
{
    match target {
        Target::PurgeAlarms | Target::PurgeShelved => put_purged(out, count),
        Target::CompressAlarms | Target::CompressShelved => put_compressed(out, count),
        _ => {}
    }
}

#[tactic(auto, using(crate::proofs::OutputTexts::purged_room))]
fn put_purged(out: &mut Vec<u8>, count: u32)
    requires { vec_len out.old + 64 ≤ vec_capacity out.old }
    ensures items { out.new.items
        ≡ out.old.items ++ compact_text (output_of (codes "purged-alarms") count) }
    ensures room { vec_capacity out.old ≤ vec_capacity out.new }
{
    let counted = object! { "purged-alarms": u64::from(count) };
    put_whole(out, "ietf-alarms:output", &counted);
}

#[tactic(auto, using(crate::proofs::OutputTexts::compressed_room))]
fn put_compressed(out: &mut Vec<u8>, count: u32)
    requires { vec_len out.old + 64 ≤ vec_capacity out.old }
    ensures items { out.new.items
        ≡ out.old.items ++ compact_text (output_of (codes "compressed-alarms") count) }
    ensures room { vec_capacity out.old ≤ vec_capacity out.new }
{
    let counted = object! { "compressed-alarms": u64::from(count) };
    put_whole(out, "ietf-alarms:output", &counted);
}
