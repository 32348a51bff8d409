//! The whole (RFC 8632, container `alarms`).

ghost use Rattle.al_fields.specs.Members.{fields_by, object_of};
ghost use Rattle.al_json.specs.Pieces.{section_data};
ghost use Rattle.al_json.specs.Summaries.{summary_tree};
ghost use Rattle.al_json.specs.Wholes.{alarms_with};
ghost use Rattle.std.specs.Prelude.{◌≡◌};

use crate::section::Section;
use crate::trees::rows;
use al_fields::{Field, Object, Shown, object};
use al_lists::{Summary, Tables};
use serde_json::Value;
use std::alloc::{AllocError, Global};

/// What stands under the name of a resource, the whole among them.
#[derive(Clone, Copy)]
pub enum Content<'a> {
    /// All containers, with this summary.
    Alarms(&'a Tables, Summary),
    Section(Section<'a>),
}

impl Shown for Content<'_> {
    ghost use Rattle.al_json.specs.Pieces.{content_data};

    ghost said = { content_data };

    fn is_there(&self) -> bool {
        match self {
            Content::Alarms(tables, summary) => alarms_object(tables, *summary).is_there(),
            Content::Section(section) => section.is_there(),
        }
    }

    fn value(&self, alloc: Global) -> Result<Option<Value>, AllocError> {
        match self {
            Content::Alarms(tables, summary) => alarms_object(tables, *summary).value(alloc),
            Content::Section(section) => section.value(alloc),
        }
    }

    fn put(&self, out: &mut Vec<u8>) {
        match self {
            Content::Alarms(tables, summary) => alarms_object(tables, *summary).put(out),
            Content::Section(section) => section.put(out),
        }
    }

    fn text_len(&self) -> u64 {
        match self {
            Content::Alarms(tables, summary) => alarms_object(tables, *summary).text_len(),
            Content::Section(section) => section.text_len(),
        }
    }
}

#[tactic(auto, unfolding(crate::specs::Wholes::alarms_with))]
fn alarms_object(tables: &Tables, summary: Summary) -> Object<[Field<Section<'_>>; 5]>
    ensures { object_of (fields_by section_data result.table)
        ≡ alarms_with tables.now.state (summary_tree summary.rows summary.shelves_active) }
{
    object! {
        "alarm-inventory": rows(tables),
        "alarm-list": Section::AlarmList(tables),
        "control": Section::Control(tables),
        "shelved-alarms": Section::ShelvedAlarms(tables),
        "summary": Section::Summary(summary),
    }
}
