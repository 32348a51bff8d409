//! Reports of instrumentation, an operation of the server's own.

ghost use Rattle.al_input.specs.Faults.{Answers, Gives};
ghost use Rattle.al_input.specs.Inputs.{report, report_input, report_names, report_qualifier, report_resource, report_status, report_text, report_type};
ghost use Rattle.al_input.specs.Reports.{needed_at, plain_of, qualified_of, text_at};
ghost use Rattle.serde_json.specs.Data.{Data};
ghost use Rattle.serde_json.specs.View.{view};
ghost use Rattle.std.specs.Prelude.{◌≡◌, option_map};

use crate::asked::Asked;
use crate::body::body;
use crate::fault::InputFault;
use crate::member::{check_names, value_at};
use crate::reader::Reader;
use crate::text::{empty_text, string_of};
use crate::word::Word;
use al_base::limits::{LONGEST_ALARM_TEXT, LONGEST_QUALIFIER};
use al_base::{Status, Text, TypeId, read_text};
use al_ids::{AlarmKey, Resource, read_resource};
use al_model::Request;
use al_uri::read_type;
use serde_json::Value;
use std::alloc::Global;

/// A member of a report.
#[derive(Clone, Copy, Debug, PartialEq, Eq)]
pub(crate) enum Member {
    Resource,
    TypeId,
    Severity,
    AlarmText,
    Qualifier,
}

impl Member {
    fn plain(self) -> &'static str
        ensures { result.now ≡ plain_of self }
    {
        match self {
            Member::Resource => "resource",
            Member::TypeId => "alarm-type-id",
            Member::Severity => "perceived-severity",
            Member::AlarmText => "alarm-text",
            Member::Qualifier => "alarm-type-qualifier",
        }
    }

    fn qualified(self) -> &'static str
        ensures { result.now ≡ qualified_of self }
    {
        match self {
            Member::Resource => "alarmd:resource",
            Member::TypeId => "alarmd:alarm-type-id",
            Member::Severity => "alarmd:perceived-severity",
            Member::AlarmText => "alarmd:alarm-text",
            Member::Qualifier => "alarmd:alarm-type-qualifier",
        }
    }
}

/// What has the members of a report: a tree, or places for their texts.
pub(crate) trait Members: Drop {
    /// The object whose members they are.
    ghost tree: { Self → Data };

    /// The object has no members but a report's.
    fn check(&self) -> Result<(), InputFault>
        ensures { Answers (report_names (tree self.now)) result };

    /// The text of a member, which has to be one where it is there.
    fn text(&self, member: Member) -> Result<Option<&[u8]>, InputFault>
        ensures { Gives (option_map (λ text. text.now)) result (text_at member (tree self.now)) };
}

impl Members for Value {
    ghost tree = { view };

    #[tactic(auto, unfolding(crate::specs::Inputs::report_names))]
    fn check(&self) -> Result<(), InputFault> {
        check_names(
            self,
            &[
                "resource",
                "alarmd:resource",
                "alarm-type-id",
                "alarmd:alarm-type-id",
                "perceived-severity",
                "alarmd:perceived-severity",
                "alarm-text",
                "alarmd:alarm-text",
                "alarm-type-qualifier",
                "alarmd:alarm-type-qualifier",
            ],
        )
    }

    #[tactic(auto, unfolding(crate::specs::Members::optional))]
    fn text(&self, member: Member) -> Result<Option<&[u8]>, InputFault> {
        match value_at(self, member.plain(), member.qualified())? {
            Some(value) => Ok(Some(string_of(value)?)),
            None => Ok(None),
        }
    }
}

/// The text of a member that has to be there.
fn needed<M: Members>(members: &M, member: Member) -> Result<&[u8], InputFault>
    ensures { Gives (λ text. text.now) result (needed_at member (M.tree members.now)) }
{
    match members.text(member)? {
        Some(text) => Ok(text),
        None => Err(InputFault::Missing),
    }
}

#[tactic(auto, using(crate::proofs::ReportLemmas::resource_needed), unfolding(crate::specs::Readers::passed))]
fn report_resource<M: Members>(alloc: Global, members: &M) -> Result<Resource, InputFault>
    ensures { Answers (report_resource (M.tree members.now)) result }
{
    Ok(read_resource(alloc, needed(members, Member::Resource)?)?)
}

#[tactic(auto, using(crate::proofs::ReportLemmas::type_needed), unfolding(crate::specs::Readers::passed))]
fn report_type<M: Members>(alloc: Global, members: &M) -> Result<TypeId, InputFault>
    ensures { Answers (report_type (M.tree members.now)) result }
{
    Ok(read_type(alloc, needed(members, Member::TypeId)?)?)
}

#[tactic(auto, using(crate::proofs::ReportLemmas::status_needed))]
fn report_status<M: Members>(members: &M) -> Result<Status, InputFault>
    ensures { Answers (report_status (M.tree members.now)) result }
{
    match Status::of(needed(members, Member::Severity)?) {
        Some(status) => Ok(status),
        None => Err(InputFault::BadValue),
    }
}

#[tactic(auto, using(crate::proofs::ReportLemmas::text_needed), unfolding(crate::specs::Readers::passed))]
fn report_text<M: Members>(alloc: Global, members: &M) -> Result<Text, InputFault>
    ensures { Answers (report_text (M.tree members.now)) result }
{
    Ok(read_text(
        alloc,
        0,
        LONGEST_ALARM_TEXT,
        needed(members, Member::AlarmText)?,
    )?)
}

#[tactic(auto, using(crate::proofs::ReportLemmas::qualifier_read), unfolding(crate::specs::Readers::passed))]
fn report_qualifier<M: Members>(alloc: Global, members: &M) -> Result<Text, InputFault>
    ensures { Answers (report_qualifier (M.tree members.now)) result }
{
    match members.text(Member::Qualifier)? {
        Some(text) => Ok(read_text(alloc, 0, LONGEST_QUALIFIER, text)?),
        None => empty_text(alloc),
    }
}

/// What a report says.
#[tactic(auto, using(crate::proofs::Due::fault_first), unfolding(crate::specs::Inputs::report))]
pub(crate) fn report<M: Members>(alloc: Global, members: &M) -> Result<Request, InputFault>
    ensures { Answers (report (M.tree members.now)) result }
{
    members.check()?;
    let resource = report_resource(alloc, members)?;
    let type_id = report_type(alloc, members)?;
    let status = report_status(members)?;
    let text = report_text(alloc, members)?;
    let qualifier = report_qualifier(alloc, members)?;
    let key = AlarmKey {
        resource,
        type_id,
        qualifier,
    };
    Ok(Request::Report { key, status, text })
}

/// A report as a tree.
pub struct ReportFields;

impl Reader for ReportFields {
    type Output = Request;

    ghost reads = { report };

    fn read(alloc: Global, value: &Value) -> Result<Request, InputFault> {
        report(alloc, value)
    }
}

#[tactic(auto, using(crate::proofs::Due::fault_first), unfolding(crate::specs::Inputs::report_input, crate::specs::Members::known_only))]
pub fn report_input(alloc: Global, value: &Value) -> Result<Asked, InputFault>
    ensures { Answers (report_input (view value.now)) result }
{
    Ok(Asked::Whole(body::<ReportFields>(alloc, value, "input", "alarmd:input")?))
}
