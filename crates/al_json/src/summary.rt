//! The summary.

ghost use Rattle.al_fields.specs.Leaves.{leaf_data};
ghost use Rattle.al_fields.specs.Members.{fields_by, object_of};
ghost use Rattle.al_json.specs.Pieces.{inner_data};
ghost use Rattle.al_json.specs.Summaries.{active_data, count_at, counts_tree, row_at, summary_tree};
ghost use Rattle.al_model.specs.Summary.{falling_severities};
ghost use Rattle.std.specs.Prelude.{◌≡◌, ◌<◌, IfSome, slice_get};

use crate::inner::Inner;
use al_base::Severity;
use al_fields::{Field, Leaf, Object, Series, Shown, object};
use al_lists::Summary;
use serde_json::Value;
use std::alloc::{AllocError, Global};

/// RFC 8632, container `summary`.
#[tactic(auto, unfolding(crate::specs::Summaries::summary_tree))]
pub(crate) fn summary_object(summary: &Summary) -> Object<[Field<Inner<'_>>; 2]>
    ensures { object_of (fields_by inner_data result.table)
        ≡ summary_tree summary.now.rows summary.now.shelves_active }
{
    object! {
        "alarm-summary": Inner::Counts(summary),
        "shelves-active": Inner::Leaf(active(summary)),
    }
}

fn active(summary: &Summary) -> Leaf<'_>
    ensures { leaf_data result ≡ active_data summary.now.shelves_active }
{
    if summary.shelves_active {
        Leaf::Empty
    } else {
        Leaf::Absent
    }
}

/// The counts of a severity (RFC 8632, list `alarm-summary`).
#[tactic(auto, unfolding(crate::specs::Summaries::counts_tree))]
fn counts_object(severity: Severity, counts: &[u32; 7]) -> Object<[Field<Leaf<'_>>; 8]>
    ensures { object_of (fields_by leaf_data result.table) ≡ counts_tree severity counts.now }
{
    object! {
        "cleared": count_in(counts, 2),
        "cleared-closed": count_in(counts, 4),
        "cleared-not-closed": count_in(counts, 3),
        "not-cleared": count_in(counts, 1),
        "not-cleared-closed": count_in(counts, 5),
        "not-cleared-not-closed": count_in(counts, 6),
        "severity": Leaf::Word(severity.name()),
        "total": count_in(counts, 0),
    }
}

fn count_in(counts: &[u32; 7], index: usize) -> Leaf<'_>
    requires { index < 7 }
    ensures { leaf_data result ≡ count_at index counts.now }
{
    Leaf::Number(u64::from(counts[index]))
}

/// The severity at this index, from critical down.
fn falling_at(index: usize) -> Option<Severity>
    ensures severity { result ≡ slice_get falling_severities index }
    ensures within { IfSome result (λ _. index < 5) }
{
    match index {
        0 => Some(Severity::Critical),
        1 => Some(Severity::Major),
        2 => Some(Severity::Minor),
        3 => Some(Severity::Warning),
        4 => Some(Severity::Indeterminate),
        _ => None,
    }
}

#[tactic(auto, using(crate::proofs::Finding::row_is))]
fn counts_at(summary: &Summary, index: usize) -> &[u32; 7]
    requires { index < 5 }
    ensures { result.now ≡ row_at index summary.now.rows }
{
    &summary.rows[index]
}

/// The counts of all severities, from critical down.
#[derive(Clone, Copy)]
pub(crate) struct Counts<'a>(pub(crate) &'a Summary);

impl<'a> Series for Counts<'a> {
    ghost use Rattle.al_json.specs.Summaries.{summary_trees};

    ghost trees = { λ s. summary_trees s.0.now.rows };

    #[tactic(auto, unfolding(crate::specs::Summaries::summary_trees))]
    fn count(&self) -> usize {
        5
    }

    #[tactic(auto, using(crate::proofs::Finding::summary_at))]
    fn value_at(&self, alloc: Global, i: usize) -> Result<Option<Value>, AllocError> {
        match falling_at(i) {
            Some(severity) => counts_object(severity, counts_at(self.0, i)).value(alloc),
            None => Ok(None),
        }
    }

    #[tactic(auto, using(crate::proofs::Finding::summary_at))]
    fn put_at(&self, out: &mut Vec<u8>, i: usize) {
        if let Some(severity) = falling_at(i) {
            counts_object(severity, counts_at(self.0, i)).put(out);
        }
    }

    #[tactic(auto, using(crate::proofs::Finding::summary_at))]
    fn len_at(&self, i: usize) -> u64 {
        match falling_at(i) {
            Some(severity) => counts_object(severity, counts_at(self.0, i)).text_len(),
            None => 0,
        }
    }
}
