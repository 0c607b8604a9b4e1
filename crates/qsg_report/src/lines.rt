//! The whole report.

ghost use Rattle.std.specs.Prelude.{◌≡◌, ◌++◌, codes, OnOk, IfOk};
ghost use Rattle.qsg_report.specs.Report.{shared_text, kept_text, lines_text, report_text};

use crate::answered::{push_history, push_transcripts};
use crate::kept::{push_datasets, push_end, push_logs, push_members};
use crate::shared::{push_all_entries, push_failures, push_queues, push_structures};
use crate::shown::Shown;
use crate::words::{labels_of, push_named};
use qsg_answers::{Labels, push_text};
use qsg_model::History;
use qsg_num::{Actor, Bytes};
use qsg_requests::Transcripts;
use std::alloc::{AllocError, Global};

/// Failures, structures, the entries of each structure, queues.
#[tactic(auto, unfolding(crate::specs::Report::shared_text))]
fn push_shared(out: &mut Vec<u8>, labels: &Labels, shown: &Shown) -> Result<(), AllocError>
    ensures { OnOk result (out.new.items ≡ out.old.items ++ shared_text labels.now shown.now) }
{
    push_failures(out, labels, &shown.failed)?;
    push_structures(out, labels, &shown.structures)?;
    push_all_entries(out, labels, &shown.structures)?;
    push_queues(out, &shown.queues)
}

/// Data sets, logs, members.
#[tactic(auto, unfolding(crate::specs::Report::kept_text))]
fn push_kept(out: &mut Vec<u8>, labels: &Labels, shown: &Shown) -> Result<(), AllocError>
    ensures { OnOk result (out.new.items ≡ out.old.items ++ kept_text labels.now shown.now) }
{
    push_datasets(out, labels, &shown.datasets)?;
    push_logs(out, &shown.members)?;
    push_members(out, &shown.members)
}

/// The lines of the report.
#[tactic(auto, unfolding(crate::specs::Report::lines_text))]
fn push_lines<T: Transcripts>(
    out: &mut Vec<u8>,
    labels: &Labels,
    actors: &[Actor],
    transcripts: &T,
    history: &History,
    shown: &Shown,
) -> Result<(), AllocError>
    ensures { OnOk result (out.new.items ≡ out.old.items ++ lines_text labels.now actors.now (T.told transcripts.now) history.now.items shown.now) }
{
    push_named(out, b"group ", shown.group.as_str())?;
    push_text(out, b"\n")?;
    push_transcripts(out, labels, transcripts, actors)?;
    push_history(out, labels, history.as_slice())?;
    push_shared(out, labels, shown)?;
    push_kept(out, labels, shown)?;
    push_end(out, labels, &shown.waits)
}

/// The report of a run: the group, what these actors were answered, in this order, what happened, the state, and how the
/// run ended. A member or structure that isn't shown is written as its number.
pub fn report<T: Transcripts>(
    alloc: Global,
    actors: &[Actor],
    transcripts: &T,
    history: &History,
    shown: &Shown,
) -> Result<Bytes, AllocError>
    ensures { IfOk result (λ text. text ≡ report_text actors.now (T.told transcripts.now) history.now.items shown.now) }
{
    let labels = labels_of(alloc, shown)?;
    let mut out = Vec::new(alloc);
    push_lines(&mut out, &labels, actors, transcripts, history, shown)?;
    Ok(Bytes::from_vec(out))
}
