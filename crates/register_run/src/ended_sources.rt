//! What is left of a source when its threads have been joined.

ghost use Rattle.std.specs.Prelude.{◌≡◌, ◌≤◌, ◌↔◌, ◌⊎◌, [], None, Ok, Some, IfSome, false, true};
ghost use Rattle.register_records.specs.Sources.{IfBroken, IfWhole, cause_number};
ghost use Rattle.register_records.specs.TablesWritten.{has_lost_output, is_headed, made_by, made_for, table_fault, waiting_of};
ghost use Rattle.register_records.specs.Views.{layout_of, reading_of};
ghost use Rattle.register_records.specs.declared.ends.Cause.TheVariants as cause;
ghost use Rattle.register_records.specs.declared.ends.SourceEnd.TheVariants as ended;
ghost use Rattle.register_run.specs.MetCauses.{Differs, IsLowest, IsMet};
ghost use Rattle.register_run.specs.private.MetCauses.{HasMetNone};
ghost use Rattle.register_run.specs.Headline.{IsSourceEnd};
ghost use Rattle.register_run.specs.Histories.{IsMachineWithTable};
ghost use Rattle.register_run.specs.private.Stripes.{AreStaffed};
ghost use Rattle.register_run.specs.Threads.{AreThreadsOf};
ghost use Rattle.register_run.specs.private.Written.{Concludes};

use crate::reading::Sent;
use crate::reports::Ran;
use crate::stripes::Stripe;
use register_records::{Cause, Note, Output, SourceEnd, Table};
use std::io::Read;
use std::snapshot::Snapshot;

/// A source that has ended: its table and its output, and how it ended.
#[derive(Drop)]
pub(crate) struct EndedSource<R: Read, W: Output> {
    pub(crate) source: Snapshot<R>,
    pub(crate) table: Snapshot<Table<W>>,
    pub(crate) ran: Ran,
    pub(crate) output: W,
    pub(crate) end: SourceEnd,
    pub ghost marked: { W.own_mark output ≡ W.own_mark (made_for table.value) },
    pub ghost untouched: { end ≡ ended.Broken cause.BadHeader → output ≡ made_for table.value },
    pub ghost threads: { ∥ AreThreadsOf ran.setup.value end ran ∥₁ },
    pub ghost source_end: { ∥ IsSourceEnd W.Output (reading_of ran.setup.value) (layout_of ran.setup.value)
        (R.remaining source.value) (made_for table.value) output end ∥₁ },
    pub ghost machine: { ∥ IfWhole end (λ count refused journal.
        IsMachineWithTable (R.remaining source.value) ran.setup.value (W.contents (made_for table.value))
        (W.contents output) count ran.stripes.value.items) ∥₁ },
}

/// What the threads of a source leave: its stripes as they were joined, how many entries were read, and that number
/// again where they are all, or why it is not known that all of them have passed.
#[derive(Drop)]
pub(crate) struct JoinedThreads<R> {
    pub(crate) source: Snapshot<R>,
    pub(crate) stripes: Snapshot<Vec<Stripe>>,
    pub(crate) sent: Sent,
}

/// What was found of a source: what its threads have sent, and of its table why no more was added, whether the heading
/// was written, and how many rows were.
#[derive(Clone, Copy)]
pub(crate) struct Findings {
    pub(crate) sent: Sent,
    pub(crate) fault: Option<Cause>,
    pub(crate) headed: bool,
    pub(crate) rows: u32,
}

/// The lower of two causes, of which the first may be missing. It is the one that is reported.
pub(crate) fn lower(one: Option<Cause>, other: Cause) -> Cause
    ensures one_of { (one ≡ Some result) ⊎ (result ≡ other) }
    ensures below_one { IfSome one (λ c. cause_number result ≤ cause_number c) }
    ensures below_other { cause_number result ≤ cause_number other }
{
    match one {
        Some(one) if one.number() <= other.number() => one,
        _ => other,
    }
}

/// Whether what was written is not what the threads ended with.
fn differs(findings: Findings) -> bool
    ensures { (result ≡ true) ↔ Differs findings.sent.outcome findings.sent.count findings.headed findings.rows }
{
    match findings.sent.outcome {
        Ok(count) => !findings.headed || findings.rows != count,
        // A reader that gave up has sent no end, so no heading was written but before a row; and all that it had sent
        // by then is written.
        Err(_) => findings.rows != findings.sent.count || (findings.headed && findings.rows == 0),
    }
}

/// The lowest of the causes that were met, if there is one.
fn lowest_met(findings: Findings) -> Option<Cause>
    ensures some { IfSome result (IsLowest (IsMet findings)) }
    ensures none { result ≡ None → (findings.sent.outcome ≡ Ok findings.rows) × (findings.fault ≡ None)
        × (findings.headed ≡ true) }
{
    let of_threads = findings.sent.outcome.err();
    let of_table = match findings.fault {
        None if differs(findings) => Some(Cause::Unconfirmed),
        fault => fault,
    };
    match of_table {
        Some(cause) => Some(lower(of_threads, cause)),
        None => of_threads,
    }
}

/// How a source ended: by what was met of it, and as its table did where nothing was.
#[tactic(auto, using(crate::proofs::EndedSourceLemmas::met_none, crate::proofs::EndedSourceLemmas::never_broken))]
fn end_of_source<W: Output>(findings: Findings, table: Table<W>) -> SourceEnd
    requires fault { findings.fault ≡ table_fault table }
    requires rows { findings.rows ≡ table.rows }
    ensures whole { IfWhole result (HasMetNone findings table.journal.items) }
    ensures broken { IfBroken result (IsLowest (IsMet findings)) }
{
    match lowest_met(findings) {
        Some(cause) => SourceEnd::Broken { cause },
        None => table.end(),
    }
}

/// What is left of a source, once the lines of its table are written and its threads joined.
pub(crate) fn conclude<R: Read + Drop, W: Output + Drop>(
    table: Table<W>,
    output: W,
    joined: JoinedThreads<R>,
) -> EndedSource<R, W>
    requires sent { waiting_of table ≡ [] }
    requires passed { ∥ Concludes W.Output (R.remaining joined.source.value) table output joined.sent
        joined.stripes.value.items ∥₁ }
    requires untouched { is_headed table ≡ false → has_lost_output table ≡ false → output ≡ made_for table }
    requires staffed { AreStaffed (made_by table) joined.sent.outcome joined.stripes.value.items }
    ensures source { result.source.value ≡ joined.source.value }
    ensures output { made_for result.table.value ≡ made_for table }
    ensures setup { result.ran.setup.value ≡ made_by table }
{
    let findings = Findings {
        sent: joined.sent,
        fault: table.fault(),
        headed: table.has_heading(),
        rows: table.rows(),
    };
    let ran = Ran {
        setup: Snapshot::of(table.setup()),
        stripes: joined.stripes,
        findings: Snapshot::of(&findings),
    };
    EndedSource {
        source: joined.source,
        table: Snapshot::of(&table),
        ran,
        output,
        end: end_of_source(findings, table),
    }
}
