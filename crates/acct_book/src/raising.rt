//! The row of a session after one more report.
ghost use Rattle.std.specs.Prelude.{◌≡◌, Some, IfOk};
ghost use Rattle.acct_book.specs.Next.{first_row, raised_row, raised_counters, state_after};
ghost use Rattle.acct_book.specs.Next.{cause_after, or_octets};

use crate::row::{Row, SessionState};
use acct_model::{Octets, Plan, Report, ReportKind, counted};
use std::alloc::{AllocError, Global};

// The row of a session's first report, which found this plan.
pub(crate) fn new_row(alloc: Global, plan: &Plan, report: &Report) -> Result<Row, AllocError>
    ensures { IfOk result (λ row. row ≡ first_row (Some plan.now) report.now) }
{
    Ok(Row {
        client: report.client.copy(alloc)?,
        session: report.session.copy(alloc)?,
        account: report.user.copy(alloc)?,
        class: report.class.copy(alloc)?,
        plan: plan.class.copy(alloc)?,
        input: report.input,
        output: report.output,
        seconds: report.seconds,
        first: report.when,
        last: report.when,
        state: later_state(report.kind, SessionState::Live),
        cause: later_cause(report.kind, SessionState::Live, 0, report.cause),
        calling: report.calling.copy(alloc)?,
        framed: report.framed,
    })
}

// The greater counters: by what the plan counts, then by their total and then by the input.
pub(crate) fn later_counters(plan: &Plan, row: &Row, report: &Report) -> (u64, u64)
    ensures { result ≡ raised_counters (Some plan.now) row.now report.now }
{
    let total = report.input + report.output;
    let kept = row.input + row.output;
    let counts = counted(plan, report.input, report.output);
    let best = counted(plan, row.input, row.output);
    if counts > best
        || (counts == best && (total > kept || (total == kept && report.input > row.input)))
    {
        (report.input, report.output)
    } else {
        (row.input, row.output)
    }
}

// A Stop stops a session, and nothing else changes its state.
pub(crate) fn later_state(kind: ReportKind, state: SessionState) -> SessionState
    ensures { result ≡ state_after kind state }
{
    match kind {
        ReportKind::Start | ReportKind::Interim => state,
        ReportKind::Stop => SessionState::Stopped,
    }
}

// The first Stop gives the cause.
pub(crate) fn later_cause(kind: ReportKind, state: SessionState, old: u32, new: u32) -> u32
    ensures { result ≡ cause_after kind state old new }
{
    match kind {
        ReportKind::Start | ReportKind::Interim => old,
        ReportKind::Stop => match state {
            SessionState::Live | SessionState::Closed => new,
            SessionState::Stopped => old,
        },
    }
}

// The calling station that was reported first.
pub(crate) fn later_calling(alloc: Global, old: Octets, new: &Octets) -> Result<Octets, AllocError>
    ensures { IfOk result (λ octets. octets ≡ or_octets old new.now) }
{
    if old.as_slice().is_empty() {
        new.copy(alloc)
    } else {
        Ok(old)
    }
}
