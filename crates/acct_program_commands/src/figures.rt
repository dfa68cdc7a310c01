//! What a server counted since its start, in the text form of Prometheus.
ghost use Rattle.std.specs.Prelude.{◌≡◌, ◌++◌, Some, OnOk, codes};
ghost use Rattle.std.specs.Io.KnownBytes.{Appends};
ghost use Rattle.acct_program_commands.specs.Figures.{metric_text, head_text, drops_metric_text};
ghost use Rattle.acct_program_commands.specs.Figures.{tally_text, drops_text, moments_text};
ghost use Rattle.acct_program_commands.specs.Figures.{figures_text, drops_lines, arrivals_text};
ghost use Rattle.acct_program_commands.specs.Figures.{state_text};
ghost use Rattle.acct_program_commands.specs.Figures.{balances_text, known_text, build_text};
ghost use Rattle.acct_program_commands.specs.Figures.{value_of};
ghost use Rattle.acct_wire.specs.Reasons.{count_for};

use crate::gauges::BalancesWritten;
use crate::tally::{Arrivals, Tally};
use acct_wire::Reason;
use std::io::Write;
use std::{fmt, io};

/// A metric that only rises while the server runs.
const COUNTER: &str = "counter";
/// A metric that may rise and fall.
const GAUGE: &str = "gauge";

/// What a server counted since its start.
#[derive(Clone, Copy)]
pub struct Figures {
    /// What was received.
    pub tally: Tally,
    /// The datagrams that were dropped, for each reason in the order of the numbers.
    pub dropped: [u64; Reason::COUNT],
    /// When the server started, in seconds since 1970.
    pub started_at: u64,
    /// When the last event was received, in seconds since 1970: 0 if there was none yet.
    pub last_event_at: u64,
    /// The datagrams that were received.
    pub datagrams: Arrivals,
    /// The reports that were accepted, new or sent again: the datagrams that were answered. Each
    /// other datagram was dropped.
    pub reports: u64,
    /// The requests that the desk received.
    pub requests: Arrivals,
    /// What the server shows of its state.
    pub state: State,
}

/// What a server shows of its state, next to its counts.
#[derive(Clone, Copy)]
pub struct State {
    /// Whether the configuration in force is the one in the file.
    pub is_current: bool,
    /// Whether the names of the book lead to the files that are open.
    pub has_book: bool,
    /// The last writing of the file of balances, if it was written.
    pub balances: Option<BalancesWritten>,
    /// The octets of the book's file, if they are known.
    pub book_octets: Option<u64>,
    /// The octets of its log, if they are known.
    pub log_octets: Option<u64>,
}

// The `HELP` and `TYPE` lines of a metric.
#[derive(Clone, Copy)]
struct Head {
    kind: &'static str,
    name: &'static str,
    about: &'static str,
}

impl fmt::Display for Head {
    ghost output = { λ head. Some (head_text head.kind.now head.name.now head.about.now) };

    fn fmt<W: fmt::Write>(&self, f: &mut fmt::Formatter<W>) -> fmt::Result {
        let (kind, name, about) = (self.kind, self.name, self.about);
        write!(f, "# HELP {name} {about}\n# TYPE {name} {kind}\n")
    }
}

// A metric of one value.
#[derive(Clone, Copy)]
struct Metric {
    head: Head,
    value: u64,
}

impl fmt::Display for Metric {
    ghost output = { λ metric. Some (metric_text metric.head.kind.now metric.head.name.now
        metric.head.about.now metric.value) };

    fn fmt<W: fmt::Write>(&self, f: &mut fmt::Formatter<W>) -> fmt::Result {
        let (head, name, value) = (self.head, self.head.name, self.value);
        write!(f, "{head}{name} {value}\n")
    }
}

// The drops for one reason.
#[derive(Clone, Copy)]
struct DropsMetric {
    reason: Reason,
    count: u64,
}

impl fmt::Display for DropsMetric {
    ghost output = { λ drops. Some (drops_metric_text drops.reason drops.count) };

    fn fmt<W: fmt::Write>(&self, f: &mut fmt::Formatter<W>) -> fmt::Result {
        let (number, name) = (self.reason.number(), self.reason.name());
        let count = self.count;
        write!(
            f,
            "radacctd_drops_total{{reason=\"{number}\",name=\"{name}\"}} {count}\n"
        )
    }
}

/// Writes what was counted, and flushes it.
pub fn write_figures<W: Write>(output: &mut W, figures: &Figures) -> io::Result<()>
    ensures { OnOk result (Appends (W.contents output.old) (W.contents output.new)
        (figures_text figures.now)) }
{
    write_parts(output, figures)?;
    output.flush()
}

// Writes what was counted.
fn write_parts<W: Write>(output: &mut W, figures: &Figures) -> io::Result<()>
    ensures { OnOk result (Appends (W.contents output.old) (W.contents output.new)
        (figures_text figures.now)) }
{
    write_tally(output, &figures.tally)?;
    write_drops(output, &figures.dropped)?;
    write_moments(output, figures)?;
    write_arrivals(
        output,
        &figures.datagrams,
        figures.reports,
        &figures.requests,
    )?;
    write_state(output, &figures.state)?;
    Ok(())
}

// Writes a metric of one value, after its `HELP` and `TYPE` lines.
fn write_metric<W: Write>(
    output: &mut W,
    kind: &'static str,
    name: &'static str,
    about: &'static str,
    value: u64,
) -> io::Result<()>
    ensures { OnOk result (Appends (W.contents output.old) (W.contents output.new)
        (metric_text kind.now name.now about.now value)) }
{
    let head = Head { kind, name, about };
    let metric = Metric { head, value };
    write!(output, "{metric}")
}

// Writes the counts, except the drops for each reason.
fn write_tally<W: Write>(output: &mut W, tally: &Tally) -> io::Result<()>
    ensures { OnOk result (Appends (W.contents output.old) (W.contents output.new)
        (tally_text tally.now)) }
{
    let name = "radacctd_events_total";
    let about = "Datagrams and requests that were received.";
    write_metric(output, COUNTER, name, about, tally.events)?;
    let name = "radacctd_replies_total";
    let about = "Replies and responses that were taken.";
    write_metric(output, COUNTER, name, about, tally.replies)?;
    let name = "radacctd_mute_requests_total";
    let about = "Requests that got no response, since memory ran out.";
    write_metric(output, COUNTER, name, about, tally.mute)?;
    let name = "radacctd_faults_total";
    let about = "Faults of receiving and of sending.";
    write_metric(output, COUNTER, name, about, tally.faults)?;
    Ok(())
}

// Writes the drops for each reason, including reasons without drops.
fn write_drops<W: Write>(output: &mut W, dropped: &[u64; Reason::COUNT]) -> io::Result<()>
    ensures { OnOk result (Appends (W.contents output.old) (W.contents output.new)
        (drops_text dropped.now)) }
{
    let about = "Datagrams that were dropped, for each reason.";
    write_head(output, "radacctd_drops_total", about)?;
    write_reasons(output, dropped, &Reason::ALL)?;
    Ok(())
}

// Writes the `HELP` and `TYPE` lines of a counter.
fn write_head<W: Write>(output: &mut W, name: &'static str, about: &'static str) -> io::Result<()>
    ensures { OnOk result (Appends (W.contents output.old) (W.contents output.new)
        (head_text (codes "counter") name.now about.now)) }
{
    let kind = COUNTER;
    let head = Head { kind, name, about };
    write!(output, "{head}")
}

// Writes the drops for each of these reasons.
fn write_reasons<W: Write>(
    output: &mut W,
    dropped: &[u64; Reason::COUNT],
    reasons: &[Reason],
) -> io::Result<()>
    ensures { OnOk result (Appends (W.contents output.old) (W.contents output.new)
        (drops_lines dropped.now reasons.now)) }
{
    for reason in reasons {
        write_reason(output, dropped, *reason)?;
    }
    Ok(())
}

// Writes the drops for a reason.
fn write_reason<W: Write>(
    output: &mut W,
    dropped: &[u64; Reason::COUNT],
    reason: Reason,
) -> io::Result<()>
    ensures { OnOk result (Appends (W.contents output.old) (W.contents output.new)
        (drops_metric_text reason (count_for dropped.now reason))) }
{
    let count = dropped[reason.place()];
    let drops = DropsMetric { reason, count };
    write!(output, "{drops}")
}

// Writes when the server started, and when it received the last event.
fn write_moments<W: Write>(output: &mut W, figures: &Figures) -> io::Result<()>
    ensures { OnOk result (Appends (W.contents output.old) (W.contents output.new)
        (moments_text figures.now.started_at figures.now.last_event_at)) }
{
    let name = "radacctd_start_time_seconds";
    let about = "When the server started, in seconds since 1970.";
    write_metric(output, GAUGE, name, about, figures.started_at)?;
    let name = "radacctd_last_event_time_seconds";
    let about = "When the last event was received, in seconds since 1970, or 0.";
    write_metric(output, GAUGE, name, about, figures.last_event_at)
}

// Writes how many datagrams and desk requests were received, how many reports were accepted, and
// when the last ones were received.
fn write_arrivals<W: Write>(
    output: &mut W,
    datagrams: &Arrivals,
    reports: u64,
    requests: &Arrivals,
) -> io::Result<()>
    ensures { OnOk result (Appends (W.contents output.old) (W.contents output.new)
        (arrivals_text datagrams.now reports requests.now)) }
{
    let name = "radacctd_datagrams_total";
    let about = "Datagrams that were received.";
    write_metric(output, COUNTER, name, about, datagrams.count)?;
    let name = "radacctd_reports_total";
    let about = "Reports that were accepted, new or sent again.";
    write_metric(output, COUNTER, name, about, reports)?;
    let name = "radacctd_desk_requests_total";
    let about = "Requests that the desk received.";
    write_metric(output, COUNTER, name, about, requests.count)?;
    let name = "radacctd_last_report_time_seconds";
    let about = "When the last datagram was received, in seconds since 1970, or 0.";
    write_metric(output, GAUGE, name, about, datagrams.last_at)?;
    let name = "radacctd_last_desk_request_time_seconds";
    let about = "When the desk received the last request, in seconds since 1970, or 0.";
    write_metric(output, GAUGE, name, about, requests.last_at)?;
    Ok(())
}

// Writes the state of a server.
fn write_state<W: Write>(output: &mut W, state: &State) -> io::Result<()>
    ensures { OnOk result (Appends (W.contents output.old) (W.contents output.new)
        (state_text state.now)) }
{
    let name = "radacctd_config_is_current";
    let about = "Whether the configuration in force is the one in the file.";
    write_metric(output, GAUGE, name, about, value_of(state.is_current))?;
    let name = "radacctd_book_is_there";
    let about = "Whether the book's names lead to its open files; if not, nothing is answered.";
    write_metric(output, GAUGE, name, about, value_of(state.has_book))?;
    write_balances(output, state.balances)?;
    let about = "The octets of the file of the book.";
    write_known(output, "radacctd_book_octets", about, state.book_octets)?;
    let about = "The octets of the log of the book.";
    write_known(output, "radacctd_log_octets", about, state.log_octets)?;
    write_build(output)?;
    Ok(())
}

// 1 or 0.
fn value_of(is_so: bool) -> u64
    ensures { result ≡ value_of is_so }
{
    if is_so { 1 } else { 0 }
}

// Writes when the file of balances was written, and what it has.
fn write_balances<W: Write>(output: &mut W, balances: Option<BalancesWritten>) -> io::Result<()>
    ensures { OnOk result (Appends (W.contents output.old) (W.contents output.new)
        (balances_text balances)) }
{
    let name = "radacctd_balances_time_seconds";
    let about = "When the file of balances was written, in seconds since 1970, or 0.";
    let Some(written) = balances else {
        return write_metric(output, GAUGE, name, about, 0);
    };
    write_metric(output, GAUGE, name, about, written.at)?;
    let name = "radacctd_accounts";
    let about = "Accounts in the file of balances.";
    write_metric(output, GAUGE, name, about, written.accounts)?;
    let name = "radacctd_overdrawn_accounts";
    let about = "Accounts in the file of balances with a balance below 0.";
    write_metric(output, GAUGE, name, about, written.overdrawn)?;
    Ok(())
}

// Writes a value, if it is known.
fn write_known<W: Write>(
    output: &mut W,
    name: &'static str,
    about: &'static str,
    value: Option<u64>,
) -> io::Result<()>
    ensures { OnOk result (Appends (W.contents output.old) (W.contents output.new)
        (known_text name.now about.now value)) }
{
    match value {
        Some(value) => write_metric(output, GAUGE, name, about, value),
        None => Ok(()),
    }
}

// Writes which build of the program it is.
fn write_build<W: Write>(output: &mut W) -> io::Result<()>
    ensures { OnOk result (Appends (W.contents output.old) (W.contents output.new) build_text) }
{
    output.write_all(
        b"# HELP radacctd_build_info The program and the schema of its books.\n\
        # TYPE radacctd_build_info gauge\n\
        radacctd_build_info{version=\"0.1.0\",schema=\"3\"} 1\n",
    )
}
