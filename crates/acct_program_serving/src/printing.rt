//! What a server prints on standard output: that it serves, and its counts.
ghost use Rattle.std.specs.Prelude.{◌++◌, ◌∷◌, [], OnOk, codes};
ghost use Rattle.std.specs.Io.KnownBytes.{Appends};
ghost use Rattle.acct_program_serving.specs.Runs.{drops_line, drops_lines, served_text};
ghost use Rattle.acct_wire.specs.Reasons.{all_reasons};

use crate::counts::{Counts, Drops};
use acct_service::Served;
use acct_wire::Reason;
use std::io;
use std::io::Write;

/// Prints that the server answers from now on.
pub(crate) fn write_serving<W: Write>(output: &mut W) -> io::Result<()>
    ensures { OnOk result (Appends (W.contents output.old) (W.contents output.new)
        (codes "serving" ++ 10 ∷ [])) }
{
    writeln!(output, "serving")?;
    output.flush()
}

/// Writes what a server counted: the totals, and the drops for each reason that had some.
pub(crate) fn write_counts<W: Write>(output: &mut W, served: &Served) -> io::Result<()>
    ensures { OnOk result (Appends (W.contents output.old) (W.contents output.new)
        (served_text served.now)) }
{
    let counts = Counts {
        events: served.events,
        replies: served.replies,
        mute: served.mute,
        faults: served.faults,
    };
    writeln!(output, "{counts}")?;
    write_drops(output, served)?;
    output.flush()
}

// Writes the drops for each reason that had some.
fn write_drops<W: Write>(output: &mut W, served: &Served) -> io::Result<()>
    ensures { OnOk result (Appends (W.contents output.old) (W.contents output.new)
        (drops_lines served.now.dropped all_reasons)) }
{
    write_reasons(output, served, &Reason::ALL)
}

// Writes the drops for each of these reasons that had some.
fn write_reasons<W: Write>(output: &mut W, served: &Served, reasons: &[Reason]) -> io::Result<()>
    ensures { OnOk result (Appends (W.contents output.old) (W.contents output.new)
        (drops_lines served.now.dropped reasons.now)) }
{
    for reason in reasons {
        write_reason(output, served, *reason)?;
    }
    Ok(())
}

// Writes the drops for a reason, if it had some.
fn write_reason<W: Write>(output: &mut W, served: &Served, reason: Reason) -> io::Result<()>
    ensures { OnOk result (Appends (W.contents output.old) (W.contents output.new)
        (drops_line served.now.dropped reason)) }
{
    let drops = Drops {
        reason: reason.number(),
        count: served.drops_for(reason),
    };
    if drops.count == 0 {
        return Ok(());
    }
    writeln!(output, "{drops}")
}
