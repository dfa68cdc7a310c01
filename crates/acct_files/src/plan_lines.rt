//! The plans of a book.
ghost use Rattle.std.specs.Prelude.{◌≡◌, ◌⊎◌, IfOk, IfErr, OnOk, codes, flat_map, map};
ghost use Rattle.std.specs.Io.KnownBytes.{Appends};
ghost use Rattle.csv.specs.Writing.{text_written};
ghost use Rattle.acct_files.specs.Exporting.{IsBetweenLines, count_text, export_text, line};
ghost use Rattle.acct_files.specs.Exporting.{plan_header, plan_fields};

use crate::csv_lines::{ExportError, begin, finish, push, push_number, push_shown, write_line};
use acct_model::{Count, Plan};
use csv::{ByteRecord, Writer};
use std::alloc::Global;
use std::io::Write;

/// Writes `class,block,unit,count` and a line for each plan, in their order.
///
/// # Errors
///
/// `WriteFault` and `Memory`.
pub fn export_plans<W: Write + Drop>(
    alloc: Global,
    plans: &[Plan],
    writer: W,
) -> Result<W, ExportError>
    ensures text { IfOk result (λ w. Appends (W.contents writer) (W.contents w)
        (export_text plan_header (λ plan. line (plan_fields plan)) plans.now)) }
{
    let mut lines = begin(writer, &[b"class", b"block", b"unit", b"count"])?;
    let mut fields = ByteRecord::new(alloc);
    write_each(alloc, plans, &mut lines, &mut fields)?;
    finish(lines)
}

// Writes a line for each plan, to a writer that has written the header.
fn write_each<W: Write + Drop>(
    alloc: Global,
    plans: &[Plan],
    lines: &mut Writer<W>,
    fields: &mut ByteRecord,
) -> Result<(), ExportError>
    requires { IsBetweenLines lines.old }
    ensures { OnOk result (Appends (text_written W.contents lines.old)
        (text_written W.contents lines.new)
        (flat_map (λ plan. line (plan_fields plan)) plans.now)) }
{
    for plan in plans {
        write_plan(alloc, plan, lines, fields)?;
    }
    Ok(())
}

// Writes the line of a plan.
fn write_plan<W: Write + Drop>(
    alloc: Global,
    plan: &Plan,
    lines: &mut Writer<W>,
    fields: &mut ByteRecord,
) -> Result<(), ExportError>
    requires { IsBetweenLines lines.old }
    ensures between { OnOk result (IsBetweenLines lines.new) }
    ensures text { OnOk result (Appends (text_written W.contents lines.old)
        (text_written W.contents lines.new) (line (plan_fields plan.now))) }
{
    fields.clear();
    push_shown(alloc, fields, plan.class.as_slice())?;
    push_number(fields, plan.block)?;
    push_number(fields, plan.unit)?;
    push(fields, count_text(plan.count))?;
    write_line(lines, fields)
}

// What a plan counts, as a configuration names it.
fn count_text(count: Count) -> &'static [u8]
    ensures { result.now ≡ count_text count }
{
    match count {
        Count::Both => b"both",
        Count::Input => b"in",
        Count::Output => b"out",
    }
}
