//! Lines of CSV.
ghost use Rattle.std.specs.Prelude.{◌≡◌, ◌++◌, [], ◌∷◌, map, string_bytes, IfOk, OnOk};
ghost use Rattle.std.specs.Io.KnownBytes.{Appends, Keeps};
ghost use Rattle.csv.specs.Records.{fields_of, partial_of};
ghost use Rattle.csv.specs.Writing.{text_written};
ghost use Rattle.acct_model.specs.Shown.{shown};
ghost use Rattle.acct_files.specs.Exporting.{IsBetweenLines, line};

use acct_book::Unavailable;
use acct_model::{NoMemory, show};
use csv::{ByteRecord, Writer, WriterBuilder};
use itoa::{Buffer, Integer};
use std::alloc::Global;
use std::io::Write;
use thiserror::Error;

/// Why an export stopped before its end. The writer is dropped.
#[derive(Clone, Copy, PartialEq, Eq, Debug, Error)]
pub enum ExportError {
    /// The book is unavailable.
    #[error("the book is unavailable")]
    Unavailable = 1,
    /// The writer failed.
    #[error("the export cannot be written")]
    WriteFault = 2,
    /// Out of memory, outside the book.
    #[error("out of memory")]
    Memory = 3,
}

impl From<Unavailable> for ExportError {
    ghost use Rattle.std.specs.Prelude.{◌≡◌};
    ghost use Rattle.acct_files.specs.declared.csv_lines.ExportError.TheVariants as error;

    ghost from_gives = { λ _ told. told ≡ error.Unavailable };

    fn from(_error: Unavailable) -> ExportError {
        ExportError::Unavailable
    }
}

impl From<NoMemory> for ExportError {
    ghost use Rattle.std.specs.Prelude.{◌≡◌};
    ghost use Rattle.acct_files.specs.declared.csv_lines.ExportError.TheVariants as error;

    ghost from_gives = { λ _ told. told ≡ error.Memory };

    fn from(_error: NoMemory) -> ExportError {
        ExportError::Memory
    }
}

/// A writer of lines that has written the header.
pub(crate) fn begin<W: Write + Drop>(writer: W, header: &[&[u8]]) -> Result<Writer<W>, ExportError>
    ensures between { IfOk result IsBetweenLines }
    ensures text { IfOk result (λ lines. Appends (W.contents writer) (text_written W.contents lines)
        (line (map (λ field. field.now) header.now))) }
{
    let mut lines = WriterBuilder::new().from_writer(writer);
    match lines.write_fields(header) {
        Ok(()) => Ok(lines),
        Err(_) => Err(ExportError::WriteFault),
    }
}

/// Writes a line of these fields.
pub(crate) fn write_line<W: Write + Drop>(
    lines: &mut Writer<W>,
    fields: &ByteRecord,
) -> Result<(), ExportError>
    requires { IsBetweenLines lines.old }
    ensures between { OnOk result (IsBetweenLines lines.new) }
    ensures text { OnOk result (Appends (text_written W.contents lines.old)
        (text_written W.contents lines.new) (line (fields_of fields.now))) }
{
    match lines.write_byte_record(fields) {
        Ok(()) => Ok(()),
        Err(_) => Err(ExportError::WriteFault),
    }
}

/// The writer underneath, to which all lines have been written.
pub(crate) fn finish<W: Write + Drop>(lines: Writer<W>) -> Result<W, ExportError>
    ensures { IfOk result (λ writer. Keeps (text_written W.contents lines) (W.contents writer)) }
{
    match lines.into_inner() {
        Ok(writer) => Ok(writer),
        Err(_) => Err(ExportError::WriteFault),
    }
}

/// Adds a field with this text as it is.
pub(crate) fn push(fields: &mut ByteRecord, text: &[u8]) -> Result<(), ExportError>
    requires { partial_of fields.old ≡ [] }
    ensures fields { OnOk result (fields_of fields.new ≡ fields_of fields.old ++ text.now ∷ []) }
    ensures partial { OnOk result (partial_of fields.new ≡ []) }
{
    match fields.push_field(text) {
        Ok(()) => Ok(()),
        Err(_) => Err(ExportError::Memory),
    }
}

/// Adds a field of shown octets.
pub(crate) fn push_shown(
    alloc: Global,
    fields: &mut ByteRecord,
    octets: &[u8],
) -> Result<(), ExportError>
    requires { partial_of fields.old ≡ [] }
    ensures fields { OnOk result (fields_of fields.new
        ≡ fields_of fields.old ++ shown octets.now ∷ []) }
    ensures partial { OnOk result (partial_of fields.new ≡ []) }
{
    match show(alloc, octets) {
        Ok(text) => push(fields, text.as_bytes()),
        Err(NoMemory) => Err(ExportError::Memory),
    }
}

/// Adds a field of a number in decimal digits.
pub(crate) fn push_number<I: Integer>(fields: &mut ByteRecord, n: I) -> Result<(), ExportError>
    requires { partial_of fields.old ≡ [] }
    ensures fields { OnOk result (fields_of fields.new ≡ fields_of fields.old ++ I.text n ∷ []) }
    ensures partial { OnOk result (partial_of fields.new ≡ []) }
{
    let mut digits = Buffer::new();
    push(fields, digits.format(n).as_bytes())
}
