//! What an import reports.
ghost use Rattle.std.specs.Prelude.{◌≡◌, ◌+◌, ◌≤◌, ◌<◌, ◌-◌, ◌^◌, ℕ, [], ◌∷◌, ◌++◌, length, List};
ghost use Rattle.std.specs.Prelude.{OnOk, OnErr, IfErr, IsTrue, None, Ok, Some};
ghost use Rattle.acct_files.specs.Importing.{CountsLines};
ghost use Rattle.acct_files.specs.inner.Importing.{added_by};
ghost use Rattle.acct_files.specs.Importing as spec;
ghost use Rattle.acct_files.specs.Reports.{cause_text, stop_text};
ghost use Rattle.acct_files.specs.declared.import_report.Outcome.{Outcome};

use crate::refused_list::RefusedList;
use std::alloc::Global;
use std::fmt;

/// Why a record is refused, in the order in which it is tested. It is shown by its name.
#[derive(Clone, Copy, PartialEq, Eq, Debug)]
pub enum Cause {
    /// It hasn't three fields.
    FieldCount = 1,
    /// The voucher's number isn't 1 to 32 of the characters `A` to `Z`, `0` to `9` and `-`.
    BadVoucher = 2,
    /// The account, percent-decoded, isn't 1 to 253 octets.
    BadAccount = 3,
    /// The sum isn't 1 to 13 digits, or isn't 1 to 10^12.
    BadSum = 4,
    /// The voucher is kept with another account or sum.
    VoucherDiffers = 5,
    /// The account's balance would leave its range.
    BalanceLimit = 6,
}

impl fmt::Display for Cause {
    ghost output = { λ cause. Some (cause_text cause) };

    fn fmt<W: fmt::Write>(&self, f: &mut fmt::Formatter<W>) -> fmt::Result {
        f.write_str(match self {
            Cause::FieldCount => "FieldCount",
            Cause::BadVoucher => "BadVoucher",
            Cause::BadAccount => "BadAccount",
            Cause::BadSum => "BadSum",
            Cause::VoucherDiffers => "VoucherDiffers",
            Cause::BalanceLimit => "BalanceLimit",
        })
    }
}

/// Why an import stopped before its end. It is shown by its name.
#[derive(Clone, Copy, PartialEq, Eq, Debug)]
pub enum Stopped {
    /// The first record isn't there, or isn't `voucher,account,sum`.
    BadHeader = 1,
    /// The reader failed, or the limit of octets or of reads was passed.
    Unreadable = 2,
    /// The book is unavailable, without a visible cause.
    Unavailable = 3,
    /// Out of memory, outside the book.
    Memory = 4,
    /// There are more than 1,000,000 records after the header.
    TooMany = 5,
}

impl fmt::Display for Stopped {
    ghost output = { λ stopped. Some (stop_text stopped) };

    fn fmt<W: fmt::Write>(&self, f: &mut fmt::Formatter<W>) -> fmt::Result {
        f.write_str(match self {
            Stopped::BadHeader => "BadHeader",
            Stopped::Unreadable => "Unreadable",
            Stopped::Unavailable => "Unavailable",
            Stopped::Memory => "Memory",
            Stopped::TooMany => "TooMany",
        })
    }
}

/// A record that was refused.
#[derive(Clone, Copy, PartialEq, Eq, Debug)]
pub struct Refused {
    /// Its number. The header is record 1.
    pub number: u64,
    /// Why it was refused.
    pub cause: Cause,
}

/// What became of a record.
#[derive(Clone, Copy, PartialEq, Eq, Debug)]
pub enum Outcome {
    /// Its voucher was added.
    Added,
    /// Its voucher was kept before, with the same account and sum.
    Repeated,
    /// It was refused.
    Refused(Cause),
}

/// What an import did.
pub struct ImportReport {
    /// How many vouchers were added.
    pub added: u64,
    /// How many were kept before with the same account and sum.
    pub repeated: u64,
    /// The records that were refused.
    pub refused: RefusedList,
    /// Why the import stopped before its end, if it did.
    pub stopped: Option<Stopped>,
}

impl Drop for ImportReport {
    fn drop(self) {
        let ImportReport {
            added: _,
            repeated: _,
            refused: _,
            stopped: _,
        } = self;
    }
}

impl ImportReport {
    /// The report before the first record.
    pub fn new(alloc: Global) -> ImportReport
        ensures counts { CountsLines [] result }
        ensures stopped { result.stopped ≡ None }
    {
        ImportReport {
            added: 0,
            repeated: 0,
            refused: RefusedList::new(alloc),
            stopped: None,
        }
    }

    /// Counts the outcome of the record of this number, which follows those that were counted.
    ///
    /// # Errors
    ///
    /// `Memory` if there is no memory to keep a refused record. Nothing is then counted.
    pub(crate) fn count(&mut self, number: u64, outcome: Outcome) -> Result<(), Stopped>
        requires added { self.old.added < 2 ^ 64 - 1 }
        requires repeated { self.old.repeated < 2 ^ 64 - 1 }
        ensures ok { OnOk result ((outcomes : List Outcome) → CountsLines outcomes self.old
            → number ≡ length outcomes + 2 → CountsLines (outcomes ++ outcome ∷ []) self.new) }
        ensures err { OnErr result (self.new ≡ self.old) }
        ensures full { IfErr result (λ stop. (stop ≡ Stopped.Memory)
            × IsTrue (spec.is_refused outcome)) }
        ensures added { OnOk result (self.new.added ≡ self.old.added + added_by (Ok outcome)) }
        ensures room { OnOk result (self.new.repeated ≤ self.old.repeated + 1) }
        ensures stopped { self.new.stopped ≡ self.old.stopped }
    {
        match outcome {
            Outcome::Added => self.added += 1,
            Outcome::Repeated => self.repeated += 1,
            Outcome::Refused(cause) => match self.refused.push(Refused { number, cause }) {
                Ok(()) => {}
                Err(_) => return Err(Stopped::Memory),
            },
        }
        Ok(())
    }
}
