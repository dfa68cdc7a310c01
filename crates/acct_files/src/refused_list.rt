//! The list of the refused records of an import.
ghost use Rattle.std.specs.Prelude.{◌≡◌, ◌++◌, [], ◌∷◌, OnOk, OnErr};

use crate::import_report::Refused;
use acct_model::NoMemory;
use std::alloc::Global;
use std::marker::Model;

/// Refused records in the order of their numbers, which contracts see as a list.
pub struct RefusedList {
    /// The refused records, those with the smallest numbers first.
    pub records: Vec<Refused>,
}

impl Drop for RefusedList {
    fn drop(self) {
        let RefusedList { records: _ } = self;
    }
}

impl Model for RefusedList {
    ghost use Rattle.std.specs.Prelude.{List};
    ghost use Rattle.acct_files.specs.declared.import_report.Refused.{Refused};

    ghost Value = { List Refused };

    ghost view = { λ l. l.records.items };
}

impl RefusedList {
    /// A list without records.
    pub fn new(alloc: Global) -> RefusedList
        ensures { result ≡ [] }
    {
        RefusedList {
            records: Vec::new(alloc),
        }
    }

    /// The records as a slice.
    pub fn as_slice(&self) -> &[Refused]
        ensures { result.now ≡ self.now }
    {
        &self.records
    }

    /// Adds a record at the end, or nothing if memory runs out.
    pub fn push(&mut self, refused: Refused) -> Result<(), NoMemory>
        ensures ok { OnOk result (self.new ≡ self.old ++ refused ∷ []) }
        ensures err { OnErr result (self.new ≡ self.old) }
    {
        match self.records.push(refused) {
            Ok(()) => Ok(()),
            Err(_) => Err(NoMemory),
        }
    }
}
