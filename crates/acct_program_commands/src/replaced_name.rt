//! The name of a file that is replaced as a whole.
ghost use Rattle.std.specs.Prelude.{◌≡◌, ◌++◌, IfOk, codes};

use acct_model::Text;
use std::alloc::{AllocError, Global};
use std::marker::Model;

/// The name of a file that is replaced as a whole, with the one under which each successor is
/// written: it has `.new` appended. A file is opened and put by such a pair alone, so none is
/// written in place.
pub struct ReplacedName {
    name: Text,
    new_name: Text,
}

impl Drop for ReplacedName {
    fn drop(self) {
        let ReplacedName {
            name: _,
            new_name: _,
        } = self;
    }
}

impl Model for ReplacedName {
    ghost use Rattle.std.specs.Prelude.{◌≡◌, ◌++◌, ℕ, List, codes};

    ghost Value = { List ℕ };

    ghost view = { λ it. it.name };

    ghost invariant = { λ it. it.new_name ≡ it.name ++ codes ".new" };
}

impl ReplacedName {
    /// The pair of a name.
    pub fn of(alloc: Global, name: &Text) -> Result<ReplacedName, AllocError>
        ensures { IfOk result (λ it. it ≡ name.now) }
    {
        let old = name.as_str();
        let text = format!(in alloc; "{old}.new")?;
        Ok(ReplacedName {
            name: name.copy(alloc)?,
            new_name: Text { text },
        })
    }

    /// The name.
    pub fn name(&self) -> &str
        ensures { result.now ≡ self.now }
    {
        self.name.as_str()
    }

    /// The name of a successor.
    pub fn new_name(&self) -> &str
        ensures { result.now ≡ self.now ++ codes ".new" }
    {
        self.new_name.as_str()
    }
}
