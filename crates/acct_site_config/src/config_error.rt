//! Why a text is no configuration.
ghost use Rattle.std.specs.Prelude.{Some};
ghost use Rattle.acct_site_config.specs.ErrorText.{kind_text, table_text, error_text};

use acct_model::NoMemory;
use std::alloc::AllocError;
use std::fmt;
use thiserror::Error;

/// What is wrong, in the order in which it is tested. It is shown by its name.
#[derive(Clone, Copy, PartialEq, Eq, Debug)]
pub enum ConfigKind {
    /// The text isn't TOML.
    NotToml = 1,
    /// A name is unknown or missing, a value is of the wrong kind, or there are too many entries.
    BadShape = 2,
    /// A client's name, address or secret breaks its rule.
    BadClient = 3,
    /// An earlier client has the name or the address.
    TwiceClient = 4,
    /// A plan's class, block, unit or count breaks its rule.
    BadPlan = 5,
    /// An earlier plan has the class.
    TwicePlanned = 6,
    /// No plan has the class `default`.
    NoDefault = 7,
    /// A key's token, account or `cashier` breaks its rule.
    BadKey = 8,
    /// An earlier key has the token.
    TwiceKeyed = 9,
    /// Out of memory. It may be returned instead of any other.
    Memory = 10,
    /// A secret of the stamp is not 16 to 64 octets.
    BadStamp = 11,
    /// The logins of a client are stamped, and there is no stamp.
    NoStamp = 12,
    /// A withdrawn account or its last second breaks its rule.
    BadWithdrawn = 13,
}

impl From<AllocError> for ConfigKind {
    ghost use Rattle.std.specs.Prelude.{◌≡◌};
    ghost use Rattle.acct_site_config.specs.declared.config_error.ConfigKind.TheVariants.{Memory};

    ghost from_gives = { λ _ kind. kind ≡ Memory };

    fn from(_error: AllocError) -> ConfigKind {
        ConfigKind::Memory
    }
}

impl From<NoMemory> for ConfigKind {
    ghost use Rattle.std.specs.Prelude.{◌≡◌};
    ghost use Rattle.acct_site_config.specs.declared.config_error.ConfigKind.TheVariants.{Memory};

    ghost from_gives = { λ _ kind. kind ≡ Memory };

    fn from(_error: NoMemory) -> ConfigKind {
        ConfigKind::Memory
    }
}

impl fmt::Display for ConfigKind {
    ghost output = { λ kind. Some (kind_text kind) };

    fn fmt<W: fmt::Write>(&self, f: &mut fmt::Formatter<W>) -> fmt::Result {
        f.write_str(match self {
            ConfigKind::NotToml => "NotToml",
            ConfigKind::BadShape => "BadShape",
            ConfigKind::BadClient => "BadClient",
            ConfigKind::TwiceClient => "TwiceClient",
            ConfigKind::BadPlan => "BadPlan",
            ConfigKind::TwicePlanned => "TwicePlanned",
            ConfigKind::NoDefault => "NoDefault",
            ConfigKind::BadKey => "BadKey",
            ConfigKind::TwiceKeyed => "TwiceKeyed",
            ConfigKind::Memory => "Memory",
            ConfigKind::BadStamp => "BadStamp",
            ConfigKind::NoStamp => "NoStamp",
            ConfigKind::BadWithdrawn => "BadWithdrawn",
        })
    }
}

/// Where it is wrong. It is shown by its name.
#[derive(Clone, Copy, PartialEq, Eq, Debug)]
pub enum ConfigTable {
    /// The text as a whole.
    Top,
    /// A table of the array `client`.
    Client,
    /// A table of the array `plan`.
    Plan,
    /// A table of the array `key`.
    Key,
    /// A table of the array `withdrawn`.
    Withdrawn,
}

impl fmt::Display for ConfigTable {
    ghost output = { λ table. Some (table_text table) };

    fn fmt<W: fmt::Write>(&self, f: &mut fmt::Formatter<W>) -> fmt::Result {
        f.write_str(match self {
            ConfigTable::Top => "Top",
            ConfigTable::Client => "Client",
            ConfigTable::Plan => "Plan",
            ConfigTable::Key => "Key",
            ConfigTable::Withdrawn => "Withdrawn",
        })
    }
}

/// What is wrong with a text, and where. It is shown as `KIND in TABLE INDEX`.
#[derive(Clone, Copy, PartialEq, Eq, Debug, Error)]
pub struct ConfigError {
    /// What is wrong.
    pub kind: ConfigKind,
    /// Where it is wrong.
    pub table: ConfigTable,
    /// The place of the table in its array, from 0. It is 0 for the text as a whole.
    pub index: usize,
}

impl fmt::Display for ConfigError {
    ghost output = { λ error. Some (error_text error) };

    fn fmt<W: fmt::Write>(&self, f: &mut fmt::Formatter<W>) -> fmt::Result {
        write!(f, "{} in {} {}", self.kind, self.table, self.index)
    }
}

impl ConfigError {
    ghost use Rattle.std.specs.Prelude.{◌≡◌};
    ghost use Rattle.acct_site_config.specs.Tables.{top_error};

    // What is wrong with the text as a whole.
    pub(crate) fn top(kind: ConfigKind) -> ConfigError
        ensures { result ≡ top_error kind }
    {
        ConfigError {
            kind,
            table: ConfigTable::Top,
            index: 0,
        }
    }
}
