//! What the tables of a configuration have, and how a value that breaks its rule is found.
//!
//! No rule is tested here. A value is put into a table whose other values are right, and the table
//! is read as a configuration.
use acct_site_config::{ConfigKind, ConfigTable, config_of};
use std::alloc::{AllocError, Global};
use toml::{Table, Value};

// A kind of table.
#[derive(Clone, Copy)]
pub(crate) struct Kind {
    // The name of the array.
    pub(crate) table: &'static str,
    // The names of its tables, in words.
    pub(crate) known: &'static str,
    // The text before such a table, if all is right.
    before: &'static str,
}

// A name of a table, and which value it may have.
#[derive(Clone, Copy)]
pub(crate) struct Field {
    // The name.
    pub(crate) name: &'static str,
    // What the value is, in words.
    pub(crate) rule: &'static str,
    // Whether each table has it.
    pub(crate) is_required: bool,
    // Whether no two tables have the same.
    pub(crate) is_unique: bool,
    // The other names of a table, with values that are right.
    others: &'static str,
}

static CLIENT: Kind = Kind {
    table: "client",
    known: "name, address and secret, and perhaps stamped, proxy and plan",
    before: "[[client]]\n",
};

static PLAN: Kind = Kind {
    table: "plan",
    known: "class, block, unit and perhaps count",
    before: "[[plan]]\n",
};

static KEY: Kind = Kind {
    table: "key",
    known: "token, and account, cashier, perhaps with accounts, or logins",
    before: "[[plan]]\nclass = 'default'\nblock = 1\nunit = 0\n[[key]]\n",
};

static WITHDRAWN: Kind = Kind {
    table: "withdrawn",
    known: "account and until",
    before: "[[plan]]\nclass = 'default'\nblock = 1\nunit = 0\n[[withdrawn]]\n",
};

static CLIENT_FIELDS: [Field; 6] = [
    Field {
        name: "name",
        rule: "1 to 32 of A-Z a-z 0-9 . - _ in quotes",
        is_required: true,
        is_unique: true,
        others: "address = '0.0.0.1'\nsecret = 's'\n",
    },
    Field {
        name: "address",
        rule: "four numbers from 0 to 255 with dots, without leading zeros, in quotes",
        is_required: true,
        is_unique: true,
        others: "name = 'n'\nsecret = 's'\n",
    },
    Field {
        name: "secret",
        rule: "1 to 128 octets in quotes",
        is_required: true,
        is_unique: false,
        others: "name = 'n'\naddress = '0.0.0.1'\n",
    },
    Field {
        name: "stamped",
        rule: "true or false, without quotes",
        is_required: false,
        is_unique: false,
        others: "name = 'n'\naddress = '0.0.0.1'\nsecret = 's'\n",
    },
    Field {
        name: "proxy",
        rule: "true or false, without quotes, and true only with stamped = true",
        is_required: false,
        is_unique: false,
        others: "name = 'n'\naddress = '0.0.0.1'\nsecret = 's'\n",
    },
    Field {
        name: "plan",
        rule: "1 to 253 octets in quotes, and only with stamped = true",
        is_required: false,
        is_unique: false,
        others: "name = 'n'\naddress = '0.0.0.1'\nsecret = 's'\n",
    },
];

static PLAN_FIELDS: [Field; 4] = [
    Field {
        name: "class",
        rule: "1 to 253 octets in quotes",
        is_required: true,
        is_unique: true,
        others: "block = 1\nunit = 0\n",
    },
    Field {
        name: "block",
        rule: "a whole number from 1 to 9007199254740992, without quotes",
        is_required: true,
        is_unique: false,
        others: "class = 'c'\nunit = 0\n",
    },
    Field {
        name: "unit",
        rule: "a whole number from 0 to 1000000000, without quotes",
        is_required: true,
        is_unique: false,
        others: "class = 'c'\nblock = 1\n",
    },
    Field {
        name: "count",
        rule: "both, in or out, in quotes",
        is_required: false,
        is_unique: false,
        others: "class = 'c'\nblock = 1\nunit = 0\n",
    },
];

static KEY_FIELDS: [Field; 5] = [
    Field {
        name: "token",
        rule: "16 to 64 of A-Z a-z 0-9 - in quotes",
        is_required: true,
        is_unique: true,
        others: "cashier = true\n",
    },
    Field {
        name: "account",
        rule: "1 to 253 octets in quotes",
        is_required: false,
        is_unique: false,
        others: "token = 'abcdefghijklmnop'\n",
    },
    Field {
        name: "cashier",
        rule: "true, without quotes, where the key is the cashier's",
        is_required: false,
        is_unique: false,
        others: "token = 'abcdefghijklmnop'\n",
    },
    Field {
        name: "accounts",
        rule: "true, without quotes, where the cashier sees accounts",
        is_required: false,
        is_unique: false,
        others: "token = 'abcdefghijklmnop'\ncashier = true\n",
    },
    Field {
        name: "logins",
        rule: "true, without quotes, where the key asks what a login may use",
        is_required: false,
        is_unique: false,
        others: "token = 'abcdefghijklmnop'\n",
    },
];

static WITHDRAWN_FIELDS: [Field; 2] = [
    Field {
        name: "account",
        rule: "1 to 253 octets in quotes",
        is_required: true,
        is_unique: false,
        others: "until = 0\n",
    },
    Field {
        name: "until",
        rule: "the last second, counted since 1970, as a whole number without quotes",
        is_required: true,
        is_unique: false,
        others: "account = 'a'\n",
    },
];

// The kind of the tables of an array, with their names; none for the text as a whole.
pub(crate) fn kind_of(table: ConfigTable) -> Option<(Kind, &'static [Field])> {
    match table {
        ConfigTable::Top => None,
        ConfigTable::Client => Some((CLIENT, &CLIENT_FIELDS)),
        ConfigTable::Plan => Some((PLAN, &PLAN_FIELDS)),
        ConfigTable::Key => Some((KEY, &KEY_FIELDS)),
        ConfigTable::Withdrawn => Some((WITHDRAWN, &WITHDRAWN_FIELDS)),
    }
}

// The first of the names of a table whose value has this fault.
pub(crate) fn field_at_fault(
    alloc: Global,
    kind: Kind,
    fields: &'static [Field],
    table: &Table,
    fault: ConfigKind,
) -> Result<Option<Field>, AllocError> {
    for field in fields {
        if let Some(value) = table.get(field.name) {
            if has_fault(alloc, kind, *field, value, fault)? {
                return Ok(Some(*field));
            }
        }
    }
    Ok(None)
}

// Whether this value gives a table this fault, if all else of the table is right.
fn has_fault(
    alloc: Global,
    kind: Kind,
    field: Field,
    value: &Value,
    fault: ConfigKind,
) -> Result<bool, AllocError> {
    let (before, others, name) = (kind.before, field.others, field.name);
    let text = format!(in alloc; "{before}{others}{name} = {value}\n")?;
    match config_of(alloc, text.as_str()) {
        Ok(_) => Ok(false),
        Err(error) => Ok(error.kind == fault),
    }
}
