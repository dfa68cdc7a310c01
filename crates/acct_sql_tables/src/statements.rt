//! The statements of the book, in SQL. The columns of a table are here in the order in which
//! `columns.rt` writes and reads them.

// A statement with the columns of `price_plan` in it.
macro_rules! with_plan_columns {
    ($before:literal, $after:literal) => { concat!($before, "class, block, unit", $after) };
}

// A statement with the columns of `account` in it.
macro_rules! with_account_columns {
    ($before:literal, $after:literal) => { concat!($before, "name, balance", $after) };
}

// A statement with the columns of `voucher` in it.
macro_rules! with_topup_columns {
    ($before:literal, $after:literal) => {
        concat!($before, "number, account, amount, moment", $after)
    };
}

// A statement with the columns of `session` in it.
macro_rules! with_session_columns {
    ($before:literal, $after:literal) => {
        concat!(
            $before,
            "client, id, account, class, input, output, seconds, first_seen, last_seen, state, \
            cause, calling, framed",
            $after
        )
    };
}

// ---- the schema number

// A statement with the schema number of a book in it.
macro_rules! with_own_number {
    ($before:literal, $after:literal) => { concat!($before, "3", $after) };
}

/// Makes the table of the schema number.
pub const META_TABLE: &str = "\
    CREATE TABLE meta (name TEXT NOT NULL PRIMARY KEY, value INTEGER NOT NULL) STRICT";

/// Adds the schema number of a book.
pub const NEW_SCHEMA_NUMBER: &str = with_own_number!(
    "INSERT INTO meta (name, value) VALUES ('schema', ",
    ")"
);

/// Shows the schema number.
pub const SCHEMA_NUMBER: &str = "SELECT value FROM meta WHERE name = 'schema'";

/// Sets the schema number to that of a book.
pub const SET_SCHEMA_NUMBER: &str = with_own_number!(
    "UPDATE meta SET value = ",
    " WHERE name = 'schema'"
);

/// Shows the rowids of `meta`, the least first.
pub const META_ROWIDS: &str = "SELECT rowid FROM meta ORDER BY rowid";

// ---- the plans

/// Makes the table of the plans.
pub const PLAN_TABLE: &str = "\
    CREATE TABLE price_plan (class BLOB NOT NULL PRIMARY KEY, block INTEGER NOT NULL, unit \
    INTEGER NOT NULL) STRICT";

/// Adds a plan.
pub const NEW_PLAN: &str = with_plan_columns!("INSERT INTO price_plan (", ") VALUES (?1, ?2, ?3)");

/// Shows each plan.
pub const PLANS: &str = with_plan_columns!("SELECT ", " FROM price_plan");

/// Makes the table of what the plans count.
pub const PLAN_COUNT_TABLE: &str = "\
    CREATE TABLE plan_count (class BLOB NOT NULL PRIMARY KEY, mode INTEGER NOT NULL) STRICT";

/// Adds what a plan counts.
pub const NEW_PLAN_COUNT: &str = "INSERT INTO plan_count (class, mode) VALUES (?1, ?2)";

/// Shows what each plan counts.
pub const PLAN_COUNTS: &str = "SELECT class, mode FROM plan_count";

// ---- the accounts

/// Makes the table of the accounts.
pub const ACCOUNT_TABLE: &str = "\
    CREATE TABLE account (name BLOB NOT NULL PRIMARY KEY, balance INTEGER NOT NULL) STRICT";

/// Sets the balance of an account that is kept.
pub const SET_BALANCE: &str = "UPDATE account SET balance = ?2 WHERE name = ?1";

/// Adds an account with its balance.
pub const NEW_BALANCE: &str = with_account_columns!("INSERT INTO account (", ") VALUES (?1, ?2)");

/// Shows the balance of an account.
pub const BALANCE_OF_ACCOUNT: &str = "SELECT balance FROM account WHERE name = ?1";

/// Shows the least account.
pub const FIRST_ACCOUNT: &str = with_account_columns!(
    "SELECT ",
    " FROM account ORDER BY name LIMIT 1"
);

/// Shows the least account after one.
pub const ACCOUNT_AFTER: &str = with_account_columns!(
    "SELECT ",
    " FROM account WHERE name > ?1 ORDER BY name LIMIT 1"
);

/// Shows the rowids of `account`, the least first.
pub const ACCOUNT_ROWIDS: &str = "SELECT rowid FROM account ORDER BY rowid";

// ---- the vouchers

/// Makes the table of the vouchers.
pub const VOUCHER_TABLE: &str = "\
    CREATE TABLE voucher (number TEXT NOT NULL PRIMARY KEY, account BLOB NOT NULL, amount INTEGER \
    NOT NULL, moment INTEGER NOT NULL) STRICT";

/// Makes the index by which the vouchers of an account are found.
pub const VOUCHER_ACCOUNT_INDEX: &str = "CREATE INDEX voucher_account ON voucher (account)";

/// Sets a voucher that is kept.
pub const SET_TOPUP: &str = "\
    UPDATE voucher SET account = ?2, amount = ?3, moment = ?4 WHERE number = ?1";

/// Adds a voucher.
pub const NEW_TOPUP: &str = with_topup_columns!(
    "INSERT INTO voucher (",
    ") VALUES (?1, ?2, ?3, ?4)"
);

/// Shows the voucher of a number.
pub const TOPUP_OF_NUMBER: &str = with_topup_columns!("SELECT ", " FROM voucher WHERE number = ?1");

/// Shows the vouchers of an account, the least number first.
pub const TOPUPS_OF_ACCOUNT: &str = with_topup_columns!(
    "SELECT ",
    " FROM voucher WHERE account = ?1 ORDER BY number"
);

/// Shows the voucher of the least number.
pub const FIRST_TOPUP: &str = with_topup_columns!(
    "SELECT ",
    " FROM voucher ORDER BY number LIMIT 1"
);

/// Shows the voucher of the least number after one.
pub const TOPUP_AFTER: &str = with_topup_columns!(
    "SELECT ",
    " FROM voucher WHERE number > ?1 ORDER BY number LIMIT 1"
);

/// Shows the rowids of `voucher`, the least first.
pub const VOUCHER_ROWIDS: &str = "SELECT rowid FROM voucher ORDER BY rowid";

// ---- the sessions

/// Makes the table of the sessions.
pub const SESSION_TABLE: &str = "\
    CREATE TABLE session (client TEXT NOT NULL, id BLOB NOT NULL, account BLOB NOT NULL, class \
    BLOB NOT NULL, input INTEGER NOT NULL, output INTEGER NOT NULL, seconds INTEGER NOT NULL, \
    first_seen INTEGER NOT NULL, last_seen INTEGER NOT NULL, state INTEGER NOT NULL, cause \
    INTEGER NOT NULL, calling BLOB NOT NULL, framed BLOB NOT NULL, PRIMARY KEY (client, id)) \
    STRICT";

/// Makes the index by which the sessions of an account are found.
pub const SESSION_ACCOUNT_INDEX: &str = "CREATE INDEX session_account ON session (account)";

/// Sets a session that is kept.
pub const SET_SESSION: &str = "\
    UPDATE session SET account = ?3, class = ?4, input = ?5, output = ?6, seconds = ?7, \
    first_seen = ?8, last_seen = ?9, state = ?10, cause = ?11, calling = ?12, framed = ?13 WHERE \
    client = ?1 AND id = ?2";

/// Adds a session.
pub const NEW_SESSION: &str = with_session_columns!(
    "INSERT INTO session (",
    ") VALUES (?1, ?2, ?3, ?4, ?5, ?6, ?7, ?8, ?9, ?10, ?11, ?12, ?13)"
);

/// Closes each live session of a client, with RFC 2866's cause NAS Reboot.
pub const CLOSE_SESSIONS_OF_CLIENT: &str = "\
    UPDATE session SET state = 1, cause = 11 WHERE client = ?1 AND state = 0";

/// Removes a session.
pub const REMOVE_SESSION: &str = "DELETE FROM session WHERE client = ?1 AND id = ?2";

/// Shows a session.
pub const SESSION_OF_KEY: &str = with_session_columns!(
    "SELECT ",
    " FROM session WHERE client = ?1 AND id = ?2"
);

/// Shows the sessions of an account, in the order of their keys.
pub const SESSIONS_OF_ACCOUNT: &str = with_session_columns!(
    "SELECT ",
    " FROM session WHERE account = ?1 ORDER BY client, id"
);

/// Shows the keys of the sessions of an account, in their order.
pub const KEYS_OF_ACCOUNT: &str = "\
    SELECT client, id FROM session WHERE account = ?1 ORDER BY client, id";

/// Shows the session of the least key.
pub const FIRST_SESSION: &str = with_session_columns!(
    "SELECT ",
    " FROM session ORDER BY client, id LIMIT 1"
);

/// Shows a client's session of the least id after one.
pub const LATER_SESSION_OF_CLIENT: &str = with_session_columns!(
    "SELECT ",
    " FROM session WHERE client = ?1 AND id > ?2 ORDER BY id LIMIT 1"
);

/// Shows the session of the least key of the clients after one.
pub const SESSION_OF_LATER_CLIENT: &str = with_session_columns!(
    "SELECT ",
    " FROM session WHERE client > ?1 ORDER BY client, id LIMIT 1"
);

/// Shows the rowids of `session`, the least first.
pub const SESSION_ROWIDS: &str = "SELECT rowid FROM session ORDER BY rowid";

// A statement that shows the class of a session.
macro_rules! with_class_columns {
    ($after:literal) => { concat!("SELECT rowid, client, id, class FROM session", $after) };
}

/// Shows the rowid, the key and the class of the session with the least rowid.
pub const FIRST_CLASS: &str = with_class_columns!(" ORDER BY rowid LIMIT 1");

/// Shows the rowid, the key and the class of the session with the least rowid after one.
pub const CLASS_AFTER: &str = with_class_columns!(" WHERE rowid > ?1 ORDER BY rowid LIMIT 1");

// ---- the plans of the sessions

/// Makes the table of the sessions' plans.
pub const SESSION_PLAN_TABLE: &str = "\
    CREATE TABLE session_plan (client TEXT NOT NULL, id BLOB NOT NULL, plan_class BLOB NOT NULL, \
    PRIMARY KEY (client, id)) STRICT";

/// Sets the plan of a session that has one.
pub const SET_SESSION_PLAN: &str = "\
    UPDATE session_plan SET plan_class = ?3 WHERE client = ?1 AND id = ?2";

/// Adds the plan of a session.
pub const NEW_SESSION_PLAN: &str = "\
    INSERT INTO session_plan (client, id, plan_class) VALUES (?1, ?2, ?3)";

/// Removes the plan of a session.
pub const REMOVE_SESSION_PLAN: &str = "DELETE FROM session_plan WHERE client = ?1 AND id = ?2";

/// Shows the plan of a session.
pub const PLAN_OF_SESSION: &str = "\
    SELECT plan_class FROM session_plan WHERE client = ?1 AND id = ?2";

/// Shows the rowids of `session_plan`, the least first.
pub const SESSION_PLAN_ROWIDS: &str = "SELECT rowid FROM session_plan ORDER BY rowid";
