//! A session's row, as it is shown.
ghost use Rattle.std.specs.Prelude.{◌≡◌, Some, IfOk};
ghost use Rattle.std.specs.Fmt.{DisplaysOnOk};
ghost use Rattle.acct_program_feed.specs.Answers.{row_text, names_text, octets_text, end_text};
ghost use Rattle.acct_program_feed.specs.Answers.{shown_row};

use crate::octet_words::word_of;
use acct_book::{Row, SessionState, charge};
use acct_model::{NoMemory, Plans, Text};
use std::alloc::Global;
use std::fmt;

/// A session's row, as it is shown: texts as they are printed, octets and price in numbers.
pub struct ShownRow {
    /// The client's name.
    pub client: Text,
    /// Acct-Session-Id.
    pub session: Text,
    /// The account that is charged.
    pub account: Text,
    /// The Class that names the plan.
    pub class: Text,
    /// Octets received from the user's port.
    pub input: u64,
    /// Octets sent to the user's port.
    pub output: u64,
    /// What the session was charged.
    pub charged: u128,
    /// Whether it goes on.
    pub state: SessionState,
    /// Acct-Terminate-Cause.
    pub cause: u32,
}

impl Drop for ShownRow {
    fn drop(self) {
        let ShownRow {
            client: _,
            session: _,
            account: _,
            class: _,
            input: _,
            output: _,
            charged: _,
            state: _,
            cause: _,
        } = self;
    }
}

impl ShownRow {
    /// The row, with its price under these plans.
    ///
    /// # Errors
    ///
    /// Only if an allocation fails.
    pub fn new(alloc: Global, plans: &Plans, row: &Row) -> Result<ShownRow, NoMemory>
        ensures { IfOk result (λ shown. shown ≡ shown_row plans.now row.now) }
    {
        let charged = charge(plans, row);
        let Ok(client) = row.client.copy(alloc) else {
            return Err(NoMemory);
        };
        Ok(ShownRow {
            session: word_of(alloc, row.session.as_slice())?,
            account: word_of(alloc, row.account.as_slice())?,
            class: word_of(alloc, row.class.as_slice())?,
            client,
            input: row.input,
            output: row.output,
            charged,
            state: row.state,
            cause: row.cause,
        })
    }
}

impl fmt::Display for ShownRow {
    ghost output = { λ row. Some (row_text row) };

    fn fmt<W: fmt::Write>(&self, f: &mut fmt::Formatter<W>) -> fmt::Result {
        write_names(self, f)?;
        write_octets(self, f)?;
        write_end(self, f)
    }
}

fn write_names<W: fmt::Write>(row: &ShownRow, f: &mut fmt::Formatter<W>) -> fmt::Result
    ensures { DisplaysOnOk W.write_str_gives f.old result (Some (names_text row.now)) f.new }
{
    let (client, session) = (row.client.as_str(), row.session.as_str());
    let (account, class) = (row.account.as_str(), row.class.as_str());
    write!(f, "session {client} {session} {account} {class} ")
}

fn write_octets<W: fmt::Write>(row: &ShownRow, f: &mut fmt::Formatter<W>) -> fmt::Result
    ensures { DisplaysOnOk W.write_str_gives f.old result (Some (octets_text row.now)) f.new }
{
    let (input, output, charged) = (row.input, row.output, row.charged);
    write!(f, "{input} {output} {charged} ")
}

fn write_end<W: fmt::Write>(row: &ShownRow, f: &mut fmt::Formatter<W>) -> fmt::Result
    ensures { DisplaysOnOk W.write_str_gives f.old result (Some (end_text row.now)) f.new }
{
    let (state, cause) = (row.state, row.cause);
    write!(f, "{state} {cause}")
}
