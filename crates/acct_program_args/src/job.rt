//! What the command line asks for.
ghost use Rattle.std.specs.Prelude.{◌≡◌, ◌≤◌, IfSome};
ghost use Rattle.acct_program_args.specs.Orders.{seconds_of};

use acct_model::{Octets, Text};

/// The seconds of a day.
const DAY: u64 = 86_400;

/// So many days, up to 36,500, in seconds.
pub fn seconds_in(days: Option<u64>) -> Option<u64>
    requires { IfSome days (λ days. days ≤ 36500) }
    ensures { result ≡ seconds_of days }
{
    match days {
        Some(days) => Some(days * DAY),
        None => None,
    }
}

/// What the command line asks for.
pub struct Order {
    /// The job.
    pub job: Job,
    /// Whether more is printed about a fault that ends it.
    pub explains: bool,
    /// Whether a book whose log is damaged is opened, without the commits from the damage on.
    pub loses_commits: bool,
}

impl Drop for Order {
    fn drop(self) {
        let Order {
            job: _,
            explains: _,
            loses_commits: _,
        } = self;
    }
}

/// A job of the program: its command, and what its options say.
pub enum Job {
    /// Answers the lines of standard input.
    Feed {
        /// The file of the configuration; none for the sample site.
        config: Option<Text>,
    },
    /// Reads a configuration, and prints how much it has.
    Check {
        /// The file of the configuration.
        config: Text,
        /// The file of the book that is to have its plans, if one is named.
        database: Option<Text>,
        /// The files that a server is to write.
        kept: KeptNames,
        /// Whether each balance of the book is checked against its vouchers and sessions.
        audits: bool,
    },
    /// Prints a signed key, which shows the pages of an account.
    Key {
        /// The file of the configuration, whose secret signs it.
        config: Text,
        /// The account, 1 to 253 octets.
        account: Octets,
        /// The last second of the key, since 1970.
        until: u64,
    },
    /// Keeps the book of these files: what is done with it.
    Book(Paths, BookJob),
}

impl Drop for Job {
    fn drop(self) {
        match self {
            Job::Feed { config: _ } => {}
            Job::Check {
                config: _,
                database: _,
                kept: _,
                audits: _,
            } => {}
            Job::Key {
                config: _,
                account: _,
                until: _,
            } => {}
            Job::Book(_, _) => {}
        }
    }
}

/// What is done with a book.
pub enum BookJob {
    /// Makes it.
    Init {
        /// Whether each page of it is to end in a sum.
        has_sums: bool,
    },
    /// Answers access servers and callers of the desk, this way.
    Serve(Serving),
    /// Credits the vouchers of standard input.
    Import,
    /// Writes this of it as CSV.
    Export(Export),
    /// Converts it from an earlier version into this one.
    Migrate,
    /// Adds the plans that it does not keep yet.
    AddPlans,
    /// Writes the plans that it keeps as CSV.
    ListPlans,
    /// Carries these old sessions forward.
    Forward(Carrying),
}

impl Drop for BookJob {
    fn drop(self) {
        match self {
            BookJob::Init { has_sums: _ } => {}
            BookJob::Serve(_) => {}
            BookJob::Import => {}
            BookJob::Export(_) => {}
            BookJob::Migrate => {}
            BookJob::AddPlans => {}
            BookJob::ListPlans => {}
            BookJob::Forward(_) => {}
        }
    }
}

/// The files of a command that keeps a book.
pub struct Paths {
    /// The file of the configuration.
    pub config: Text,
    /// The file of the book.
    pub database: Text,
}

impl Drop for Paths {
    fn drop(self) {
        let Paths {
            config: _,
            database: _,
        } = self;
    }
}

/// The names of the files that a server writes from time to time.
pub struct KeptNames {
    /// The file of its counts, if one is named.
    pub status: Option<Text>,
    /// The file of all balances, if one is named.
    pub balances: Option<Text>,
}

impl Drop for KeptNames {
    fn drop(self) {
        let KeptNames {
            status: _,
            balances: _,
        } = self;
    }
}

/// What of a book is written.
#[derive(Clone, Copy, PartialEq, Eq, Debug)]
pub enum Export {
    /// A line for each session.
    Sessions,
    /// A line for each account.
    Balances,
    /// A line for each voucher.
    TopUps,
    /// A line for each overdrawn account.
    Overruns,
}

/// Which sessions are carried forward, and how.
pub struct Carrying {
    /// From which moment on a session that has ended stays.
    pub cutoff: Cutoff,
    /// For how many days an open session must have been silent to be carried, 30 to 36,500. Without
    /// a number, none is.
    pub silent: Option<u64>,
    /// The names of the clients whose sessions stay.
    pub kept: Vec<Text>,
    /// Whether it only prints what it would do.
    pub is_dry: bool,
    /// Whether it goes on if the book is much older than the clock says.
    pub is_sure: bool,
    /// How many days old a report may be when the server of the book receives it, 1 to 36,500, if
    /// that is limited.
    pub oldest_report: Option<u64>,
}

impl Drop for Carrying {
    fn drop(self) {
        let Carrying {
            cutoff: _,
            silent: _,
            kept: _,
            is_dry: _,
            is_sure: _,
            oldest_report: _,
        } = self;
    }
}

/// From which moment on a session that has ended stays.
#[derive(Clone, Copy, PartialEq, Eq, Debug)]
pub enum Cutoff {
    /// So many days before now, 30 to 36,500.
    Before(u64),
    /// This moment, in seconds since 1970.
    At(u64),
}

/// How a server runs.
pub struct Serving {
    /// Where it listens.
    pub listening: Listening,
    /// How many turns it makes, at least one.
    pub turns: u64,
    /// How often the book is synced before a report is answered.
    pub syncs: Syncs,
    /// How many days old a report may be when it is received, 1 to 36,500, if that is limited.
    pub oldest_report: Option<u64>,
    /// What it writes apart from its replies.
    pub telling: Telling,
}

impl Drop for Serving {
    fn drop(self) {
        let Serving {
            listening: _,
            turns: _,
            syncs: _,
            oldest_report: _,
            telling: _,
        } = self;
    }
}

/// Where a server listens.
pub struct Listening {
    /// The IPv4 addresses at which reports are received, as they were written: 1 to 16 of them.
    pub addresses: Vec<Text>,
    /// The IPv4 address of the desk, as it was written.
    pub desk_address: Text,
    /// The port for accounting reports, by UDP.
    pub radius_port: u16,
    /// The port of the desk, by TCP.
    pub desk_port: u16,
}

impl Drop for Listening {
    fn drop(self) {
        let Listening {
            addresses: _,
            desk_address: _,
            radius_port: _,
            desk_port: _,
        } = self;
    }
}

/// How often each write of the book is synced to the disk.
#[derive(Clone, Copy, PartialEq, Eq, Debug)]
pub enum Syncs {
    /// Once: for a disk that leaves each octet old or new if its power fails in a write.
    Once,
    /// Twice: for any disk that keeps what it has synced.
    Twice,
}

/// What a server writes apart from its replies.
pub struct Telling {
    /// Whether it prints nothing to standard error while it runs.
    pub is_quiet: bool,
    /// The file that it writes its counts into, if one is named.
    pub status: Option<Text>,
    /// The file that it writes all balances into, if one is named.
    pub balances: Option<BalancesFile>,
}

impl Drop for Telling {
    fn drop(self) {
        let Telling {
            is_quiet: _,
            status: _,
            balances: _,
        } = self;
    }
}

/// A file that all balances are written into.
pub struct BalancesFile {
    /// The file.
    pub file: Text,
    /// The fewest seconds from one writing of it to the next, 1 to 86,400.
    pub seconds: u64,
}

impl Drop for BalancesFile {
    fn drop(self) {
        let BalancesFile {
            file: _,
            seconds: _,
        } = self;
    }
}
