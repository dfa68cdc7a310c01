//! The files of a job that keeps a book.
ghost use Rattle.std.specs.Prelude.{◌≡◌};

use acct_model::Text;
use acct_program_args::Paths;

/// The files of a job that keeps a book.
#[derive(Clone, Copy)]
pub struct BookFile<'a> {
    /// The file of the configuration.
    pub config: &'a Text,
    /// The file of the book.
    pub database: &'a Text,
    /// Whether a book whose log is damaged is opened, without the commits from the damage on.
    pub loses_commits: bool,
}

impl<'a> BookFile<'a> {
    /// The files that a command line names.
    pub fn of(paths: &'a Paths, loses_commits: bool) -> BookFile<'a>
        ensures config { result.config.now ≡ paths.now.config }
        ensures database { result.database.now ≡ paths.now.database }
        ensures loses { result.loses_commits ≡ loses_commits }
    {
        BookFile {
            config: &paths.config,
            database: &paths.database,
            loses_commits,
        }
    }
}
