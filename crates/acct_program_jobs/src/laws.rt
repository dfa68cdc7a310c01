//! Laws above the definitions: functions without effect, whose contracts are the laws.
ghost use Rattle.sqlite_wal.specs.Files.{image_at};
ghost use Rattle.acct_program_serving.specs.Serving.{IsBoundTo};
ghost use Rattle.acct_program_jobs.specs.Promise.{FilesAreRight};

use acct_book::Book;
use acct_net::Sockets;
use acct_service::{Exchange, laws};
use acct_sql::SqlBook;
use sqlite::{FileFrom, FileStore, Start};

/// The promise over one run of `serve_files`, whatever the files of its book held. From each
/// history for which that book stood, each answer is the one that is due, by the plans of the
/// configuration that was read under its name. The balance of each account is the sum of its
/// vouchers, less the prices of its sessions' greatest totals: in the book that the run left, in
/// what a stop leaves of it, and in the files that it closed. The next start finds them so, in a
/// book that stands for what was accepted.
pub fn every_balance_is_right<S: Start>()
    ensures { FilesAreRight (image_at S.Start) ⟦<SqlBook<FileStore<FileFrom<S>>> as Book>⟧
        ⟦<Sockets<'static, HostRuntime> as Exchange>⟧ IsBoundTo }
{
    laws::every_balance_is_right::<SqlBook<FileStore<FileFrom<S>>>>();
}
