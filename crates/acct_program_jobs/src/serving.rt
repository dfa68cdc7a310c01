//! `serve`: a server over the book of a file.
ghost use Rattle.std.specs.Prelude.{◌≡◌, None, true, false, IfSome};
ghost use Rattle.acct_program_serving.specs.Files.{IsNamed, seen_before};
ghost use Rattle.acct_program_serving.specs.Serving.{AreReports};

use crate::book_file::BookFile;
use crate::explained_site::ExplainedSite;
use crate::work::Server;
use acct_net::Binds;
use acct_program_args::Serving;
use acct_program_commands::{BookNames, note_clock};
use acct_program_serving::{Errors, Surroundings, bind_reports};
use acct_reads::ReadsFiles;
use std::io::Write;
use std::time::Clock;

/// A server that will open the book of a file. Its sockets for reports are bound here, and what
/// arrives until it serves waits there. The names of its book are looked at here. While it runs it
/// prints on `errors` what it drops, unless it is quiet, and what happens to its files. It is made
/// before the configuration is read, so that it misses no change of that.
pub(crate) fn server_of<'a, R: ReadsFiles + Clock + Binds + AllocGlobal, E: Write + Drop>(
    runtime: &'a R,
    files: BookFile<'a>,
    serving: &'a Serving,
    errors: Errors<E>,
) -> Server<'a, R, E>
    ensures serving { result.serving ≡ serving.entry }
    ensures file { result.file.now ≡ files.entry.database.now }
    ensures reports { AreReports serving.now.listening result.around.reports }
    ensures source { result.around.source.name.now ≡ files.entry.config.now }
    ensures text { result.around.source.file.name.now ≡ files.entry.config.now }
    ensures names { IfSome (seen_before result.around.names) (IsNamed files.entry.database.now) }
    ensures explains { result.around.source.explains ≡ errors.explains }
    ensures quiet { serving.now.telling.is_quiet ≡ true → result.around.errors.drops ≡ None }
    ensures drops { serving.now.telling.is_quiet ≡ false
        → result.around.errors.drops ≡ errors.drops }
{
    let reports = bind_reports(runtime, runtime.alloc(), &serving.listening);
    let source = ExplainedSite::new(runtime, files.config, errors.explains);
    let mut errors = told_to(errors, serving.telling.is_quiet);
    let file = files.database;
    // Before the book is opened, which may make a log.
    note_clock(runtime, file, &mut errors.notices);
    let names = BookNames::new(runtime, runtime.alloc(), file);
    Server {
        serving,
        file,
        around: Surroundings {
            reports,
            names,
            source,
            errors,
        },
    }
}

// Where a server prints what it drops: nowhere, if it is quiet.
fn told_to<E: Drop>(errors: Errors<E>, is_quiet: bool) -> Errors<E>
    ensures quiet { is_quiet ≡ true → result.drops ≡ None }
    ensures other { is_quiet ≡ false → result ≡ errors }
    ensures notices { result.notices ≡ errors.notices }
{
    if is_quiet {
        let Errors {
            drops: _,
            notices,
            explains,
        } = errors;
        return Errors {
            drops: None,
            notices,
            explains,
        };
    }
    errors
}
