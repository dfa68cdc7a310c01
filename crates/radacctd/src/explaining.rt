//! What `--explain` adds to a fault. It only looks at files.
use acct_model::Text;
use acct_program_args::{BookJob, Job, Order};
use acct_program_commands::{Fault, StoreFault, read_config};
use acct_program_explain::{
    Explained, Wanted, explain, explain_plans, explain_sockets, explain_tables, warn_of_sample,
};
use acct_program_jobs::{Left, Outcome};
use acct_reads::ReadsFiles;
use sqlite_disk::Disk;
use std::io::Write;
use std::net::Net;

// What a file that would be overwritten may be.
const OVERWRITTEN: &str =
    "explained: a file of --status or --balances, or the same name with .new, \
    is the book, its log, the configuration or the other file, or radacctd did not write it";

/// Before a server starts, prints which secrets and tokens of its configuration are the sample's.
pub(crate) fn warn_first<R: ReadsFiles + AllocGlobal, E: Write>(
    runtime: &R,
    order: &Order,
    errors: &mut E,
) {
    if let Job::Book(paths, BookJob::Serve(_)) = &order.job {
        warn_of_sample(runtime, runtime.alloc(), &paths.config, errors);
    }
}

/// Prints why the job of an order ended so, if the order asks for that: more about its fault, which
/// plan differs, or what its database has. For `check` it also describes the book, and names the
/// values of its configuration that are the sample's. It closes the
/// files of the book before it explains why they cannot be opened. Else it would find the program's
/// own lock.
pub(crate) fn explain_run<
    R: ReadsFiles + Net + AllocGlobal,
    W: Write + Drop,
    D: Disk + Drop,
    E: Write,
>(runtime: &R, order: &Order, outcome: Outcome<W, D>, errors: &mut E) {
    if !order.explains {
        return;
    }
    let ended = outcome.ended;
    let is_unopened = matches!(&outcome.left, Left::Nothing);
    if let Err(fault) = ended {
        explain_fault(runtime, &order.job, fault, errors);
    }
    explain_outcome(runtime, &order.job, outcome, errors);
    if let (Ok(_), Job::Check { config, .. }) = (ended, &order.job) {
        warn_of_sample(runtime, runtime.alloc(), config, errors);
    }
    if let (Ok(_), Job::Check { .. }, Some(file)) = (ended, &order.job, book_file(&order.job)) {
        let what = Explained::Opened { file };
        explain(runtime, runtime.alloc(), what, errors);
    }
    let is_none = ended == Err(Fault::Store(StoreFault::NotABook)) && is_unopened;
    if ended == Err(Fault::CannotOpen) || is_none {
        if let Some(what) = unopened(order) {
            explain(runtime, runtime.alloc(), what, errors);
        }
    }
}

// Prints what is known about the fault that ended a job, if that is more than its text says.
fn explain_fault<R: ReadsFiles + Net + AllocGlobal, E: Write>(
    runtime: &R,
    job: &Job,
    fault: Fault,
    errors: &mut E,
) {
    match (fault, job) {
        (Fault::CannotBind, Job::Book(_, BookJob::Serve(serving))) => {
            let wanted = Wanted {
                addresses: serving.listening.addresses.as_slice(),
                desk: &serving.listening.desk_address,
                radius_port: serving.listening.radius_port,
                desk_port: serving.listening.desk_port,
            };
            explain_sockets(runtime, wanted, errors);
        }
        (Fault::WouldOverwrite, _) => {
            let _ = writeln!(errors, "{OVERWRITTEN}");
        }
        // `explain_run` does, once its files are closed.
        (Fault::CannotOpen, _) => {}
        _ => {
            if let Some(what) = explained(job, fault) {
                explain(runtime, runtime.alloc(), what, errors);
            }
        }
    }
}

// Prints why the book of an outcome was rejected. The book is still open.
fn explain_outcome<R: ReadsFiles + AllocGlobal, W: Write + Drop, D: Disk + Drop, E: Write>(
    runtime: &R,
    job: &Job,
    outcome: Outcome<W, D>,
    errors: &mut E,
) {
    let Outcome {
        ended,
        output: _output,
        left: mut rest,
    } = outcome;
    let Err(Fault::Store(fault)) = ended else {
        return;
    };
    let (Some(config), Some(file)) = (config_file(job), book_file(job)) else {
        return;
    };
    let Left::Open(book) = &mut rest else {
        return;
    };
    match fault {
        StoreFault::NotABook => explain_tables(book, file.as_str(), errors),
        StoreFault::PlansDiffer => {
            let alloc = runtime.alloc();
            if let Ok(config) = read_config(runtime, alloc, config) {
                explain_plans(alloc, book, file.as_str(), config.plans.list(), errors);
            }
        }
        StoreFault::WrongSchema | StoreFault::Unavailable => {}
    }
}

// What there is to explain about a fault.
fn explained<'a>(job: &'a Job, fault: Fault) -> Option<Explained<'a>> {
    match fault {
        Fault::Config(error) => {
            let file = config_file(job)?;
            Some(Explained::Config { file, error })
        }
        Fault::CannotRead => {
            let file = config_file(job)?;
            Some(Explained::Unread { file })
        }
        _ => None,
    }
}

// The book that could not be opened, or made.
fn unopened<'a>(order: &'a Order) -> Option<Explained<'a>> {
    let file = book_file(&order.job)?;
    match order.job {
        Job::Book(_, BookJob::Init { .. }) => Some(Explained::Unmade { file }),
        _ => Some(Explained::Unopened {
            file,
            loses_commits: order.loses_commits,
        }),
    }
}

// The file of a job's book, if it has one.
fn book_file(job: &Job) -> Option<&Text> {
    match job {
        Job::Feed { .. } | Job::Key { .. } => None,
        Job::Check { database, .. } => database.as_ref(),
        Job::Book(paths, _) => Some(&paths.database),
    }
}

// The file of a job's configuration, if it has one.
fn config_file(job: &Job) -> Option<&Text> {
    match job {
        Job::Feed { config } => config.as_ref(),
        Job::Check { config, .. } | Job::Key { config, .. } => Some(config),
        Job::Book(paths, _) => Some(&paths.config),
    }
}
