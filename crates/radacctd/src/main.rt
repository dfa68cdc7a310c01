//! radacctd: a RADIUS accounting server (RFC 2866) with prepaid data allowances.
//!
//! `radacctd serve` answers access servers and callers of the desk over a book in a file. `init`
//! makes the book, `migrate` makes it from an older one, and `plans` adds plans to it. `import`
//! credits vouchers, `export` writes the book as CSV, and `forward` carries old sessions forward.
//! `check` reads a configuration. `feed` answers a script.
#![tactic(auto)]

ghost use Rattle.std.specs.Prelude.{IfOk};
ghost use Rattle.acct_program_args.specs.Orders.{HasBounds};

mod explaining;

use crate::explaining::{explain_run, warn_first};
use acct_program::Status;
use acct_program_args::{BookJob, Job, Order, Syncs, job_of, tell};
use acct_program_explain::explain_words;
use acct_program_jobs::{BookFile, Streams, carry_out, serve_files, told};
use acct_program_serving::Errors;
use sqlite::{Unknown, Wary};
use std::io::BufWriter;
use std::process::ExitCode;
use std::{env, io};

fn main(rt: HostRuntime) -> ExitCode {
    let order = match order_of(&rt) {
        Ok(order) => order,
        Err(status) => return ExitCode::from(status),
    };
    let output = BufWriter::new(rt.alloc(), rt.stdout());
    let drops = BufWriter::new(rt.alloc(), rt.stderr());
    let notices = BufWriter::new(rt.alloc(), rt.stderr());
    let (Ok(output), Ok(drops), Ok(notices)) = (output, drops, notices) else {
        let _ = println!(rt; "unavailable");
        return ExitCode::from(Status::Unavailable);
    };
    let errors = Errors {
        drops: Some(drops),
        notices,
        explains: order.explains,
    };
    warn_first(&rt, &order, &mut rt.stderr());
    // What is assumed of the files as the program begins, in one value that an open uses up: so
    // none is opened twice. A server that syncs once assumes that each octet of a write that was
    // cut short is the old one or the new one. All other jobs assume nothing of it.
    let status = match &order.job {
        Job::Book(paths, BookJob::Serve(serving)) if serving.syncs == Syncs::Once => {
            let files = BookFile::of(paths, order.loses_commits);
            let served = serve_files(&rt, files, serving, output, errors, Unknown);
            let (status, outcome) = told(&mut rt.stderr(), served);
            explain_run(&rt, &order, outcome, &mut rt.stderr());
            status
        }
        _ => {
            let streams = Streams::new(rt.stdin(), output, errors);
            let (status, outcome) = carry_out(&rt, &order, streams, &mut rt.stderr(), Wary);
            explain_run(&rt, &order, outcome, &mut rt.stderr());
            status
        }
    };
    ExitCode::from(status)
}

// What the command line asks for, or the status with which the program ends. Prints why, and help
// if that was asked for.
fn order_of(rt: &HostRuntime) -> Result<Order, Status>
    ensures { IfOk result (λ order. HasBounds order.job) }
{
    let words = match words_of(rt) {
        Ok(words) => words,
        Err(error) => {
            let _ = eprintln!(rt; "error: {error}");
            return Err(Status::BadCommandLine);
        }
    };
    match job_of(rt.alloc(), words) {
        Ok(order) => Ok(order),
        Err(error) => {
            let status = tell(rt, &error);
            if status == Status::BadCommandLine {
                explain_wrong_words(rt);
            }
            Err(status)
        }
    }
}

// Explains a bad command line, if it asks for that.
fn explain_wrong_words(rt: &HostRuntime) {
    if let Ok(words) = words_of(rt) {
        explain_words(&words, &mut rt.stderr());
    }
}

// The arguments of the command line, the program's name first.
fn words_of(rt: &HostRuntime) -> io::Result<Vec<String>> {
    let mut words = Vec::new(rt.alloc());
    for word in env::args(rt)? {
        words.push(word)?;
    }
    Ok(words)
}
