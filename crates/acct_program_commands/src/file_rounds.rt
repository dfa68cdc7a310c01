//! What the program's server does between slices of turns. It writes the file of balances, if that
//! is due, looks where the names of its book lead, and takes another configuration, if its text
//! changed. While one of these names leads elsewhere, its turns are silent.
ghost use Rattle.std.specs.Prelude.{◌≡◌, ⊤, IfSome, false};
ghost use Rattle.acct_book.specs.Step.{OnlyLooks};
ghost use Rattle.acct_program_commands.specs.NewSite.{PollsAndTakes};
ghost use Rattle.acct_program_commands.specs.Placed.{IsPut, PutsBalances};
ghost use Rattle.acct_program_commands.specs.Rounds.{GoesRound, KeepsAt, LooksAt};
ghost use Rattle.acct_program_commands.specs.Rounds.{are_away, file_of, names_of};
ghost use Rattle.acct_program_commands.specs.RoundStates.{state_of};

use crate::balances_file::KeptBalances;
use crate::book_names::BookNames;
use crate::file_changes::ReplacesFiles;
use crate::gauges::Gauges;
use crate::new_site::{Taken, take_site};
use crate::site_source::SiteSource;
use acct_book::Book;
use acct_model::Plans;
use acct_reads::ReadsFiles;
use acct_service::Rounds;
use acct_site::Config;
use std::alloc::Global;
use std::io::Write;

/// Polls the text of a server's configuration, and writes the file of all balances, if it has one.
/// Prints to a writer, and notes in gauges what it finds. Reads the clock of its source once in each
/// call. If the text is no configuration, the source may explain why.
pub struct FileRounds<'r, R, S: Drop, E: Drop> {
    source: S,
    balances: Option<KeptBalances<'r, R>>,
    names: Option<BookNames<'r, R>>,
    gauges: &'r Gauges,
    errors: E,
}

impl<'r, R, S: Drop, E: Drop> Drop for FileRounds<'r, R, S, E> {
    fn drop(self) {
        let FileRounds {
            source: _,
            balances: _,
            names: _,
            gauges: _,
            errors: _,
        } = self;
    }
}

impl<'r, R: ReplacesFiles, S: SiteSource + Drop, E: Write + Drop> FileRounds<'r, R, S, E> {
    /// Nothing was polled yet.
    pub fn new(
        source: S,
        balances: Option<KeptBalances<'r, R>>,
        names: Option<BookNames<'r, R>>,
        gauges: &'r Gauges,
        errors: E,
    ) -> FileRounds<'r, R, S, E>
        ensures source { result.source ≡ source }
        ensures whole { result ≡ record {
          source = source;
          balances = balances.entry;
          names = names.entry;
          gauges = gauges.entry;
          errors = errors;
        } }
    {
        FileRounds {
            source,
            balances,
            names,
            gauges,
            errors,
        }
    }
}

impl<'r, R: ReplacesFiles, S: SiteSource + Drop, E: Write + Drop> Rounds
    for FileRounds<'r, R, S, E> {
    ghost goes = { λ old config gave new. GoesRound (λ name. IsPut (R.was_put name)) config.plans
        (state_of S.file S.polls S.moments old) gave (state_of S.file S.polls S.moments new) };

    ghost shows = { λ old config content gave new.
        GoesRound (λ name. PutsBalances (R.was_put name) content ⊤) config.plans
        (state_of S.file S.polls S.moments old) gave (state_of S.file S.polls S.moments new) };

    ghost is_over = { λ _. false };

    ghost is_silent = { λ rounds. are_away (names_of rounds.names) };

    fn go_round<B: Book>(
        &mut self,
        alloc: Global,
        config: &Config,
        book: &mut B,
    ) -> Option<Config> {
        let moment = self.source.moment();
        let (gauges, errors) = (self.gauges, &mut self.errors);
        keep_at(alloc, &mut self.balances, book, moment, gauges, errors);
        look_at(&mut self.names, moment, self.gauges, &mut self.errors);
        let source = &mut self.source;
        take_polled(
            alloc,
            source,
            &config.plans,
            moment,
            self.gauges,
            &mut self.errors,
        )
    }

    fn is_over(&self) -> bool {
        false
    }

    // While a name of the book leads elsewhere, nobody is answered.
    fn is_silent(&self) -> bool {
        match &self.names {
            Some(names) => names.is_away(),
            None => false,
        }
    }
}

/// Writes the file of balances, if there is one, and if it is due at a moment.
pub fn keep_at<R: ReplacesFiles, B: Book, E: Write>(
    alloc: Global,
    balances: &mut Option<KeptBalances<'_, R>>,
    book: &mut B,
    moment: u64,
    gauges: &Gauges,
    errors: &mut E,
)
    ensures looks { OnlyLooks B.Book book.old book.new }
    ensures keeps { KeepsAt (λ name. PutsBalances (R.was_put name) (B.content book.old)
        (B.is_open book.new)) moment (file_of balances.old) (file_of balances.new) }
{
    if let Some(balances) = balances {
        balances.keep(alloc, book, moment, gauges, errors);
    }
}

// Polls the text at a moment, and takes a configuration with these plans from it.
fn take_polled<S: SiteSource, E: Write>(
    alloc: Global,
    source: &mut S,
    plans: &Plans,
    moment: u64,
    gauges: &Gauges,
    errors: &mut E,
) -> Option<Config>
    ensures takes { PollsAndTakes moment plans.now (S.file source.old) (S.polls source.old) result
        (S.polls source.new) }
    ensures same { S.file source.new ≡ S.file source.old }
    ensures unread { S.moments source.new ≡ S.moments source.old }
    ensures plans { IfSome result (λ site. site.plans ≡ plans.now) }
{
    let read = source.look(alloc, moment)?;
    let Taken {
        site,
        is_current,
        refused,
        printed: _,
    } = take_site(alloc, read, plans, errors);
    gauges.note_config(is_current);
    if let Some(why) = refused {
        source.explain(alloc, why, errors);
    }
    site
}

// Looks where the names of a book lead, if they are known.
fn look_at<R: ReadsFiles, E: Write>(
    names: &mut Option<BookNames<'_, R>>,
    moment: u64,
    gauges: &Gauges,
    errors: &mut E,
)
    ensures { LooksAt moment (names_of names.old) (names_of names.new) }
{
    if let Some(names) = names {
        names.look(moment, gauges, errors);
    }
}
