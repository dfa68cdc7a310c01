//! What a server does between its slices of turns.
ghost use Rattle.std.specs.Prelude.{◌≡◌, ⊤, Bool, false, None, Option, IfSome};
ghost use Rattle.acct_book.specs.Content.{Content};
ghost use Rattle.acct_book.specs.Step.{OnlyLooks};
ghost use Rattle.acct_site.specs.declared.config.Config.{Config};

use acct_book::Book;
use acct_site::Config;
use std::alloc::Global;

/// Called between slices of turns. It may read the book but not change it, may return a new
/// configuration, and may end the run.
pub trait Rounds {
    /// Relates the value before, the configuration in force, the configuration returned, and the
    /// value after.
    ghost goes: { Self → Config → Option Config → Self → Type 0 };

    /// Relates these and the content of the book that it read: what it shows of that to others.
    ghost shows: { Self → Config → Content → Option Config → Self → Type 0 };

    /// Whether no turn may follow.
    ghost is_over: { Self → Bool };

    /// Whether the turns that follow are silent.
    ghost is_silent: { Self → Bool };

    /// Returns the configuration for the turns that follow, if it is another one: with other
    /// clients or keys, and the same plans.
    fn go_round<B: Book>(&mut self, alloc: Global, config: &Config, book: &mut B) -> Option<Config>
        ensures looks { OnlyLooks B.Book book.old book.new }
        ensures plans { IfSome result (λ site. site.plans ≡ config.now.plans) }
        ensures goes { goes self.old config.now result self.new }
        ensures shows { B.is_open book.new
            → shows self.old config.now (B.content book.old) result self.new };

    /// Whether the run ends here, after a round.
    fn is_over(&self) -> bool
        ensures { result ≡ is_over self.now };

    /// Whether nobody is heard in the turns that follow: the first ones, or those after a round.
    fn is_silent(&self) -> bool
        ensures { result ≡ is_silent self.now };
}

/// Does nothing between slices.
#[derive(Clone, Copy, PartialEq, Eq, Debug)]
pub struct NoRounds;

impl Rounds for NoRounds {
    ghost goes = { λ _ _ gave _. gave ≡ None };

    ghost shows = { λ _ _ _ _ _. ⊤ };

    ghost is_over = { λ _. false };

    ghost is_silent = { λ _. false };

    fn go_round<B: Book>(
        &mut self,
        _alloc: Global,
        _config: &Config,
        _book: &mut B,
    ) -> Option<Config> {
        None
    }

    fn is_over(&self) -> bool {
        false
    }

    fn is_silent(&self) -> bool {
        false
    }
}
