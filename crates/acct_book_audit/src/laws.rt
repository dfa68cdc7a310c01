//! Laws of audits, as functions without effect.
ghost use Rattle.acct_book_audit.specs.Laws.{SoundBooksBalance};

/// If a content stands for a history, every account is balanced. An audit of a sound book therefore
/// finds nothing.
pub fn sound_books_balance()
    ensures { SoundBooksBalance }
{}
