//! What the books that fail are, as functions without effect.
ghost use Rattle.std.specs.Prelude.{◌≡◌, ◌↔◌};
ghost use Rattle.acct_book.specs.Content.{Content};

use crate::failing_book::FailingBook;
use crate::shut_book::ShutBook;
use acct_book::Book;

/// A failing book is the book in it, except for the one call that it fails, so it is never steady.
pub fn failing_book_is_its_book<B: Book>(book: &FailingBook<B>)
    ensures content { ⟦<FailingBook<B> as Book>⟧.content book.now ≡ B.content book.now.book }
    ensures sound { ⟦<FailingBook<B> as Book>⟧.is_sound book.now ↔ B.is_sound book.now.book }
    ensures open { ⟦<FailingBook<B> as Book>⟧.is_open book.now ↔ B.is_open book.now.book }
    ensures steady { ⟦<FailingBook<B> as Book>⟧.is_steady book.now → ⊥ }
    ensures left { (c : Content) → ⟦<FailingBook<B> as Book>⟧.left book.now c
        ↔ B.left book.now.book c }
{}

/// A book that shuts is sound at every moment and never steady, and a crash may leave its content.
/// It is open as long as it is not shut, as `ShutBook::is_shut` returns.
pub fn shut_book_stays(book: &ShutBook)
    ensures sound { ⟦<ShutBook as Book>⟧.is_sound book.now }
    ensures steady { ⟦<ShutBook as Book>⟧.is_steady book.now → ⊥ }
    ensures left { ⟦<ShutBook as Book>⟧.left book.now (⟦<ShutBook as Book>⟧.content book.now) }
{}
