//! Laws of imports and exports, as functions without effect.
ghost use Rattle.acct_files.specs.Laws.{RepeatsLater, CutExportIsTaken};

/// A line that one import added or repeated is a repeat in each later one that reaches it, whatever
/// was accepted between the two. A file that is uploaded twice credits nothing twice.
pub fn later_imports_repeat()
    ensures { RepeatsLater }
{}

/// The first three columns of an export of top-ups are a text that an import accepts. Each line
/// asks for its top-up again. Into an empty book each is added, unless the balance of its account
/// would leave its range.
pub fn cut_exports_are_taken()
    ensures { CutExportIsTaken }
{}
