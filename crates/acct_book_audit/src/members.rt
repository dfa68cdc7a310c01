//! The walk through the members of a book that an audit reads.
ghost use Rattle.std.specs.Prelude.{◌≡◌, List, Option, None, IfOk, OnOk, flat_map, length, ◌≤◌};
ghost use Rattle.std.specs.Io.KnownBytes.{Appends};
ghost use Rattle.acct_model.specs.declared.plan.Plan.{Plan};
ghost use Rattle.acct_book.specs.Content.{Content};
ghost use Rattle.acct_book.specs.Meets.{Meets};
ghost use Rattle.acct_book.specs.Step.{Looks};
ghost use Rattle.acct_book_audit.specs.Finding.{Finding};
ghost use Rattle.acct_book_audit.specs.Audit.{Counts};

use crate::auditor::{Auditor, Kind, Seen};
use acct_book::{Book, Unavailable, WALK_LIMIT};
use acct_model::Plans;
use std::alloc::Global;

/// How an audit reads and checks the members of one kind.
pub(crate) trait Members {
    /// The key that finds a member.
    type Key: Drop;

    /// A member, with what the book holds about it.
    type Member: Drop;

    /// This member is the next after a key, or there is none.
    ghost is_next: { List Plan → Content → Option Self.Key → Option Self.Member → Type 0 };

    /// The key of a member.
    ghost key_of: { Self.Member → Self.Key };

    /// What is wrong with a member: one finding at most.
    ghost found_of: { Self.Member → List Finding };

    /// Which kind it is.
    fn kind() -> Kind;

    /// The member after the one of this key, or the first.
    fn next<B: Book>(
        alloc: Global,
        book: &mut B,
        plans: &Plans,
        after: &Option<Self::Key>,
    ) -> Result<Option<Self::Member>, Unavailable>
        ensures found { B.is_open book.new
            → IfOk result (λ member. is_next plans.now (B.content book.old) after.now member) }
        ensures reads { Looks B.Book book.old book.new result };

    /// Reports what is wrong with a member, and returns the number of findings.
    fn tell<A: Auditor>(auditor: &mut A, member: &Self::Member) -> Result<u64, A::Error>
        ensures told { OnOk result (Appends (A.told auditor.old) (A.told auditor.new)
            (flat_map A.words (found_of member.now))) }
        ensures count { IfOk result (λ count. count ≡ length (found_of member.now)) }
        ensures most { IfOk result (λ count. count ≤ 1) };

    /// The key of a member.
    fn into_key(member: Self::Member) -> Self::Key
        ensures { result ≡ key_of member };
}

/// Reads each member of a kind, in the order of their keys, and reports what is wrong with them. It
/// holds one member at a time.
///
/// # Errors
///
/// `Unavailable` also past 2^63 - 1 members.
pub(crate) fn audit_members<M: Members, B: Book, A: Auditor>(
    alloc: Global,
    book: &mut B,
    plans: &Plans,
    auditor: &mut A,
) -> Result<Seen, A::Error>
    ensures reads { Looks B.Book book.old book.new result }
    ensures seen { IfOk result (λ seen. (members : List M.Member)
        × (B.is_open book.new
        → Meets (M.is_next plans.now (B.content book.old)) M.key_of None members)
        × Counts seen (length members) (length (flat_map M.found_of members))
        × Appends (A.told auditor.old) (A.told auditor.new)
        (flat_map A.words (flat_map M.found_of members))) }
{
    let mut seen = Seen { all: 0, wrong: 0 };
    let mut after: Option<M::Key> = None;
    for turn in 0..WALK_LIMIT {
        let Some(member) = M::next(alloc, book, plans, &after)? else {
            return Ok(seen);
        };
        seen.wrong += M::tell(auditor, &member)?;
        seen.all = turn + 1;
        auditor.go_on(M::kind(), seen.all);
        after = Some(M::into_key(member));
    }
    Err(A::Error::from(Unavailable))
}
