//! A desk to test with, over a book of which a call can be refused.
use acct_book::{MemBook, record};
use acct_book_fakes::FailingBook;
use acct_desk::{DeskKey, Keys, Role, Signing, handle};
use acct_model::{
    Entry, NoMemory, Octets, Plans, Report, ReportKind, StampSecret, StampSecrets, Text, TopUp,
};
use acct_site::{sample_keys, sample_plans};
use std::alloc::{AllocError, Global};
use std::test::Fail;

// A desk, whose requests arrive at the moment 1000.
#[derive(Drop)]
pub(crate) struct Desk {
    pub(crate) book: FailingBook<MemBook>,
    keys: Keys,
    plans: Plans,
}

impl Desk {
    // The desk with the sample's keys, one that sees accounts and one for logins. `al` has a session
    // of 20 and the voucher V-1 of 500, and `bo` a session of 20.
    pub(crate) fn new(alloc: Global) -> Result<Desk, Fail> {
        let plans = sample_plans(alloc)?;
        let book = book(alloc, &plans)?;
        let keys = keys(alloc)?;
        let book = FailingBook::new(book, 0);
        Ok(Desk { book, keys, plans })
    }

    // The response to a request, if there is memory for it.
    pub(crate) fn answer(&mut self, alloc: Global, request: &[u8]) -> Result<Vec<u8>, NoMemory> {
        handle(
            alloc,
            &self.keys,
            &self.plans,
            &mut self.book,
            request,
            1000,
        )
    }
}

fn key(alloc: Global, token: &str, role: Role) -> Result<DeskKey, AllocError> {
    let token = Text::from_str(alloc, token)?;
    Ok(DeskKey { token, role })
}

fn keys(alloc: Global) -> Result<Keys, Fail> {
    let mut keys = sample_keys(alloc)?;
    keys.push(alloc, key(alloc, "desk-key-0000001", Role::Clerk)?)?;
    keys.push(alloc, key(alloc, "front-key-000001", Role::Logins)?)?;
    Ok(keys.with_signing(Some(signing(alloc)?)))
}

fn signing(alloc: Global) -> Result<Signing, Fail> {
    let octets = Octets::from_slice(alloc, b"a-secret-of-twenty-four.")?;
    let secret = StampSecret::new(octets).ok_or("no secret")?;
    Ok(Signing {
        secrets: StampSecrets { secret, old: None },
        withdrawn: Vec::new(alloc),
    })
}

fn book(alloc: Global, plans: &Plans) -> Result<MemBook, Fail> {
    let mut book = MemBook::new(alloc);
    record(alloc, &mut book, plans, &report(alloc, b"al", b"s2")?)?;
    record(alloc, &mut book, plans, &report(alloc, b"bo", b"s3")?)?;
    let topup = TopUp::new(alloc, "V-1", b"al", 500, 1001)?;
    record(alloc, &mut book, plans, &Entry::TopUp(topup))?;
    Ok(book)
}

// An interim update of 1,048,577 octets of a session, of a user and the plan gold.
fn report(alloc: Global, user: &[u8], session: &[u8]) -> Result<Entry, AllocError> {
    Ok(Entry::Report(Report {
        client: Text::from_str(alloc, "ap1")?,
        session: Octets::from_slice(alloc, session)?,
        user: Octets::from_slice(alloc, user)?,
        class: Octets::from_slice(alloc, b"gold")?,
        kind: ReportKind::Interim,
        input: 1_048_577,
        output: 0,
        seconds: 0,
        when: 2000,
        cause: 0,
        calling: Octets::from_slice(alloc, b"")?,
        framed: None,
    }))
}
