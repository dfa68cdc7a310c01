//! A batch: rows of one account and plan that are carried into one line, all of them or none.
ghost use Rattle.std.specs.Prelude.{◌≡◌, ◌+◌, ◌*◌, ◌<◌, ◌≤◌, ◌^◌, Some, length, IfSome, IfOk, map};
ghost use Rattle.std.specs.Prelude.{true};
ghost use Rattle.std.specs.List.{sum_by};
ghost use Rattle.acct_model.specs.Plans.{counted};
ghost use Rattle.acct_book.specs.Content.{key_of, IsNone};
ghost use Rattle.acct_book.specs.Step.{Looks};
ghost use Rattle.acct_book_forward.specs.Carrying.{is_line};
ghost use Rattle.acct_book_forward.specs.inner.Forwarding.{blocks_at, IsInto, AreCarriedInto};
ghost use Rattle.acct_book_forward.specs.inner.Forwarding.{IsForward, AreIn};
ghost use Rattle.acct_book_forward.specs.inner.Forwarding.{AreAllOf, AreNoLines, CarriesInto};

use acct_book::{Book, Key, Row, Unavailable, advance};
use acct_model::{Count, Octets, Plan, Plans, Report, ReportKind, Text, counted, show};
use std::alloc::{AllocError, Global};

/// How many lines an account may have for a plan.
const LINES: u32 = 100;

/// Rows of one account and plan, and what it takes to carry them.
#[derive(Clone, Copy)]
pub(crate) struct Batch<'a> {
    /// Where the report and the row of the line take their memory.
    pub alloc: Global,
    /// The plans of the book.
    pub plans: &'a Plans,
    /// The account of the rows.
    pub account: &'a [u8],
    /// The class of the plan that they are charged by.
    pub class: &'a [u8],
    /// The rows.
    pub rows: &'a [Row],
    /// What the line says of when, in seconds since 1970.
    pub moment: u64,
}

/// How many of the first rows fit an empty line.
pub(crate) fn fitting(plan: &Plan, rows: &[Row]) -> usize
    requires { 0 < plan.now.block }
{
    let mut total: u128 = 0;
    for (index, row) in rows.iter().enumerate() {
        total = total.saturating_add(started(plan, row));
        if octets_of(plan, 0, total).is_none() {
            return index;
        }
    }
    rows.len()
}

/// Carries a batch that stands in a book into a line, and returns whether it fits one.
pub(crate) fn carry_rows<B: Book>(book: &mut B, batch: &Batch<'_>) -> Result<bool, Unavailable>
    requires moment { batch.now.moment < 2 ^ 53 }
    requires some { 0 < length batch.now.rows.now }
    requires stand { B.is_open book.old → AreIn (B.content book.old).rows batch.now.rows.now }
    requires alike { B.is_open book.old
        → AreAllOf batch.now.account.now batch.now.class.now batch.now.rows.now }
    requires apart { AreNoLines batch.now.rows.now }
    ensures { CarriesInto B.Book batch.now.plans.now (map key_of batch.now.rows.now) book.old
        book.new result }
{
    let gone = keys_of(batch.alloc, batch.rows)?;
    let Some(row) = line_for(book, batch)? else {
        return Ok(false);
    };
    book.put_forward(&gone, &row)?;
    Ok(true)
}

// The keys of rows.
fn keys_of(alloc: Global, rows: &[Row]) -> Result<Vec<Key>, AllocError>
    ensures { IfOk result (λ keys. keys.items ≡ map key_of rows.now) }
{
    let mut keys = Vec::new(alloc);
    for row in rows {
        keys.push(row.key(alloc)?)?;
    }
    Ok(keys)
}

// The row of the first line into which a batch fits.
fn line_for<B: Book>(book: &mut B, batch: &Batch<'_>) -> Result<Option<Row>, Unavailable>
    requires moment { batch.now.moment < 2 ^ 53 }
    requires some { 0 < length batch.now.rows.now }
    requires stand { B.is_open book.old → AreIn (B.content book.old).rows batch.now.rows.now }
    requires alike { B.is_open book.old
        → AreAllOf batch.now.account.now batch.now.class.now batch.now.rows.now }
    requires apart { AreNoLines batch.now.rows.now }
    ensures reads { Looks B.Book book.old book.new result }
    ensures carried { B.is_open book.new → IfOk result (λ row. IfSome row
        (AreCarriedInto batch.now.plans.now (B.content book.old) (map key_of batch.now.rows.now))) }
{
    for number in 1..=LINES {
        let into = line_key(batch.alloc, batch.class, batch.account, number)?;
        let row = carried_row(book, batch, &into)?;
        if row.is_some() {
            return Ok(row);
        }
    }
    Ok(None)
}

// The row into which a batch that stands in a book is carried, by the row that the book keeps under
// a line's key. There is none if that row is of another account or plan or counts no whole blocks,
// if the class is no plan's, or if the octets would be above 2^63 - 1.
fn carried_row<B: Book>(
    book: &mut B,
    batch: &Batch<'_>,
    into: &Key,
) -> Result<Option<Row>, Unavailable>
    requires moment { batch.now.moment < 2 ^ 53 }
    requires some { 0 < length batch.now.rows.now }
    requires stand { B.is_open book.old → AreIn (B.content book.old).rows batch.now.rows.now }
    requires alike { B.is_open book.old
        → AreAllOf batch.now.account.now batch.now.class.now batch.now.rows.now }
    requires line { is_line into.now.client ≡ true }
    requires owned { into.now.session ≡ batch.now.account.now }
    requires apart { IsNone (map key_of batch.now.rows.now) into.now }
    ensures reads { Looks B.Book book.old book.new result }
    ensures carried { B.is_open book.new → IfOk result (λ row. IfSome row
        (AreCarriedInto batch.now.plans.now (B.content book.old) (map key_of batch.now.rows.now))) }
{
    let found = book.session(into)?;
    let plan = batch.plans.plan_of(batch.class);
    if plan.class.as_slice() != batch.class {
        return Ok(None);
    }
    match forward_report(batch, plan, &found, into)? {
        None => Ok(None),
        Some(report) => {
            let (row, _before) = advance(batch.alloc, batch.plans, found, &report)?;
            Ok(Some(row))
        }
    }
}

// The report that carries a batch into the row that was found under a key: a Stop that says no
// time, no station and no address. There is none if the row found is of another account or plan or
// counts no whole blocks, or if its octets would be above 2^63 - 1.
fn forward_report(
    batch: &Batch<'_>,
    plan: &Plan,
    found: &Option<Row>,
    into: &Key,
) -> Result<Option<Report>, AllocError>
    requires block { 0 < plan.now.block }
    requires moment { batch.now.moment < 2 ^ 53 }
    requires owned { into.now.session ≡ batch.now.account.now }
    ensures { IfOk result (λ report. IfSome report
        (IsForward plan.now batch.now.account.now batch.now.rows.now found.now into.now)) }
{
    let Some(blocks) = whole_blocks(plan, batch.account, found) else {
        return Ok(None);
    };
    let Some(octets) = octets_of(plan, blocks, started_in(plan, batch.rows)) else {
        return Ok(None);
    };
    let (input, output) = directed(plan, octets);
    let alloc = batch.alloc;
    Ok(Some(Report {
        client: into.client.copy(alloc)?,
        session: into.session.copy(alloc)?,
        user: Octets::from_slice(alloc, batch.account)?,
        class: plan.class.copy(alloc)?,
        kind: ReportKind::Stop,
        input,
        output,
        seconds: 0,
        when: batch.moment,
        cause: 0,
        calling: Octets::from_slice(alloc, &[])?,
        framed: None,
    }))
}

// How many blocks a row holds into which sessions of this account and plan are carried: none if
// there is no row yet. It is no such row if it is of another account or plan, or counts no whole
// blocks.
fn whole_blocks(plan: &Plan, account: &[u8], found: &Option<Row>) -> Option<u64>
    requires { 0 < plan.now.block }
    ensures holds { IfSome result (λ blocks.
        IsInto plan.now account.now plan.now.class found.now blocks) }
    ensures bound { IfSome result (λ blocks. blocks < 2 ^ 63) }
{
    let Some(row) = found else {
        return Some(0);
    };
    let octets = counted(plan, row.input, row.output);
    if row.account.as_slice() != account || row.plan != plan.class || octets % plan.block != 0 {
        return None;
    }
    Some(octets / plan.block)
}

// So many blocks in octets, if they are below 2^63.
fn octets_of(plan: &Plan, blocks: u64, more: u128) -> Option<u64>
    requires { blocks < 2 ^ 63 }
    ensures exact { IfSome result (λ octets. octets ≡ (blocks + more) * plan.now.block) }
    ensures bound { IfSome result (λ octets. octets < 2 ^ 63) }
{
    if more >= 1 << 63 {
        return None;
    }
    match (u128::from(blocks) + more).checked_mul(u128::from(plan.block)) {
        Some(octets) if octets < 1 << 63 => Some(octets as u64),
        _ => None,
    }
}

// How many blocks of a plan these rows have started together.
fn started_in(plan: &Plan, rows: &[Row]) -> u128
    requires { 0 < plan.now.block }
    ensures exact { result ≡ sum_by (λ row. blocks_at plan.now (Some row)) rows.now }
    ensures bound { result ≤ length rows.now * 2 ^ 63 }
{
    let mut total = 0;
    for row in rows {
        total += started(plan, row);
    }
    total
}

// How many blocks of a plan a row has started.
fn started(plan: &Plan, row: &Row) -> u128
    requires { 0 < plan.now.block }
    ensures exact { result ≡ blocks_at plan.now (Some row.now) }
    ensures bound { result ≤ 2 ^ 63 }
{
    plan.blocks(counted(plan, row.input, row.output))
}

// The key of a line of an account and a class.
fn line_key(alloc: Global, class: &[u8], account: &[u8], number: u32) -> Result<Key, AllocError>
    ensures line { IfOk result (λ key. is_line key.client ≡ true) }
    ensures owned { IfOk result (λ key. key.session ≡ account.now) }
{
    let mut client = String::from_str(alloc, "(")?;
    match show(alloc, class) {
        Ok(shown) => client.push_str(shown.as_str())?,
        Err(_) => return Err(AllocError),
    }
    client.push(')')?;
    if number > 1 {
        client.push_str(format!(in alloc; "{number}")?.as_str())?;
    }
    Ok(Key {
        client: Text { text: client },
        session: Octets::from_slice(alloc, account)?,
    })
}

// An input and an output of which a plan counts so many octets.
fn directed(plan: &Plan, octets: u64) -> (u64, u64)
    requires { octets < 2 ^ 63 }
    ensures exact { counted plan.now result.0 result.1 ≡ octets }
    ensures all { result.0 + result.1 ≡ octets }
    ensures bound { result.0 + result.1 < 2 ^ 63 }
{
    match plan.count {
        Count::Both | Count::Input => (octets, 0),
        Count::Output => (0, octets),
    }
}
