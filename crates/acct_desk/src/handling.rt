//! The desk's answers.
ghost use Rattle.std.specs.Prelude.{◌≡◌, ◌<◌, ◌^◌, List, IfOk, option_map};
ghost use Rattle.acct_model.specs.declared.plan.Plan.{Plan};
ghost use Rattle.acct_desk.specs.Asks.{Ask as Asked, Asks, me, overruns, look, login, overdrawn, credit};
ghost use Rattle.acct_desk.specs.Handling.{Handles};
ghost use Rattle.acct_desk.specs.Responses.{refusal_response, recorded_response};
ghost use Rattle.acct_desk.specs.inner.LoginView.{login_view};
ghost use Rattle.acct_desk.specs.inner.TopUpAnswers.{AreAnswers};

use crate::asking::{Ask, Page, Refusal, ask_of_octets};
use crate::keys::Keys;
use crate::login::Login;
use crate::pages::{
    balance_page, login_page, open_sessions_page, overruns_page, page_octets, sessions_page,
    told_octets, topups_page,
};
use crate::refusals::refusal_octets;
use acct_book::{Book, RecordError, Recorded, record};
use acct_desk_pages::json_response::{error_octets, result_octets, unavailable_octets};
use acct_model::{Entry, NoMemory, Plans, TopUp};
use http::StatusCode;
use std::alloc::{AllocError, Global};

/// Returns the whole response to the octets of a request, over a book whose content stands for a
/// history under these plans. `moment` is in seconds since 1970. Any octets get a response. Those
/// that are no request of the desk get one of their own, and leave the book untouched.
///
/// Only a 201 changes the content of a book that is still open. A 503 may mean that the write of a
/// top-up failed and shut the book. A crash may then leave the top-up all the same.
///
/// # Errors
///
/// `NoMemory` if there is no memory for the response. Nothing was recorded then: every allocation
/// for a top-up's response comes before it is recorded.
pub fn handle<B: Book>(
    alloc: Global,
    keys: &Keys,
    plans: &Plans,
    book: &mut B,
    request: &[u8],
    moment: u64,
) -> Result<Vec<u8>, NoMemory>
    requires { moment < 2 ^ 53 }
    ensures { (ask : Asked) × Asks keys.now plans.now request.now moment ask
        × Handles B.Book plans.now ask book.old book.new
        result }
{
    let ask = match ask_of_octets(alloc, keys, plans, request, moment) {
        Ok(ask) => ask,
        Err(_) => return Err(NoMemory),
    };
    match ask {
        Ask::Refused(refusal) => refuse(alloc, refusal),
        Ask::Me(page, account) => tell_page(alloc, plans, book, page, account),
        Ask::Account(page, account) => tell_page(alloc, plans, book, page, account.as_slice()),
        Ask::Overruns => tell_overruns(alloc, book),
        Ask::Login(login) => tell_login(alloc, book, &login),
        Ask::Overdrawn(after) => tell_open_sessions(alloc, book, after),
        Ask::Credit(topup) => take_topup(alloc, plans, book, topup),
    }
}

// Refuses a request.
fn refuse(alloc: Global, refusal: Refusal) -> Result<Vec<u8>, NoMemory>
    ensures { IfOk result (λ octets. octets.items ≡ refusal_response refusal) }
{
    match refusal_octets(alloc, refusal) {
        Ok(octets) => Ok(octets),
        Err(_) => Err(NoMemory),
    }
}

// Returns a page of an account.
fn tell_page<B: Book>(
    alloc: Global,
    plans: &Plans,
    book: &mut B,
    page: Page,
    account: &[u8],
) -> Result<Vec<u8>, NoMemory>
    ensures { Handles B.Book plans.now (me page account.now) book.old book.new result }
{
    match page {
        Page::Balance => page_octets(alloc, balance_page(alloc, book, account)),
        Page::Sessions => page_octets(alloc, sessions_page(alloc, plans, book, account)),
        Page::TopUps => page_octets(alloc, topups_page(alloc, book, account)),
    }
}

// Returns the overdrawn accounts.
fn tell_overruns<B: Book>(alloc: Global, book: &mut B) -> Result<Vec<u8>, NoMemory>
    ensures { (plans : List Plan) → Handles B.Book plans overruns book.old book.new result }
{
    page_octets(alloc, overruns_page(alloc, book))
}

// Returns what a login may use.
fn tell_login<B: Book>(alloc: Global, book: &mut B, asked: &Login<'_>) -> Result<Vec<u8>, NoMemory>
    ensures { (plans : List Plan)
        → Handles B.Book plans (look (login (login_view asked.now))) book.old book.new result }
{
    told_octets(alloc, login_page(alloc, book, asked))
}

// Returns the open sessions of accounts below 0.
fn tell_open_sessions<B: Book>(
    alloc: Global,
    book: &mut B,
    after: Option<Vec<u8>>,
) -> Result<Vec<u8>, NoMemory>
    ensures { (plans : List Plan) → Handles B.Book plans
        (look (overdrawn (option_map (λ a. a.items) after))) book.old book.new result }
{
    page_octets(alloc, open_sessions_page(alloc, book, after))
}

// Records a top-up. All its possible responses are made before.
fn take_topup<B: Book>(
    alloc: Global,
    plans: &Plans,
    book: &mut B,
    topup: TopUp,
) -> Result<Vec<u8>, NoMemory>
    ensures { Handles B.Book plans.now (credit topup)
        book.old book.new result }
{
    let Ok(answers) = topup_answers(alloc) else {
        return Err(NoMemory);
    };
    let entry = Entry::TopUp(topup);
    let recorded = record(alloc, book, plans, &entry);
    Ok(answer_of(answers, recorded))
}

// The responses to a top-up.
#[derive(Drop)]
struct TopUpAnswers {
    added: Vec<u8>,
    repeated: Vec<u8>,
    differs: Vec<u8>,
    limit: Vec<u8>,
    unavailable: Vec<u8>,
}

#[tactic(auto, unfolding(crate::specs::Responses::added_response))]
fn topup_answers(alloc: Global) -> Result<TopUpAnswers, AllocError>
    ensures { IfOk result AreAnswers }
{
    let added = result_octets(alloc, StatusCode::CREATED, "new")?;
    let repeated = result_octets(alloc, StatusCode::OK, "repeat")?;
    let differs = error_octets(alloc, StatusCode::CONFLICT, "", "voucher differs")?;
    let limit = error_octets(alloc, StatusCode::UNPROCESSABLE_ENTITY, "", "balance limit")?;
    let unavailable = unavailable_octets(alloc)?;
    Ok(TopUpAnswers {
        added,
        repeated,
        differs,
        limit,
        unavailable,
    })
}

// The response for the result of recording.
fn answer_of(answers: TopUpAnswers, recorded: Result<Recorded, RecordError>) -> Vec<u8>
    requires { AreAnswers answers }
    ensures { result.items ≡ recorded_response recorded }
{
    match recorded {
        Ok(Recorded::New) => answers.added,
        Ok(Recorded::Repeat) => answers.repeated,
        Err(RecordError::VoucherDiffers(_)) => answers.differs,
        Err(RecordError::BalanceLimit(_)) => answers.limit,
        Err(RecordError::Unavailable) => answers.unavailable,
    }
}
