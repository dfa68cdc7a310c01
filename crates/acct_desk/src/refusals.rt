//! The responses to requests that are refused without the book.
ghost use Rattle.std.specs.Prelude.{◌≡◌, IfOk};
ghost use Rattle.acct_desk.specs.Responses.{allow_line, refusal_response};

use crate::asking::Refusal;
use crate::routes::Endpoint;
use acct_desk_pages::json_response::error_octets;
use http::StatusCode;
use std::alloc::{AllocError, Global};

// The response to a request that is refused without the book.
pub(crate) fn refusal_octets(alloc: Global, refusal: Refusal) -> Result<Vec<u8>, AllocError>
    ensures { IfOk result (λ octets. octets.items ≡ refusal_response refusal) }
{
    match refusal {
        Refusal::BadRequest => error_octets(alloc, StatusCode::BAD_REQUEST, "", "bad request"),
        Refusal::TooLarge => error_octets(alloc, StatusCode::PAYLOAD_TOO_LARGE, "", "too large"),
        Refusal::NoPath => error_octets(alloc, StatusCode::NOT_FOUND, "", "no such path"),
        Refusal::WrongMethod(endpoint) => error_octets(
            alloc,
            StatusCode::METHOD_NOT_ALLOWED,
            allow_text(endpoint),
            "wrong method",
        ),
        Refusal::NoKey => error_octets(
            alloc,
            StatusCode::UNAUTHORIZED,
            "WWW-Authenticate: Desk-Key\r\n",
            "no key",
        ),
        Refusal::NotAllowed => error_octets(alloc, StatusCode::FORBIDDEN, "", "not allowed"),
        Refusal::BadTopUp => error_octets(alloc, StatusCode::UNPROCESSABLE_ENTITY, "", "bad topup"),
        Refusal::BadLogin => error_octets(alloc, StatusCode::UNPROCESSABLE_ENTITY, "", "bad login"),
    }
}

// The line that names an endpoint's method.
fn allow_text(endpoint: Endpoint) -> &'static str
    ensures { result.now ≡ allow_line endpoint }
{
    match endpoint {
        Endpoint::TopUps => "Allow: POST\r\n",
        _ => "Allow: GET\r\n",
    }
}
