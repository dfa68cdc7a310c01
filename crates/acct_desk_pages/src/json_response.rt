//! Whole HTTP responses with a JSON body.
ghost use Rattle.std.specs.Prelude.{◌≡◌, false, IfOk};
ghost use Rattle.serde_json.specs.View.{view};
ghost use Rattle.serde_json.specs.Written.{has_float, compact_text};
ghost use Rattle.acct_desk_pages.specs.Responses.{response_text, error_body, error_response};
ghost use Rattle.acct_desk_pages.specs.Responses.{result_body, result_response};
ghost use Rattle.acct_desk_pages.specs.Responses.{unavailable_response};

use http::StatusCode;
use serde_json::{Value, json};
use std::alloc::{AllocError, Global};

/// A response with a JSON body. Each line in `further` has its line end.
pub fn respond(
    alloc: Global,
    status: StatusCode,
    further: &str,
    body: &Value,
) -> Result<Vec<u8>, AllocError>
    requires { has_float (view body.now) ≡ false }
    ensures { IfOk result (λ octets. octets.items
        ≡ response_text status further.now (compact_text (view body.now))) }
{
    let body = body.to_string(alloc)?;
    let status = status.to_string(alloc)?;
    let length = body.len().to_string(alloc)?;
    let text = [
        "HTTP/1.1 ",
        status.as_str(),
        "\r\nContent-Type: application/json\r\nContent-Length: ",
        length.as_str(),
        "\r\nConnection: close\r\n",
        further,
        "\r\n",
        body.as_str(),
    ]
    .concat(alloc)?;
    Ok(text.into_bytes())
}

/// The response if the book is unavailable.
#[tactic(auto, unfolding(crate::specs::Responses::unavailable_response))]
pub fn unavailable_octets(alloc: Global) -> Result<Vec<u8>, AllocError>
    ensures { IfOk result (λ octets. octets.items ≡ unavailable_response) }
{
    error_octets(alloc, StatusCode::SERVICE_UNAVAILABLE, "", "unavailable")
}

/// A response that names an error. Each line in `further` has its line end.
pub fn error_octets(
    alloc: Global,
    status: StatusCode,
    further: &str,
    words: &str,
) -> Result<Vec<u8>, AllocError>
    ensures { IfOk result (λ octets. octets.items ≡ error_response status further.now words.now) }
{
    let body = error_value(alloc, words)?;
    respond(alloc, status, further, &body)
}

/// A response that names a result.
pub fn result_octets(alloc: Global, status: StatusCode, words: &str) -> Result<Vec<u8>, AllocError>
    ensures { IfOk result (λ octets. octets.items ≡ result_response status words.now) }
{
    let body = result_value(alloc, words)?;
    respond(alloc, status, "", &body)
}

/// The body that names an error.
pub fn error_value(alloc: Global, words: &str) -> Result<Value, AllocError>
    ensures { IfOk result (λ v. view v ≡ error_body words.now) }
{
    json!(in alloc; {"error": words})
}

fn result_value(alloc: Global, words: &str) -> Result<Value, AllocError>
    ensures { IfOk result (λ v. view v ≡ result_body words.now) }
{
    json!(in alloc; {"result": words})
}
