//! Accounting-Responses written into an array.
ghost use Rattle.std.specs.Prelude.{◌≡◌, ◌+◌, ◌≤◌, ◌++◌, length, take, drop};
ghost use Rattle.radius_codec.specs.Attributes.{spellings, Fits};
ghost use Rattle.radius_codec.specs.Packet.{proxy_states, reply_octets, IsReplyOf};
ghost use Rattle.radius_codec.specs.Packet.{IsSignedResponse};

use crate::attribute_types::PROXY_STATE;
use crate::attributes::Attributes;
use crate::codes::ACCOUNTING_RESPONSE;
use crate::limits::HEADER;
use crate::packet::Packet;
use crate::writing::{put_attribute, seal};

/// Writes the Accounting-Response to a request (RFC 2866, section 4.2): the request's identifier,
/// its Proxy-States in their order, and the Response Authenticator (RFC 2866, section 3). Gives its
/// size in octets. Octets of `out` past it stay as they were.
pub fn write_response(request: &Packet<'_>, secret: &[u8], out: &mut [u8; 4096]) -> usize
    ensures written { out.new ≡
        reply_octets request.now.id request.now.authenticator request.now.attributes secret.now
        ++ drop result out.old }
    ensures size { result ≡ 20 + length (spellings (proxy_states request.now.attributes)) }
    ensures most { result ≤ 4096 }
    ensures reply { IsReplyOf (take result out.new) request.now.id request.now.attributes }
    ensures signed { IsSignedResponse (take result out.new) request.now.authenticator secret.now }
{
    let end = put_proxy_states(out, &request.attributes);
    seal(
        out,
        ACCOUNTING_RESPONSE,
        request.id,
        &request.authenticator,
        secret,
        end,
    );
    end
}

// Writes the Proxy-States among the attributes after the first twenty octets, and says where they
// end.
fn put_proxy_states(out: &mut [u8; 4096], attributes: &Attributes<'_>) -> usize
    ensures octets { out.new ≡
        take 20 out.old ++ spellings (proxy_states attributes.now) ++ drop result out.old }
    ensures end { result ≡ 20 + length (spellings (proxy_states attributes.now)) }
    ensures fits { Fits (proxy_states attributes.now) }
{
    let mut end = HEADER;
    for (kind, value) in attributes.iter() {
        if kind == PROXY_STATE {
            end = put_attribute(out, end, kind, value);
        }
    }
    end
}
