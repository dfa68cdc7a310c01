//! What an access server says of a session.
use crate::octets::Octets;
use crate::text::Text;
use std::marker::Model;

/// Which of the three reports of a session it is (RFC 2866, section 5.1).
#[derive(Clone, Copy, PartialEq, Eq, Debug)]
pub enum ReportKind {
    /// The session began.
    Start,
    /// The session ended.
    Stop,
    /// The session goes on: Interim-Update.
    Interim,
}

/// One report of a session. Its input and output are at most 2^63 - 1 octets together, and its
/// `when` is below 2^53.
pub struct Report {
    /// The name of the client, the access server that sent the report.
    pub client: Text,
    /// Acct-Session-Id (RFC 2866, section 5.5), which may have no octets.
    pub session: Octets,
    /// User-Name (RFC 2865, section 5.1), empty if absent: the account, if this is the session's
    /// first report.
    pub user: Octets,
    /// Class (RFC 2865, section 5.25), empty if absent: it names the plan, if this is the session's
    /// first report.
    pub class: Octets,
    /// Start, Stop or Interim-Update.
    pub kind: ReportKind,
    /// Octets received from the user's port, gigawords counted (RFC 2866, section 5.3; RFC 2869,
    /// section 5.1).
    pub input: u64,
    /// Octets sent to the user's port, gigawords counted (RFC 2866, section 5.4; RFC 2869, section
    /// 5.2).
    pub output: u64,
    /// Acct-Session-Time in seconds (RFC 2866, section 5.7), 0 if absent.
    pub seconds: u32,
    /// When the report was made, in seconds since 1970: the moment of its receipt less its
    /// Acct-Delay-Time (RFC 2866, section 5.2), 0 if the delay is larger.
    pub when: u64,
    /// Acct-Terminate-Cause (RFC 2866, section 5.10), 0 if absent.
    pub cause: u32,
    /// Calling-Station-Id (RFC 2865, section 5.31), empty if absent.
    pub calling: Octets,
    /// Framed-IP-Address (RFC 2865, section 5.8), if there is one.
    pub framed: Option<[u8; 4]>,
}

impl Drop for Report {
    fn drop(self) {
        let Report {
            client: _,
            session: _,
            user: _,
            class: _,
            kind: _,
            input: _,
            output: _,
            seconds: _,
            when: _,
            cause: _,
            calling: _,
            framed: _,
        } = self;
    }
}

impl Model for Report {
    ghost use Rattle.acct_model.specs.Report.{ReportFacts, IsReport};

    ghost Value = { ReportFacts };

    ghost view = { λ r. record {
      client = r.client;
      session = r.session;
      user = r.user;
      class = r.class;
      kind = r.kind;
      input = r.input;
      output = r.output;
      seconds = r.seconds;
      when = r.when;
      cause = r.cause;
      calling = r.calling;
      framed = r.framed;
    } };

    ghost invariant = { λ r. IsReport r.input r.output r.when };
}
