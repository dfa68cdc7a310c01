//! Laws of the definitions: functions without effect, whose contracts are the laws.
ghost use Rattle.acct_wire.specs.Laws.{OneRuleIsBrokenFirst, AskingBreaksNone, OneEntryIsAsked};
ghost use Rattle.acct_wire.specs.Laws.{ClientsDiffer, TellersDiffer};

/// A datagram has one judgement: no two rules are the first that it breaks. One that requests an
/// entry breaks none, and it requests one entry, by one request of one client.
pub fn one_judgement()
    ensures once { OneRuleIsBrokenFirst }
    ensures asking { AskingBreaksNone }
    ensures entry { OneEntryIsAsked }
{}

/// No two clients of a site share a name or an address.
pub fn clients_differ()
    ensures { ClientsDiffer }
{}

/// Where no name of a client has a `/`, a device behind a proxy is none of another client's, and no
/// client itself.
pub fn tellers_differ()
    ensures { TellersDiffer }
{}
