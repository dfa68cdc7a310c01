//! How the reports of a client are heard: which client they are of, who pays, by which plan, and of
//! which session they are.
ghost use Rattle.std.specs.Prelude.{◌≡◌, IfOk, string_bytes, [], ◌∷◌};
ghost use Rattle.std.specs.List.{find, concat};
ghost use Rattle.std.specs.Option.{option_copied};
ghost use Rattle.acct_model.specs.Coded.{coded};
ghost use Rattle.acct_wire.specs.Hearing.{is_called, first_stamp, billed, device, told_of};
ghost use Rattle.acct_wire.specs.inner.Hearing.{entry_heard, report_heard};

use acct_model::{Entry, Octets, Report, Restart, Stamp, StampSecrets, Text, TopUp, coded_text};
use radius_codec::attribute_types::{
    CLASS, NAS_IDENTIFIER, NAS_IP_ADDRESS, NAS_IPV6_ADDRESS, USER_NAME,
};
use radius_codec::{Attributes, Packet};
use std::alloc::{AllocError, Global};

/// A client whose logins are stamped.
pub struct StampedClient {
    /// The client's name.
    pub name: Text,
    /// Whether it passes on what other devices report. Each of them is then a client of its own.
    pub proxy: bool,
    /// The class of reports without a stamp.
    pub plan: Octets,
}

impl Drop for StampedClient {
    fn drop(self) {
        let StampedClient {
            name: _,
            proxy: _,
            plan: _,
        } = self;
    }
}

/// How a site hears the clients whose logins are stamped.
pub struct Stamping {
    /// They sign the stamps.
    pub secrets: StampSecrets,
    /// Those clients.
    pub clients: Vec<StampedClient>,
}

impl Drop for Stamping {
    fn drop(self) {
        let Stamping {
            secrets: _,
            clients: _,
        } = self;
    }
}

impl Stamping {
    /// The client of this name, if its logins are stamped.
    pub fn called(&self, name: &str) -> Option<&StampedClient>
        ensures { option_copied result ≡ find (is_called name.now) self.now.clients.items }
    {
        for client in &self.clients {
            if client.name.as_str() == name {
                return Some(client);
            }
        }
        None
    }
}

impl StampedClient {
    // The entry of a packet of the client of this name, with who told it, who pays, the plan and the
    // session.
    pub(crate) fn hear(
        &self,
        alloc: Global,
        name: &str,
        secrets: &StampSecrets,
        packet: &Packet<'_>,
        entry: Entry,
    ) -> Result<Entry, AllocError>
        ensures { IfOk result (λ heard. heard ≡ entry_heard
            (told_of name.now packet.now.attributes (Some self.now))
            (billed self.now packet.now.attributes
            (first_stamp secrets.now packet.now.attributes)) entry) }
    {
        let client = self.teller(alloc, name, packet)?;
        match entry {
            Entry::Report(report) => {
                let stamp = self.bill(alloc, secrets, packet)?;
                Ok(Entry::Report(bill_to(alloc, client, stamp, report)?))
            }
            Entry::Restart(_) => Ok(Entry::Restart(Restart { client })),
            Entry::TopUp(topup) => Ok(Entry::TopUp(topup)),
        }
    }

    // Who told a packet of the client of this name.
    fn teller(&self, alloc: Global, name: &str, packet: &Packet<'_>) -> Result<Text, AllocError>
        ensures { IfOk result (λ teller. teller
            ≡ told_of name.now packet.now.attributes (Some self.now)) }
    {
        if !self.proxy {
            return Text::from_str(alloc, name);
        }
        let device = device_of(alloc, packet)?;
        let text = [name, "/", device.as_str()].concat(alloc)?;
        Ok(Text { text })
    }

    // Who pays, and by which plan.
    fn bill(
        &self,
        alloc: Global,
        secrets: &StampSecrets,
        packet: &Packet<'_>,
    ) -> Result<Stamp, AllocError>
        ensures { IfOk result (λ stamp. stamp ≡ billed self.now packet.now.attributes
            (first_stamp secrets.now packet.now.attributes)) }
    {
        if let Some(stamp) = stamp_of(alloc, secrets, &packet.attributes)? {
            return Ok(stamp);
        }
        let user = packet.attributes.first(USER_NAME).unwrap_or(&[]);
        Ok(Stamp {
            plan: self.plan.copy(alloc)?,
            login: Octets::from_slice(alloc, &[])?,
            name: Octets::from_slice(alloc, user)?,
        })
    }
}

// The report with another client, who pays, the plan and the session.
fn bill_to(alloc: Global, client: Text, stamp: Stamp, report: Report) -> Result<Report, AllocError>
    ensures { IfOk result (λ billed. billed ≡ report_heard client stamp report) }
{
    let session = stamp.session(alloc, report.session.as_slice())?;
    let (plan, name) = stamp.into_bill();
    let mut report = report;
    report.client = client;
    report.session = session;
    report.user = name;
    report.class = plan;
    Ok(report)
}

// The first stamp among attributes.
fn stamp_of(
    alloc: Global,
    secrets: &StampSecrets,
    attributes: &Attributes<'_>,
) -> Result<Option<Stamp>, AllocError>
    ensures { IfOk result (λ stamp. stamp ≡ first_stamp secrets.now attributes.now) }
{
    for (kind, value) in attributes.iter() {
        if kind == CLASS {
            if let Some(stamp) = Stamp::read(alloc, secrets, value)? {
                return Ok(Some(stamp));
            }
        }
    }
    Ok(None)
}

// The device behind a proxy.
fn device_of(alloc: Global, packet: &Packet<'_>) -> Result<String, AllocError>
    ensures { IfOk result (λ text. string_bytes text ≡ device packet.now.attributes) }
{
    if let Some(name) = packet.attributes.first(NAS_IDENTIFIER) {
        return marked(alloc, "n", name);
    }
    if let Some(address) = packet.attributes.first(NAS_IPV6_ADDRESS) {
        return marked(alloc, "v", address);
    }
    if let Some(address) = packet.attributes.first(NAS_IP_ADDRESS) {
        return marked(alloc, "a", address);
    }
    Ok(String::new(alloc))
}

// A value, coded, behind the letter for its type.
fn marked(alloc: Global, letter: &str, value: &[u8]) -> Result<String, AllocError>
    ensures { IfOk result (λ text.
        string_bytes text ≡ concat (letter.now ∷ coded value.now ∷ [])) }
{
    let value = coded_text(alloc, value)?;
    [letter, value.as_str()].concat(alloc)
}
