//! Stamps: what the desk says of a login, signed, as the Class of its session.
ghost use Rattle.std.specs.Prelude.{◌≡◌, ◌≤◌, IfOk, IfSome, Some, None, length, codes, bytes_eq};
ghost use Rattle.std.specs.Prelude.{◌↔◌, is_some, map, string_bytes, IsTrue};
ghost use Rattle.std.specs.List.{list_all, concat};
ghost use Rattle.std.specs.Option.{option_map};
ghost use Rattle.percent_encoding.specs.Percent.{percent_decode};
ghost use Rattle.acct_model.specs.Stamps as spec;

use crate::coded::{coded_text, uncoded};
use crate::octets::Octets;
use radius_codec::hmac_md5;
use std::alloc::{AllocError, Global};
use std::marker::Model;

/// The most octets of a Class, and so of a stamp (RFC 2865, section 5).
pub const LONGEST_STAMP: usize = 253;
/// The fewest and the most octets of a secret that signs.
const SHORTEST_SECRET: usize = 16;

const LONGEST_SECRET: usize = 64;
/// The most digits of a login.
const LONGEST_LOGIN: usize = 32;

/// A secret of 16 to 64 octets that signs stamps. It is printed nowhere.
pub struct StampSecret {
    octets: Octets,
}

impl Drop for StampSecret {
    fn drop(self) {
        let StampSecret { octets: _ } = self;
    }
}

impl Model for StampSecret {
    ghost use Rattle.std.specs.Prelude.{List, ℕ};

    ghost Value = { List ℕ };

    ghost view = { λ s. s.octets };

    ghost use Rattle.acct_model.specs.Secrets.{IsSecret};

    ghost invariant = { λ s. IsSecret s.octets };
}

impl StampSecret {
    ghost use Rattle.acct_model.specs.Secrets.{is_secret};

    /// A secret, if the octets are 16 to 64. It takes no memory.
    pub fn new(octets: Octets) -> Option<StampSecret>
        ensures kept { IfSome result (λ secret. secret ≡ octets) }
        ensures fits { is_some result ≡ is_secret octets }
    {
        let length = octets.as_slice().len();
        if length < SHORTEST_SECRET || length > LONGEST_SECRET {
            return None;
        }
        Some(StampSecret { octets })
    }

    /// The secret's octets.
    pub fn as_slice(&self) -> &[u8]
        ensures same { result.now ≡ self.now }
        ensures short { length result.now ≤ 64 }
    {
        self.octets.as_slice()
    }
}

/// The secrets of a site.
pub struct StampSecrets {
    /// Signs new stamps.
    pub secret: StampSecret,
    /// Signed stamps before. Those are still read.
    pub old: Option<StampSecret>,
}

impl Drop for StampSecrets {
    fn drop(self) {
        let StampSecrets { secret: _, old: _ } = self;
    }
}

/// What the desk said at a login.
pub struct Stamp {
    /// The class by whose plan the session is priced.
    pub plan: Octets,
    /// Tells logins apart whose sessions have the same id: 0 to 32 lower-case hexadecimal digits.
    pub login: Octets,
    /// The account that pays.
    pub name: Octets,
}

impl Drop for Stamp {
    fn drop(self) {
        let Stamp {
            plan: _,
            login: _,
            name: _,
        } = self;
    }
}

impl Stamp {
    /// The stamp that a value is, if a secret of the site signed it.
    ///
    /// # Errors
    ///
    /// Only if an allocation fails.
    pub fn read(
        alloc: Global,
        secrets: &StampSecrets,
        value: &[u8],
    ) -> Result<Option<Stamp>, AllocError>
        ensures { IfOk result (λ stamp. stamp ≡ spec.stamp_read secrets.now value.now) }
    {
        if value.len() > LONGEST_STAMP {
            return Ok(None);
        }
        let Some(parts) = fields(value) else {
            return Ok(None);
        };
        if !is_login(parts.1) {
            return Ok(None);
        }
        let stamp = stamp_in(alloc, parts)?;
        if !stamp.is_made(alloc, secrets, value)? {
            return Ok(None);
        }
        Ok(Some(stamp))
    }

    /// The stamp's value under a secret.
    ///
    /// # Errors
    ///
    /// Only if an allocation fails.
    pub fn value(&self, alloc: Global, secret: &StampSecret) -> Result<Octets, AllocError>
        ensures { IfOk result (λ value. value ≡ spec.stamp_of secret.now self.now) }
    {
        let text = self.text(alloc)?;
        let signature = signature(alloc, b"stamp;", secret, text.as_slice())?;
        joined(alloc, &[text.as_slice(), signature.as_bytes()])
    }

    /// The name of a session behind its own id.
    ///
    /// # Errors
    ///
    /// Only if an allocation fails.
    pub fn session(&self, alloc: Global, id: &[u8]) -> Result<Octets, AllocError>
        ensures { IfOk result (λ session. session ≡ spec.stamped_session id.now self.now) }
    {
        let name = coded_text(alloc, self.name.as_slice())?;
        joined(
            alloc,
            &[id, b"/", self.login.as_slice(), b"/", name.as_bytes()],
        )
    }

    /// The plan and the account that pays. It takes no memory.
    pub fn into_bill(self) -> (Octets, Octets)
        ensures { result ≡ (self.plan, self.name) }
    {
        let Stamp {
            plan,
            login: _,
            name,
        } = self;
        (plan, name)
    }

    // What it says, each field with a `;` behind it.
    fn text(&self, alloc: Global) -> Result<Octets, AllocError>
        ensures { IfOk result (λ text. text ≡ spec.stamp_text self.now) }
    {
        let plan = coded_text(alloc, self.plan.as_slice())?;
        let name = coded_text(alloc, self.name.as_slice())?;
        let login = self.login.as_slice();
        joined(
            alloc,
            &[plan.as_bytes(), b";", login, b";", name.as_bytes(), b";"],
        )
    }

    // Whether a secret of the site made this value of it.
    fn is_made(
        &self,
        alloc: Global,
        secrets: &StampSecrets,
        value: &[u8],
    ) -> Result<bool, AllocError>
        ensures { IfOk result (λ made. made ≡ spec.is_made secrets.now value.now self.now) }
    {
        if self.is_made_by(alloc, &secrets.secret, value)? {
            return Ok(true);
        }
        match &secrets.old {
            Some(old) => self.is_made_by(alloc, old, value),
            None => Ok(false),
        }
    }

    fn is_made_by(
        &self,
        alloc: Global,
        secret: &StampSecret,
        value: &[u8],
    ) -> Result<bool, AllocError>
        ensures { IfOk result (λ made. made ≡ spec.is_made_by (Some secret.now) value.now self.now) }
    {
        let made = self.value(alloc, secret)?;
        Ok(are_same(value, made.as_slice()))
    }
}

/// The signature of a text of a kind: HMAC-MD5 (RFC 2104) in lower-case hexadecimal digits.
///
/// # Errors
///
/// Only if an allocation fails.
pub fn signature(
    alloc: Global,
    kind: &[u8],
    secret: &StampSecret,
    text: &[u8],
) -> Result<String, AllocError>
    ensures { IfOk result (λ digits.
        string_bytes digits ≡ spec.signature kind.now secret.now text.now) }
{
    hex::encode(alloc, hmac_md5(secret.as_slice(), kind, text))
}

/// Whether octets are the same. It takes as long wherever they differ, so that nobody learns a
/// signature by the time that guesses take.
pub fn are_same(one: &[u8], other: &[u8]) -> bool
    ensures { result ≡ bytes_eq one.now other.now }
{
    if one.len() != other.len() {
        return false;
    }
    let mut same = true;
    for i in 0..one.len() {
        same &= one[i] == other[i];
    }
    same
}

// What these fields say.
fn stamp_in(alloc: Global, parts: (&[u8], &[u8], &[u8])) -> Result<Stamp, AllocError>
    ensures { IfOk result (λ stamp.
        stamp ≡ spec.stamp_in (parts.entry.0.now, parts.entry.1.now, parts.entry.2.now)) }
{
    Ok(Stamp {
        plan: uncoded(alloc, parts.0)?,
        login: Octets::from_slice(alloc, parts.1)?,
        name: uncoded(alloc, parts.2)?,
    })
}

// The three fields that have a `;` behind them.
fn fields(value: &[u8]) -> Option<(&[u8], &[u8], &[u8])>
    ensures { option_map (λ parts. (parts.0.now, parts.1.now, parts.2.now)) result
        ≡ spec.fields value.now }
{
    let (plan, rest) = cut(value)?;
    let (login, rest) = cut(rest)?;
    let (name, _signature) = cut(rest)?;
    Some((plan, login, name))
}

// The octets before the first `;`, and those behind it.
fn cut(octets: &[u8]) -> Option<(&[u8], &[u8])>
    ensures { option_map (λ parts. (parts.0.now, parts.1.now)) result ≡ spec.cut octets.now }
{
    for i in 0..octets.len() {
        if octets[i] == b';' {
            return Some((&octets[..i], &octets[i + 1..]));
        }
    }
    None
}

// Whether octets are 0 to 32 lower-case hexadecimal digits.
pub fn is_login(octets: &[u8]) -> bool
    ensures { result ≡ spec.is_login octets.now }
{
    octets.len() <= LONGEST_LOGIN && are_digits(octets)
}

fn are_digits(octets: &[u8]) -> bool
    ensures { result ≡ list_all spec.is_login_digit octets.now }
{
    octets.iter().all(|octet| is_digit(*octet))
}

fn is_digit(octet: u8) -> bool
    ensures { result ≡ spec.is_login_digit octet }
{
    octet.is_ascii_digit() || matches!(octet, b'a'..=b'f')
}

// Parts one after the other.
fn joined(alloc: Global, parts: &[&[u8]]) -> Result<Octets, AllocError>
    ensures { IfOk result (λ octets. octets ≡ concat (map (λ part. part.now) parts.now)) }
{
    let mut octets = Vec::new(alloc);
    for part in parts {
        octets.extend_from_slice(part)?;
    }
    Ok(Octets { octets })
}
