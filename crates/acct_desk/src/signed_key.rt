//! Signed keys: a site makes them without a line in the configuration.
ghost use Rattle.std.specs.Prelude.{◌≡◌, ◌<◌, IfOk, IfSome, Some, length, string_bytes};
ghost use Rattle.std.specs.List.{before_first, after_first, list_any, position_from};
ghost use Rattle.acct_desk.specs.SignedKeys as spec;

use acct_model::{MOST_DIGITS, Octets, StampSecret, StampSecrets, are_same, number_of, signature};
use hex::FromHexError;
use std::alloc::{AllocError, Global};

/// A key that its site signed. Until its last second it shows what the account's own key shows.
pub struct SignedKey {
    /// The account whose pages it shows.
    pub account: Octets,
    /// Its last second, since 1970.
    pub until: u64,
}

impl Drop for SignedKey {
    fn drop(self) {
        let SignedKey {
            account: _,
            until: _,
        } = self;
    }
}

/// A withdrawal of an account's signed keys.
pub struct Withdrawn {
    /// The account.
    pub account: Octets,
    /// Keys whose last second is not after this one are ended.
    pub until: u64,
}

impl Drop for Withdrawn {
    fn drop(self) {
        let Withdrawn {
            account: _,
            until: _,
        } = self;
    }
}

impl SignedKey {
    /// The key's value under a secret.
    ///
    /// # Errors
    ///
    /// Only if an allocation fails.
    pub fn value(&self, alloc: Global, secret: &StampSecret) -> Result<String, AllocError>
        ensures { IfOk result (λ value. string_bytes value ≡ spec.key_of secret.now self.now) }
    {
        let text = self.text(alloc)?;
        let signature = signature(alloc, b"key;", secret, text.as_bytes())?;
        [text.as_str(), signature.as_str()].concat(alloc)
    }

    /// The key that a value is, if a secret of the site signed it.
    ///
    /// # Errors
    ///
    /// Only if an allocation fails.
    pub fn read(
        alloc: Global,
        secrets: &StampSecrets,
        value: &[u8],
    ) -> Result<Option<SignedKey>, AllocError>
        ensures { IfOk result (λ key. key ≡ spec.key_read secrets.now value.now) }
    {
        let Some(key) = key_in(alloc, value)? else {
            return Ok(None);
        };
        if !key.is_made(alloc, secrets, value)? {
            return Ok(None);
        }
        Ok(Some(key))
    }

    /// The account. It takes no memory.
    pub fn into_account(self) -> Octets
        ensures { result ≡ self.account }
    {
        let SignedKey { account, until: _ } = self;
        account
    }

    // What it says, each part with a `.` behind it.
    fn text(&self, alloc: Global) -> Result<String, AllocError>
        ensures { IfOk result (λ text. string_bytes text ≡ spec.key_text self.now) }
    {
        let account = hex::encode(alloc, self.account.as_slice())?;
        let until = self.until.to_string(alloc)?;
        [account.as_str(), ".", until.as_str(), "."].concat(alloc)
    }

    // Whether a secret of the site made this value of it.
    fn is_made(
        &self,
        alloc: Global,
        secrets: &StampSecrets,
        value: &[u8],
    ) -> Result<bool, AllocError>
        ensures { IfOk result (λ made. made ≡ spec.is_made secrets.now value.now self.now) }
    {
        if self.is_made_by(alloc, &secrets.secret, value)? {
            return Ok(true);
        }
        match &secrets.old {
            Some(old) => self.is_made_by(alloc, old, value),
            None => Ok(false),
        }
    }

    fn is_made_by(
        &self,
        alloc: Global,
        secret: &StampSecret,
        value: &[u8],
    ) -> Result<bool, AllocError>
        ensures { IfOk result (λ made.
            made ≡ spec.is_made_by (Some secret.now) value.now self.now) }
    {
        let made = self.value(alloc, secret)?;
        Ok(are_same(value, made.as_bytes()))
    }

    // Whether it is in force at a moment.
    pub(crate) fn is_in_force(&self, withdrawn: &[Withdrawn], moment: u64) -> bool
        ensures { result ≡ spec.is_in_force withdrawn.now moment self.now }
    {
        moment <= self.until && !self.is_withdrawn(withdrawn)
    }

    fn is_withdrawn(&self, withdrawn: &[Withdrawn]) -> bool
        ensures { result ≡ list_any (spec.is_ended_by self.now) withdrawn.now }
    {
        withdrawn.iter().any(|end| self.is_ended_by(end))
    }

    fn is_ended_by(&self, withdrawn: &Withdrawn) -> bool
        ensures { result ≡ spec.is_ended_by self.now withdrawn.now }
    {
        withdrawn.account == self.account && self.until <= withdrawn.until
    }
}

// What the parts of a value say.
fn key_in(alloc: Global, value: &[u8]) -> Result<Option<SignedKey>, AllocError>
    ensures { IfOk result (λ key. key ≡ spec.key_in value.now) }
{
    let (digits, rest) = cut(value);
    let (seconds, _signature) = cut(rest);
    let Some(until) = number_of(seconds, MOST_DIGITS) else {
        return Ok(None);
    };
    match hex::decode(alloc, digits) {
        Ok(octets) => Ok(Some(SignedKey {
            account: Octets { octets },
            until,
        })),
        Err(FromHexError::OutOfMemory) => Err(AllocError),
        Err(_) => Ok(None),
    }
}

// The octets before the first `.`, and those behind it.
fn cut(octets: &[u8]) -> (&[u8], &[u8])
    ensures front { result.0.now ≡ before_first spec.is_dot octets.now }
    ensures back { result.1.now ≡ after_first spec.is_dot octets.now }
{
    match first_dot(octets) {
        Some(dot) => (&octets[..dot], &octets[dot + 1..]),
        None => (octets, &[]),
    }
}

fn first_dot(octets: &[u8]) -> Option<usize>
    ensures place { result ≡ position_from spec.is_dot 0 octets.now }
    ensures within { IfSome result (λ dot. dot < length octets.now) }
{
    octets.iter().position(|octet| *octet == b'.')
}
