//! The keys of the desk: who may ask what.
ghost use Rattle.std.specs.Prelude.{◌≡◌, ◌++◌, [], ◌∷◌, None, false, IfOk, IfErr, OnOk, OnErr};
ghost use Rattle.std.specs.Prelude.{option_map, string_bytes};
ghost use Rattle.std.specs.List.{list_all, list_any};
ghost use Rattle.std.specs.Option.{option_copied, option_or};
ghost use Rattle.acct_model.specs.Faults.{fault_or};
ghost use Rattle.acct_desk.specs.Keys.{is_token_octet, is_token_text, has_token, role_at, bare};
ghost use Rattle.acct_desk.specs.Keys.{lets_logins, serves_logins, lets_accounts, shows_accounts};
ghost use Rattle.acct_desk.specs.KeyFaults.{key_fault, keys_fault, IsKeysError, ArePlaces};
ghost use Rattle.acct_desk.specs.Routes.{endpoint_of, login_endpoint, account_endpoint};
ghost use Rattle.acct_desk.specs.SignedKeys.{made_key};

use crate::account_path::account_path;
use crate::routes::{Endpoint, endpoint_at, front_endpoint, router};
use crate::signed_key::{SignedKey, Withdrawn};
use acct_model::{Octets, StampSecrets, Text};
use matchit::{InsertError, Router};
use std::alloc::{AllocError, Global};
use std::collections::BTreeMap;
use std::marker::Model;
use thiserror::Error;

/// The fewest characters of a token.
const SHORTEST_TOKEN: usize = 16;
/// The most characters of a token.
const LONGEST_TOKEN: usize = 64;

/// What a key lets its bearer do.
pub enum Role {
    /// Ask for the balance, the sessions and the vouchers of this account.
    Account(Octets),
    /// Credit vouchers, and list the overdrawn accounts.
    Cashier,
    /// The same, and ask for the balance, the sessions and the vouchers of any account.
    Clerk,
    /// Ask what logins may use.
    Logins,
}

impl Drop for Role {
    fn drop(self) {
        match self {
            Role::Account(_) => {}
            Role::Cashier => {}
            Role::Clerk => {}
            Role::Logins => {}
        }
    }
}

/// A token and what it lets its bearer do.
pub struct DeskKey {
    /// The token that a request shows in its field `Desk-Key`.
    pub token: Text,
    /// What it lets its bearer do.
    pub role: Role,
}

impl Drop for DeskKey {
    fn drop(self) {
        let DeskKey { token: _, role: _ } = self;
    }
}

/// What a desk signs with.
pub struct Signing {
    /// The secrets that sign stamps and keys.
    pub secrets: StampSecrets,
    /// The signed keys that are ended before their last second.
    pub withdrawn: Vec<Withdrawn>,
}

impl Drop for Signing {
    fn drop(self) {
        let Signing {
            secrets: _,
            withdrawn: _,
        } = self;
    }
}

/// Why keys can't be the keys of a desk.
#[derive(Clone, Copy, PartialEq, Eq, Debug, Error)]
pub enum KeysError {
    /// A token isn't 16 to 64 of the characters `A` to `Z`, `a` to `z`, `0` to `9` and `-`.
    #[error("the token is not 16 to 64 of A-Z, a-z, 0-9 and -")]
    BadToken = 1,
    /// An earlier key has the same token.
    #[error("an earlier key has the same token")]
    TwiceKeyed = 2,
    /// Out of memory.
    #[error("out of memory")]
    Memory = 3,
}

impl From<AllocError> for KeysError {
    ghost use Rattle.std.specs.Prelude.{◌≡◌};
    ghost use Rattle.acct_desk.specs.declared.keys.KeysError.TheVariants.{Memory};

    ghost from_gives = { λ _ e. e ≡ Memory };

    fn from(_error: AllocError) -> KeysError {
        KeysError::Memory
    }
}

/// Keys with distinct tokens, what the desk signs with, and its paths. Every request is looked up
/// in them.
pub struct Keys {
    list: Vec<DeskKey>,
    // The place in the list of each token.
    places: BTreeMap<Vec<u8>, usize>,
    // Whether one of them is for logins.
    for_logins: bool,
    signing: Option<Signing>,
    router: Router<Endpoint>,
}

impl Drop for Keys {
    fn drop(self) {
        let Keys {
            list: _,
            places: _,
            for_logins: _,
            signing: _,
            router: _,
        } = self;
    }
}

impl Model for Keys {
    ghost use Rattle.acct_desk.specs.Keys.{KeysFacts};
    ghost use Rattle.acct_desk.specs.KeyFaults.{AreKeys};

    ghost Value = { KeysFacts };

    ghost view = { λ k. record { list = k.list.items; signing = k.signing } };

    ghost invariant = { λ k. AreKeys k.list.items k.places k.router k.for_logins };
}

impl Keys {
    /// No keys, with the desk's paths.
    ///
    /// # Errors
    ///
    /// Only `Memory`.
    pub fn none(alloc: Global) -> Result<Keys, KeysError>
        ensures none { IfOk result (λ keys. keys ≡ bare []) }
        ensures refused { IfErr result (λ error. error ≡ KeysError.Memory) }
    {
        match router(alloc) {
            Ok(router) => Ok(Keys {
                list: Vec::new(alloc),
                places: BTreeMap::new(alloc),
                for_logins: false,
                signing: None,
                router,
            }),
            Err(_) => Err(KeysError::Memory),
        }
    }

    /// The keys as they are given, if they have no fault.
    ///
    /// # Errors
    ///
    /// The first fault. Each key in its turn is tested for `BadToken`, and then for `TwiceKeyed`.
    /// `Memory` may be returned instead of either.
    pub fn new(alloc: Global, list: Vec<DeskKey>) -> Result<Keys, KeysError>
        ensures kept { IfOk result (λ keys. keys ≡ bare list.items) }
        ensures faultless { OnOk result (keys_fault list.items ≡ None) }
        ensures refused { IfErr result (IsKeysError (keys_fault list.items)) }
    {
        let mut keys = Keys::none(alloc)?;
        for key in list {
            keys.push(alloc, key)?;
        }
        Ok(keys)
    }

    /// Puts a key at the end, if it has no fault among those before it. Its cost grows with the
    /// logarithm of their number.
    ///
    /// # Errors
    ///
    /// The first of `BadToken` and `TwiceKeyed` that holds, and `Memory` only if neither does. An
    /// error leaves the keys as they were.
    pub fn push(&mut self, alloc: Global, key: DeskKey) -> Result<(), KeysError>
        ensures pushed { OnOk result (self.new ≡ record self.old { list = self.old.list ++ key ∷ [] }) }
        ensures faultless { OnOk result (key_fault self.old.list key ≡ None) }
        ensures refused { IfErr result (λ error.
            error ≡ fault_or KeysError.Memory (key_fault self.old.list key)) }
        ensures unchanged { OnErr result (self.new ≡ self.old) }
    {
        if let Some(fault) = self.fault_after(&key) {
            return Err(fault);
        }
        let is_for_logins = lets_logins(&key.role);
        place(alloc, &mut self.list, &mut self.places, key)?;
        self.for_logins = self.for_logins || is_for_logins;
        Ok(())
    }

    /// The same keys, of a desk that signs with this, or signs nothing.
    pub fn with_signing(self, signing: Option<Signing>) -> Keys
        ensures { result ≡ record self { signing = signing } }
    {
        let Keys {
            list,
            places,
            for_logins,
            signing: _,
            router,
        } = self;
        Keys {
            list,
            places,
            for_logins,
            signing,
            router,
        }
    }

    /// The value of a signed key that the desk takes, if it signs.
    ///
    /// # Errors
    ///
    /// Only if an allocation fails.
    pub fn signed_key(&self, alloc: Global, key: &SignedKey) -> Result<Option<String>, AllocError>
        ensures { IfOk result (λ value.
            option_map string_bytes value ≡ made_key self.now.signing key.now) }
    {
        match &self.signing {
            Some(signing) => Ok(Some(key.value(alloc, &signing.secrets.secret)?)),
            None => Ok(None),
        }
    }

    /// The keys in the order in which they were given.
    pub fn list(&self) -> &[DeskKey]
        ensures { result.now ≡ self.now.list }
    {
        &self.list
    }

    // What is wrong with a key that comes after these.
    fn fault_after(&self, key: &DeskKey) -> Option<KeysError>
        ensures { result ≡ key_fault self.now.list key.now }
    {
        let token = key.token.as_str();
        if !is_token(token) {
            return Some(KeysError::BadToken);
        }
        if self.places.contains_key(token.as_bytes()) {
            return Some(KeysError::TwiceKeyed);
        }
        None
    }

    // The role of the key that has a token. Its cost grows with the logarithm of the number of
    // keys.
    pub(crate) fn role_of(&self, token: &[u8]) -> Option<&Role>
        ensures { option_copied result ≡ role_at token.now self.now.list }
    {
        match self.places.get(token) {
            Some(place) => Some(&self.list[*place].role),
            None => None,
        }
    }

    // The endpoint at a path.
    pub(crate) fn endpoint_at(&self, path: &str) -> Option<Endpoint>
        ensures { result ≡ endpoint_of self.now path.now }
    {
        match endpoint_at(&self.router, path) {
            Some(endpoint) => Some(endpoint),
            None => self.added_endpoint(path),
        }
    }

    // What is at a path for which some key has to be there.
    fn added_endpoint(&self, path: &str) -> Option<Endpoint>
        ensures { result ≡ option_or (login_endpoint self.now path.now)
            (account_endpoint self.now path.now) }
    {
        match self.login_endpoint(path) {
            Some(endpoint) => Some(endpoint),
            None => self.account_endpoint(path),
        }
    }

    // The pages of any account, at a desk that shows accounts.
    fn account_endpoint(&self, path: &str) -> Option<Endpoint>
        ensures { result ≡ account_endpoint self.now path.now }
    {
        if account_path(path.as_bytes()).is_some() && self.shows_accounts() {
            Some(Endpoint::Accounts)
        } else {
            None
        }
    }

    // Whether the desk shows accounts. Its cost grows with the number of keys.
    fn shows_accounts(&self) -> bool
        ensures { result ≡ shows_accounts self.now }
    {
        self.list.iter().any(|key| lets_accounts(&key.role))
    }

    // What the site's front asks, at a desk that tells of logins.
    fn login_endpoint(&self, path: &str) -> Option<Endpoint>
        ensures { result ≡ login_endpoint self.now path.now }
    {
        if self.serves_logins() {
            front_endpoint(path.as_bytes())
        } else {
            None
        }
    }

    // Whether the desk tells of logins.
    fn serves_logins(&self) -> bool
        ensures { result ≡ serves_logins self.now }
    {
        self.signing.is_some() && self.for_logins
    }

    // What the desk signs with, if it signs.
    pub(crate) fn signing(&self) -> Option<&Signing>
        ensures { option_copied result ≡ self.now.signing }
    {
        self.signing.as_ref()
    }
}

// Whether a bearer may ask about logins.
fn lets_logins(role: &Role) -> bool
    ensures { result ≡ lets_logins role.now }
{
    matches!(role, Role::Logins)
}

// Whether a bearer may see the pages of any account.
fn lets_accounts(role: &Role) -> bool
    ensures { result ≡ lets_accounts role.now }
{
    matches!(role, Role::Clerk)
}

// Adds a key with a new token at the end of a list, and the token's place to the other places. If
// memory runs out, both stay as they were.
fn place(
    alloc: Global,
    list: &mut Vec<DeskKey>,
    places: &mut BTreeMap<Vec<u8>, usize>,
    key: DeskKey,
) -> Result<(), KeysError>
    requires placed { ArePlaces places.old list.old.items }
    requires new { list_any (has_token key.token) list.old.items ≡ false }
    ensures pushed { OnOk result (list.new.items ≡ list.old.items ++ key ∷ []) }
    ensures unchanged { OnErr result (list.new.items ≡ list.old.items) }
    ensures placed { ArePlaces places.new list.new.items }
    ensures refused { IfErr result (λ error. error ≡ KeysError.Memory) }
{
    let token = owned(alloc, key.token.as_str().as_bytes())?;
    let place = list.len();
    if list.push(key).is_err() {
        return Err(KeysError::Memory);
    }
    if places.insert(token, place).is_err() {
        // A key without a place could not be found.
        let _ = list.pop();
        return Err(KeysError::Memory);
    }
    Ok(())
}

// A copy of octets.
fn owned(alloc: Global, octets: &[u8]) -> Result<Vec<u8>, AllocError>
    ensures { IfOk result (λ copy. copy.items ≡ octets.now) }
{
    octets.to_vec(alloc)
}

// Whether a text may be a token.
fn is_token(token: &str) -> bool
    ensures { result ≡ is_token_text token.now }
{
    if token.len() < SHORTEST_TOKEN || token.len() > LONGEST_TOKEN {
        return false;
    }
    are_characters(token.as_bytes())
}

fn are_characters(octets: &[u8]) -> bool
    ensures { result ≡ list_all is_token_octet octets.now }
{
    octets.iter().all(|octet| is_character(*octet))
}

fn is_character(octet: u8) -> bool
    ensures { result ≡ is_token_octet octet }
{
    matches!(octet, b'A'..=b'Z' | b'a'..=b'z' | b'0'..=b'9' | b'-')
}
