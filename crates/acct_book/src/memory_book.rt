//! A book in memory: ordered maps, with the balances stored.
//!
//! 1. Each row is kept under its own key, and each top-up under its own number.
//! 2. An allocation that fails leaves all three maps as they were: a first insertion is taken back
//!    if the second fails.
//! 3. A balance that is kept already is set without memory.
ghost use Rattle.std.specs.Prelude.{◌≡◌, ℕ, List, Some, None, IsSome, OnOk, OnErr, IfOk, IsTrue};
ghost use Rattle.std.specs.Prelude.{bytes_eq, map, option_map, string_bytes};
ghost use Rattle.std.specs.List.{All, filter};
ghost use Rattle.std.specs.String.{string_cmp};
ghost use Rattle.std.specs.Option.{option_copied};
ghost use Rattle.std.specs.BTreeMap as tree;
ghost use Rattle.std.specs.BTreeMap.{IsUnchanged, Updates};
ghost use Rattle.std.specs.Map.{update};
ghost use Rattle.acct_book.specs.declared.key.Key.{Key};
ghost use Rattle.acct_book.specs.Content.{HasOwnKeys, same_key, rows_without, IsNone, key_of};
ghost use Rattle.acct_book.specs.Maps.{octets_cmp, key_cmp, content_from, balance_at};
ghost use Rattle.acct_book.specs.Walk.{IsNext};

use crate::book::{Book, Unavailable};
use crate::key::Key;
use crate::row::Row;
use acct_model::TopUp;
use std::alloc::{AllocError, Global};
use std::collections::BTreeMap;
use std::ops::Bound;

/// A book in memory. It is always sound, open and steady, and a crash leaves nothing of it.
///
/// A session, a balance, a voucher, the next member and a write cost a search, whose time grows
/// with the logarithm of the book. Closing a client's sessions and listing an account's rows or
/// top-ups go through all rows or all top-ups once.
pub struct MemBook {
    alloc: Global,
    rows: BTreeMap<Key, Row>,
    balances: BTreeMap<Vec<u8>, i64>,
    topups: BTreeMap<String, TopUp>,
    ghost own_keys: { HasOwnKeys (content_from rows balances topups) },
}

impl Drop for MemBook {
    fn drop(self) {
        let MemBook {
            alloc: _,
            rows: _,
            balances: _,
            topups: _,
        } = self;
    }
}

impl MemBook {
    ghost use Rattle.acct_book.specs.Content.{empty_content};

    /// An empty book, which takes its memory from `alloc` as it grows.
    pub fn new(alloc: Global) -> MemBook
        ensures { ⟦<MemBook as Book>⟧.content result ≡ empty_content }
    {
        MemBook {
            alloc,
            rows: BTreeMap::new(alloc),
            balances: BTreeMap::new(alloc),
            topups: BTreeMap::new(alloc),
        }
    }
}

impl Book for MemBook {
    ghost use Rattle.acct_book.specs.Memory.{content_of};

    ghost content = { content_of };

    ghost is_sound = { λ _. Unit {0} };

    ghost is_open = { λ _. Unit {0} };

    ghost is_steady = { λ _. Unit {0} };

    ghost left = { λ _ _. ⊥ };

    fn session(&mut self, key: &Key) -> Result<Option<Row>, Unavailable> {
        match self.rows.get(key) {
            None => Ok(None),
            Some(row) => Ok(Some(row.copy(self.alloc)?)),
        }
    }

    fn balance(&mut self, account: &[u8]) -> Result<i64, Unavailable> {
        Ok(self.balances.get(account).copied().unwrap_or(0))
    }

    fn voucher(&mut self, number: &str) -> Result<Option<TopUp>, Unavailable> {
        match self.topups.get(number) {
            None => Ok(None),
            Some(topup) => Ok(Some(copy_topup(self.alloc, topup)?)),
        }
    }

    fn put_session(&mut self, row: &Row, balance: i64) -> Result<(), Unavailable> {
        let key = row.key(self.alloc)?;
        let copy = row.copy(self.alloc)?;
        let account = row.account.as_slice();
        put_both(
            self.alloc,
            &mut self.rows,
            key,
            copy,
            &mut self.balances,
            account,
            balance,
        )
    }

    fn put_topup(&mut self, topup: &TopUp, balance: i64) -> Result<(), Unavailable> {
        let key = String::from_str(self.alloc, topup.voucher.as_str())?;
        let copy = copy_topup(self.alloc, topup)?;
        let account = topup.account.as_slice();
        put_both(
            self.alloc,
            &mut self.topups,
            key,
            copy,
            &mut self.balances,
            account,
            balance,
        )
    }

    fn close_client(&mut self, client: &str) -> Result<(), Unavailable> {
        self.rows.retain(|_, row| {
            row.close(client);
            true
        });
        Ok(())
    }

    fn put_forward(&mut self, gone: &[Key], row: &Row) -> Result<(), Unavailable> {
        let key = row.key(self.alloc)?;
        let copy = row.copy(self.alloc)?;
        put_alone(&mut self.rows, gone, key, copy)
    }

    fn sessions_of(&mut self, account: &[u8]) -> Result<Vec<Row>, Unavailable> {
        Ok(rows_of(self.alloc, &self.rows, account)?)
    }

    fn keys_of(&mut self, account: &[u8]) -> Result<Vec<Key>, Unavailable> {
        Ok(keys_to(self.alloc, &self.rows, account)?)
    }

    fn topups_of(&mut self, account: &[u8]) -> Result<Vec<TopUp>, Unavailable> {
        Ok(topups_to(self.alloc, &self.topups, account)?)
    }

    fn next_session(&mut self, after: Option<&Key>) -> Result<Option<Row>, Unavailable> {
        match entry_after(&self.rows, after) {
            None => Ok(None),
            Some((_, row)) => Ok(Some(row.copy(self.alloc)?)),
        }
    }

    fn next_account(
        &mut self,
        after: Option<&[u8]>,
    ) -> Result<Option<(Vec<u8>, i64)>, Unavailable> {
        match balance_after(self.alloc, &self.balances, after)? {
            None => Ok(None),
            Some((account, balance)) => Ok(Some((owned(self.alloc, account)?, *balance))),
        }
    }

    fn next_topup(&mut self, after: Option<&str>) -> Result<Option<TopUp>, Unavailable> {
        match topup_after(self.alloc, &self.topups, after)? {
            None => Ok(None),
            Some((_, topup)) => Ok(Some(copy_topup(self.alloc, topup)?)),
        }
    }

    ghost open_sound = { λ _ _. tt };

    ghost own_keys = { λ book _. book.own_keys };

    ghost settled = { λ _ _ _ none. absurd none };
}

// Sets a balance and another value, both or neither.
fn put_both<K: Ord + Drop, V: Drop>(
    alloc: Global,
    map: &mut BTreeMap<K, V>,
    key: K,
    value: V,
    balances: &mut BTreeMap<Vec<u8>, i64>,
    account: &[u8],
    balance: i64,
) -> Result<(), Unavailable>
    ensures map { OnOk result (Updates K.cmp map.old map.new key (Some value)) }
    ensures balances { OnOk result ((a : List ℕ) → balance_at balances.new a
        ≡ update bytes_eq (balance_at balances.old) account.now (Some balance) a) }
    ensures map_err { OnErr result (IsUnchanged map.old map.new) }
    ensures balances_err { OnErr result ((a : List ℕ) → balance_at balances.new a
        ≡ balance_at balances.old a) }
{
    let owned = owned(alloc, account)?;
    match balances.get(account) {
        Some(_) => put_known(map, key, value, balances, owned, balance),
        None => put_first(map, key, value, balances, owned, account, balance),
    }
}

// Sets a balance that is kept already, and another value. If an allocation fails, all is as before.
fn put_known<K: Ord + Drop, V: Drop>(
    map: &mut BTreeMap<K, V>,
    key: K,
    value: V,
    balances: &mut BTreeMap<Vec<u8>, i64>,
    account: Vec<u8>,
    balance: i64,
) -> Result<(), Unavailable>
    requires { IsSome (balance_at balances.old account.items) }
    ensures map { OnOk result (Updates K.cmp map.old map.new key (Some value)) }
    ensures balances { OnOk result ((a : List ℕ) → balance_at balances.new a
        ≡ update bytes_eq (balance_at balances.old) account.items (Some balance) a) }
    ensures map_err { OnErr result (IsUnchanged map.old map.new) }
    ensures balances_err { OnErr result (IsUnchanged balances.old balances.new) }
{
    match map.insert(key, value) {
        Ok(_) => (),
        Err(_) => return Err(Unavailable),
    }
    match balances.insert(account, balance) {
        Ok(_) => Ok(()),
        Err(_) => unreachable!(),
    }
}

// Sets a balance that is not kept yet, and another value. If the second insertion fails, the first
// is taken back.
fn put_first<K: Ord + Drop, V: Drop>(
    map: &mut BTreeMap<K, V>,
    key: K,
    value: V,
    balances: &mut BTreeMap<Vec<u8>, i64>,
    account: Vec<u8>,
    name: &[u8],
    balance: i64,
) -> Result<(), Unavailable>
    requires absent { balance_at balances.old name.now ≡ None }
    requires name { account.items ≡ name.now }
    ensures map { OnOk result (Updates K.cmp map.old map.new key (Some value)) }
    ensures balances { OnOk result ((a : List ℕ) → balance_at balances.new a
        ≡ update bytes_eq (balance_at balances.old) name.now (Some balance) a) }
    ensures map_err { OnErr result (IsUnchanged map.old map.new) }
    ensures balances_err { OnErr result ((a : List ℕ) → balance_at balances.new a
        ≡ balance_at balances.old a) }
{
    match balances.insert(account, balance) {
        Ok(_) => (),
        Err(_) => return Err(Unavailable),
    }
    match map.insert(key, value) {
        Ok(_) => Ok(()),
        Err(_) => {
            balances.remove(name);
            Err(Unavailable)
        }
    }
}

// Sets a row and then removes those of other keys, for which no memory is needed.
fn put_alone(
    rows: &mut BTreeMap<Key, Row>,
    gone: &[Key],
    key: Key,
    row: Row,
) -> Result<(), Unavailable>
    requires { IsNone gone.now key }
    ensures put { OnOk result ((k : Key) → tree.get key_cmp rows.new k
        ≡ update same_key (rows_without (tree.get key_cmp rows.old) gone.now) key (Some row) k) }
    ensures same { OnErr result (IsUnchanged rows.old rows.new) }
{
    match rows.insert(key, row) {
        Ok(_) => (),
        Err(_) => return Err(Unavailable),
    }
    take_out(rows, gone);
    Ok(())
}

// Removes the rows of these keys.
fn take_out(rows: &mut BTreeMap<Key, Row>, gone: &[Key])
    ensures { (k : Key) → tree.get key_cmp rows.new k
        ≡ rows_without (tree.get key_cmp rows.old) gone.now k }
{
    for key in gone {
        rows.remove(key);
    }
}

// The rows of an account, in the order of the map.
fn rows_of(alloc: Global, map: &BTreeMap<Key, Row>, account: &[u8]) -> Result<Vec<Row>, AllocError>
    ensures kept { IfOk result (λ rows. rows.items
        ≡ filter (λ row. bytes_eq account.now row.account) (tree.values map.now)) }
    ensures found { All (λ e. tree.get key_cmp map.now e.0 ≡ Some e.1) map.now.entries }
    ensures ordered { tree.IsOrdered key_cmp map.now }
{
    let mut rows = Vec::new(alloc);
    for (_, row) in map {
        if account == row.account.as_slice() {
            rows.push(row.copy(alloc)?)?;
        }
    }
    Ok(rows)
}

// The keys of the rows of an account, in the order of the map.
fn keys_to(alloc: Global, rows: &BTreeMap<Key, Row>, account: &[u8]) -> Result<Vec<Key>, AllocError>
    ensures kept { IfOk result (λ keys. keys.items
        ≡ map key_of (filter (λ row. bytes_eq account.now row.account) (tree.values rows.now))) }
    ensures found { All (λ e. tree.get key_cmp rows.now e.0 ≡ Some e.1) rows.now.entries }
    ensures ordered { tree.IsOrdered key_cmp rows.now }
{
    let mut keys = Vec::new(alloc);
    for (_, row) in rows {
        if account == row.account.as_slice() {
            keys.push(row.key(alloc)?)?;
        }
    }
    Ok(keys)
}

// The top-ups of an account, in the order of the map.
fn topups_to(
    alloc: Global,
    map: &BTreeMap<String, TopUp>,
    account: &[u8],
) -> Result<Vec<TopUp>, AllocError>
    ensures kept { IfOk result (λ topups. topups.items
        ≡ filter (λ topup. bytes_eq account.now topup.account) (tree.values map.now)) }
    ensures found { All (λ e. tree.get string_cmp map.now e.0 ≡ Some e.1) map.now.entries }
    ensures ordered { tree.IsOrdered string_cmp map.now }
{
    let mut topups = Vec::new(alloc);
    for (_, topup) in map {
        if account == topup.account.as_slice() {
            topups.push(copy_topup(alloc, topup)?)?;
        }
    }
    Ok(topups)
}

// The entry at the least account after the given one, or at the least of all. The map is searched
// by a key of its own type.
fn balance_after<'m>(
    alloc: Global,
    map: &'m BTreeMap<Vec<u8>, i64>,
    after: Option<&[u8]>,
) -> Result<Option<(&'m Vec<u8>, &'m i64)>, AllocError>
    ensures { IfOk result (λ next. IsNext octets_cmp (balance_at map.now)
        (option_copied after.entry) (option_map (λ e. (e.0.now.items, e.1.now)) next)) }
{
    let start = owned_start(alloc, after)?;
    Ok(entry_after(map, start.as_ref()))
}

// The entry at the least number after the given one, or at the least of all.
fn topup_after<'m>(
    alloc: Global,
    map: &'m BTreeMap<String, TopUp>,
    after: Option<&str>,
) -> Result<Option<(&'m String, &'m TopUp)>, AllocError>
    ensures { IfOk result (λ next. IsNext octets_cmp (tree.get_by_text map.now)
        (option_copied after.entry) (option_map (λ e. (string_bytes e.0.now, e.1.now)) next)) }
{
    let start = text_start(alloc, after)?;
    Ok(entry_after(map, start.as_ref()))
}

// The entry at the least key after the given one, or at the least of all: one search in the tree.
fn entry_after<'m, 'k, K: Ord + Drop, V>(
    map: &'m BTreeMap<K, V>,
    after: Option<&'k K>,
) -> Option<(&'m K, &'m V)>
    ensures { IsNext K.cmp (tree.get K.cmp map.now) (option_copied after.entry)
        (option_map (λ e. (e.0.now, e.1.now)) result) }
{
    let start = match after {
        None => Bound::Unbounded,
        Some(key) => Bound::Excluded(key),
    };
    map.range((start, Bound::Unbounded)).next()
}

// A copy of octets, if there are any.
fn owned_start(alloc: Global, after: Option<&[u8]>) -> Result<Option<Vec<u8>>, AllocError>
    ensures { IfOk result (λ start. option_map (λ k. k.items) start ≡ option_copied after.entry) }
{
    match after {
        None => Ok(None),
        Some(octets) => Ok(Some(owned(alloc, octets)?)),
    }
}

// A copy of a text, if there is one.
fn text_start(alloc: Global, after: Option<&str>) -> Result<Option<String>, AllocError>
    ensures { IfOk result (λ start. option_map (λ k. string_bytes k) start
        ≡ option_copied after.entry) }
{
    match after {
        None => Ok(None),
        Some(text) => Ok(Some(String::from_str(alloc, text)?)),
    }
}

// A copy of the top-up.
fn copy_topup(alloc: Global, topup: &TopUp) -> Result<TopUp, AllocError>
    ensures { IfOk result (λ copy. copy ≡ topup.now) }
{
    Ok(TopUp {
        voucher: topup.voucher.copy(alloc)?,
        account: topup.account.copy(alloc)?,
        sum: topup.sum,
        when: topup.when,
    })
}

// A copy of octets.
fn owned(alloc: Global, octets: &[u8]) -> Result<Vec<u8>, AllocError>
    ensures { IfOk result (λ copy. copy.items ≡ octets.now) }
{
    octets.to_vec(alloc)
}
