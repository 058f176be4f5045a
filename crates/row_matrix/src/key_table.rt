// Numbers for module monomials.
ghost use Rattle.std.specs.Prelude.{◌≡◌, ◌<◌, ◌≤◌, ◌+◌, ◌++◌, ◌*◌, ◌^◌, ◌↔◌, List, true, [], ◌∷◌, ◌⊎◌, ℕ, cond, fold, length, get_or};
ghost use Rattle.std.specs.Prelude.{IfErr, IfOk, IfSome, IfNone, IsTrue, OnOk, OnErr};
ghost use Rattle.std.specs.Vec.{vec_len, vec_capacity};
ghost use Rattle.formal_sums.specs.FormalSums.{Each};
ghost use Rattle.term_lists.specs.Vectors.{HasVariables};
ghost use Rattle.monomial_orders.specs.Monomials.{StopsAbove};
ghost use Rattle.row_matrix.specs.Hashes.{AreDistinctKeys, Lacks, IsChained, IsTable, IsNumbered};
ghost use Rattle.row_matrix.specs.Hashes.{bucket_of, digit_base, factor_hash, hash_behind, hash_of, hash_step};
ghost use Rattle.row_matrix.specs.Hashes.{no_key, key_product, sums, term_hashes};
ghost use Rattle.row_matrix.specs.Naming.{IsPartOfProduct};
ghost use Rattle.row_matrix.specs.Told.{AreTold, AreToldWith, FitsDigits, IsToldKey, TellsProduct};

use crate::{TermHashes, kept_number};
use module_vectors::{Key, NoMemory};
use monomial_orders::{Mono, MonoStop};
use std::alloc::Global;
use std::marker::Model;

// An odd number with its bits spread, for hashing by multiplication (Knuth, *The Art of Computer Programming*, volume
// 3, section 6.4).
const SPREAD: u64 = 11400714819323198485;

// Exponents are hashed as digits to this base, by which a multiplication is a shift and a subtraction.
const DIGIT: u64 = 31;

// A digit has at most so many bits. While those of the position and of all exponents are 64 or fewer, the hash tells the key.
const DIGIT_BITS: u32 = 5;

// The same for shorter digits, which leave room for a position where there are too many variables for the others.
const SHORT_DIGIT: u64 = 7;

const SHORT_DIGIT_BITS: u32 = 3;

// There are no fewer buckets than these.
const FIRST_BUCKETS: usize = 64;

// Room for so many keys is there from the start where nobody knows better: as many as have the first buckets.
const FIRST_KEYS: usize = 32;

// The greatest degree of a product.
const MAX_DEGREE: u128 = 65535;

// Are exponents hashed as short digits, in so many variables?
fn are_short(n: usize) -> bool
    ensures { digit_base n ≡ cond result 7 31 }
{
    12 < n && n < 16
}

// The exponents as digits to this base behind this number.
fn hash_digits(base: u64, start: u64, exponents: &[u16]) -> u64
    ensures { result ≡ fold (hash_step base) start exponents.now }
{
    let mut hash = start;
    for exponent in exponents {
        hash = hash.wrapping_mul(base).wrapping_add(u64::from(*exponent));
    }
    hash
}

// The exponents as digits behind this number. A call for each base, so that each loop multiplies by a constant.
fn hash_exponents(start: u64, exponents: &[u16]) -> u64
    ensures { result ≡ hash_behind start exponents.now }
{
    if are_short(exponents.len()) {
        return hash_digits(SHORT_DIGIT, start, exponents);
    }
    hash_digits(DIGIT, start, exponents)
}

/// The hash by which a key is found.
pub fn hash_of_key(key: &Key) -> u64
    ensures { result ≡ hash_of key.now }
{
    hash_exponents(key.position, key.monomial.exponents())
}

/// What a monomial adds to a key's hash when it multiplies the key: hashes are linear in the exponents.
pub fn hash_of_factor(t: &Mono) -> u64
    ensures { result ≡ factor_hash t.now }
{
    hash_exponents(0, t.exponents())
}

// Are these the sums of the others, place by place?
fn are_sums(places: &[u16], left: &[u16], right: &[u16]) -> bool
    requires { length left.now ≡ length right.now }
    ensures { IsTrue result ↔ (places.now ≡ sums left.now right.now) }
{
    if places.len() != left.len() {
        return false;
    }
    for k in 0..left.len() {
        if u32::from(places[k]) != u32::from(left[k]) + u32::from(right[k]) {
            return false;
        }
    }
    true
}

// Is the degree a digit to this base, and do so many digits, each of so many bits, have room behind the position?
fn are_digits(base: u64, bits: u32, position: u64, degree: u128, n: usize) -> bool
    requires some { 0 < bits }
    requires bits { base ≤ 2 ^ bits }
    ensures { IsTrue result → ((position + 1) * base ^ n ≤ 2 ^ 64) × (degree < base) }
{
    if degree < u128::from(base) {
        return n <= (position.leading_zeros() / bits) as usize;
    }
    false
}

// Does the hash alone tell a key of this degree and position, in so many variables?
fn is_told(position: u64, degree: u128, n: usize) -> bool
    ensures { IsTrue result → FitsDigits n position × (degree < digit_base n) }
{
    if are_short(n) {
        return are_digits(SHORT_DIGIT, SHORT_DIGIT_BITS, position, degree, n);
    }
    are_digits(DIGIT, DIGIT_BITS, position, degree, n)
}

// Is it one of the keys that their hashes tell?
fn is_told_key(key: &Key) -> bool
    ensures { IsTrue result → IsToldKey key.now }
{
    key.monomial.bounds();
    is_told(
        key.position,
        key.monomial.degree(),
        key.monomial.variables(),
    )
}

// Is the first one, which has the hash of the product of the monomial and the other key, that product?
fn is_product(product: &Key, t: &Mono, key: &Key) -> bool
    requires variables { length t.now.exponents ≡ length key.now.monomial.exponents }
    requires hash { hash_of product.now ≡ hash_of (key_product t.now key.now) }
    ensures { IsTrue result ↔ (product.now ≡ key_product t.now key.now) }
{
    if product.position != key.position {
        return false;
    }
    let degree = t.degree() + key.monomial.degree();
    if product.monomial.degree() != degree {
        return false;
    }
    let n = t.variables();
    if product.monomial.variables() != n {
        return false;
    }
    product.monomial.bounds();
    t.bounds();
    key.monomial.bounds();
    if is_told(key.position, degree, n) {
        return true;
    }
    are_sums(
        product.monomial.exponents(),
        t.exponents(),
        key.monomial.exponents(),
    )
}

// The bucket of a hash.
fn bucket(count: usize, hash: u64) -> usize
    requires { 0 < count }
    ensures value { result ≡ bucket_of count hash }
    ensures within { result < count }
{
    let spread = hash.wrapping_mul(SPREAD);
    ((u128::from(spread) * count as u128) >> 64) as usize
}

/// Module monomials, each with its number, from 0. No key has two numbers.
pub struct KeyTable {
    keys: Vec<Key>,
    hashes: Vec<u64>,
    // for each key 1 and the number of the last one before it in its bucket, or 0
    earlier: Vec<u32>,
    // for each bucket 1 and the number of its last key, or 0
    last: Vec<u32>,
    // whether all are keys that their hashes tell
    told: bool,
}

// By hand, so that each drop of one is a call.
impl Drop for KeyTable {
    fn drop(self) {
        let KeyTable {
            keys: _,
            hashes: _,
            earlier: _,
            last: _,
            told: _,
        } = self;
    }
}

impl Model for KeyTable {
    ghost use Rattle.std.specs.Prelude.{List, true, ◌≡◌};
    ghost use Rattle.term_lists.specs.declared.key.Key.{Key};
    ghost use Rattle.row_matrix.specs.Hashes.{IsTable};
    ghost use Rattle.row_matrix.specs.Told.{AreTold};

    ghost Value = { List Key };

    ghost view = { λ t. t.keys.items };

    ghost invariant = { λ t. IsTable t.keys.items t.hashes.items t.earlier.items t.last.items × (t.told ≡ true → AreTold t.keys.items) };
}

// Chains the keys, whose hashes these are, in fresh buckets, all empty.
fn chain_all(hashes: &[u64], earlier: &mut Vec<u32>, last: &mut Vec<u32>)
    requires some { 0 < vec_len last.old }
    requires few { length hashes.now ≤ 4294967295 }
    requires lengths { vec_len earlier.old ≡ length hashes.now }
    requires empty { (b : ℕ) → get_or last.old.items b 0 ≡ 0 }
    ensures chained { IsChained (vec_len last.new) (length hashes.now) hashes.now earlier.new.items last.new.items }
    ensures count { vec_len last.new ≡ vec_len last.old }
    ensures lengths { vec_len earlier.new ≡ length hashes.now }
{
    for i in 0..hashes.len() {
        let at = bucket(last.len(), hashes[i]);
        earlier[i] = last[at];
        last[at] = (i + 1) as u32;
    }
}

// The number of the product of the monomial and the key, which has this hash.
fn find(
    keys: &[Key],
    hashes: &[u64],
    earlier: &[u32],
    last: &[u32],
    hash: u64,
    t: &Mono,
    key: &Key,
) -> Option<usize>
    requires table { IsTable keys.now hashes.now earlier.now last.now }
    requires variables { length t.now.exponents ≡ length key.now.monomial.exponents }
    requires hash { hash ≡ hash_of (key_product t.now key.now) }
    ensures some { IfSome result (λ i. (i < length keys.now) × (get_or keys.now i no_key ≡ key_product t.now key.now)) }
    ensures none { IfNone result (Lacks keys.now (key_product t.now key.now)) }
{
    let mut cursor = last[bucket(last.len(), hash)];
    while cursor > 0 {
        let i = cursor as usize - 1;
        if hashes[i] == hash {
            if is_product(&keys[i], t, key) {
                return Some(i);
            }
        }
        cursor = earlier[i];
    }
    None
}

// The number of a key with this hash, if there is one.
fn find_hash(hashes: &[u64], earlier: &[u32], last: &[u32], hash: u64) -> Option<usize>
    requires some { 0 < length last.now }
    requires chained { IsChained (length last.now) (length hashes.now) hashes.now earlier.now last.now }
    requires lengths { length earlier.now ≡ length hashes.now }
    ensures { IfSome result (λ i. (i < length hashes.now) × (get_or hashes.now i 0 ≡ hash)) }
{
    let mut cursor = last[bucket(last.len(), hash)];
    while cursor > 0 {
        let i = cursor as usize - 1;
        if hashes[i] == hash {
            return Some(i);
        }
        cursor = earlier[i];
    }
    None
}

// Puts the key at the end, into its bucket. After an error all is as before.
fn append(
    keys: &mut Vec<Key>,
    hashes: &mut Vec<u64>,
    earlier: &mut Vec<u32>,
    last: &mut Vec<u32>,
    hash: u64,
    key: Key,
) -> Result<(), NoMemory>
    requires table { IsTable keys.old.items hashes.old.items earlier.old.items last.old.items }
    requires hash { hash ≡ hash_of key }
    requires lacks { Lacks keys.old.items key }
    ensures table { IsTable keys.new.items hashes.new.items earlier.new.items last.new.items }
    ensures ok { OnOk result (keys.new.items ≡ keys.old.items ++ key ∷ []) }
    ensures err { OnErr result (keys.new.items ≡ keys.old.items) }
{
    let count = kept_number(keys.len() + 1)?;
    keys.reserve(1)?;
    hashes.reserve(1)?;
    earlier.reserve(1)?;
    let at = bucket(last.len(), hash);
    let before = last[at];
    last[at] = count;
    earlier.push_reserved(before);
    hashes.push_reserved(hash);
    keys.push_reserved(key);
    Ok(())
}

// Takes four buckets to a key where there are no more than two: then the first key in a bucket is mostly the one that is
// looked for, and a step along a chain is rare. After an error all is as before.
fn widen(
    alloc: Global,
    keys: &[Key],
    hashes: &[u64],
    earlier: &mut Vec<u32>,
    last: &mut Vec<u32>,
) -> Result<(), NoMemory>
    requires table { IsTable keys.now hashes.now earlier.old.items last.old.items }
    ensures table { IsTable keys.now hashes.now earlier.new.items last.new.items }
{
    if last.len() > 2 * keys.len() {
        return Ok(());
    }
    let mut wide = vec![in alloc; 0; 4 * keys.len() + FIRST_BUCKETS]?;
    chain_all(hashes, earlier, &mut wide);
    *last = wide;
    Ok(())
}

impl KeyTable {
    /// No keys.
    pub fn new(alloc: Global) -> Result<KeyTable, NoMemory>
        ensures { IfOk result (λ t. t ≡ []) }
    {
        KeyTable::with_room(alloc, FIRST_KEYS)
    }

    /// No keys, and room for so many: nothing is moved before there are more.
    pub fn with_room(alloc: Global, count: usize) -> Result<KeyTable, NoMemory>
        ensures { IfOk result (λ t. t ≡ []) }
    {
        Ok(KeyTable {
            keys: Vec::with_capacity(alloc, count)?,
            hashes: Vec::with_capacity(alloc, count)?,
            earlier: Vec::with_capacity(alloc, count)?,
            last: vec![in alloc; 0; count.saturating_mul(2).max(FIRST_BUCKETS)]?,
            told: true,
        })
    }

    /// The keys, in the order of their numbers.
    pub fn keys(&self) -> &[Key]
        ensures keys { result.now ≡ self.now }
        ensures apart { AreDistinctKeys result.now }
    {
        &self.keys
    }

    /// The keys, in the order of their numbers, without taking memory.
    pub fn into_keys(self) -> Vec<Key>
        ensures keys { result.items ≡ self }
        ensures apart { AreDistinctKeys result.items }
    {
        let KeyTable {
            keys,
            hashes: _,
            earlier: _,
            last: _,
            told: _,
        } = self;
        keys
    }

    /// The number of keys.
    pub fn len(&self) -> usize
        ensures { result ≡ length self.now }
    {
        self.keys.len()
    }

    // Puts a key with this hash at the end, and gives its number. After an error the table is as before.
    fn put(&mut self, alloc: Global, hash: u64, key: Key) -> Result<usize, NoMemory>
        requires hash { hash ≡ hash_of key }
        requires lacks { Lacks self.old key }
        ensures ok { IfOk result (IsNumbered self.old self.new key) }
        ensures err { OnErr result (self.new ≡ self.old) }
    {
        widen(
            alloc,
            &self.keys,
            &self.hashes,
            &mut self.earlier,
            &mut self.last,
        )?;
        let i = self.keys.len();
        let told = self.told && is_told_key(&key);
        append(
            &mut self.keys,
            &mut self.hashes,
            &mut self.earlier,
            &mut self.last,
            hash,
            key,
        )?;
        self.told = told;
        Ok(i)
    }

    /// Do hashes tell all these keys and the products of the monomial with keys of no greater position and degree? Then a key with a
    /// product's hash is the product.
    pub fn tells(&self, t: &Mono, position: u64, degree: u128) -> bool
        requires { degree < 4294967296 }
        ensures { IsTrue result → AreToldWith self.now t.now position degree }
    {
        t.bounds();
        if self.told {
            return is_told(position, t.degree() + degree, t.variables());
        }
        false
    }

    /// Goes on with the row t v: pushes the entries of the terms behind those that have one, up to the first term whose
    /// product's hash no key has. Where hashes do not tell the products, it pushes none. `added` is what t adds to a
    /// hash (`hash_of_factor`), `hashes` are those of v's keys.
    pub(crate) fn push_known(
        &self,
        told: bool,
        t: &Mono,
        added: u64,
        v: &[(Key, u32)],
        hashes: &[u64],
        mut entries: Vec<(u32, u32)>,
    ) -> Vec<(u32, u32)>
        requires told { told ≡ true → Each (λ u. TellsProduct self.now t.now u.0) v.now }
        requires variables { Each (HasVariables (length t.now.exponents)) v.now }
        requires added { added ≡ factor_hash t.now }
        requires hashes { hashes.now ≡ term_hashes v.now }
        requires within { length entries.items ≤ length v.now }
        requires room { length v.now ≤ vec_capacity entries }
        ensures part { (start : List Key) → IsPartOfProduct start self.now t.now v.now entries.items
            → IsPartOfProduct start self.now t.now v.now result.items }
        ensures longer { length entries.items ≤ length result.items }
        ensures within { length result.items ≤ length v.now }
        ensures room { length v.now ≤ vec_capacity result }
    {
        if !told {
            return entries;
        }
        // Slices taken once, and entries that are the loop's own: no store can change them, so nothing is read again.
        let known: &[u64] = &self.hashes;
        let earlier: &[u32] = &self.earlier;
        let last: &[u32] = &self.last;
        for i in entries.len()..v.len() {
            match find_hash(known, earlier, last, hashes[i].wrapping_add(added)) {
                None => return entries,
                Some(number) => entries.push_reserved((number as u32, v[i].1)),
            }
        }
        entries
    }

    /// The number of the product of the monomial and the key, which is made and put at the end only where it has none
    /// yet. `added` is what the monomial adds to a hash (`hash_of_factor`), `hash` the key's (`hash_of_key`). `Degree`
    /// where the product's degree is above 65,535. After an error the table is as before.
    pub fn number_of_product(
        &mut self,
        alloc: Global,
        t: &Mono,
        added: u64,
        key: &Key,
        hash: u64,
    ) -> Result<usize, MonoStop>
        requires variables { length t.now.exponents ≡ length key.now.monomial.exponents }
        requires added { added ≡ factor_hash t.now }
        requires hash { hash ≡ hash_of key.now }
        ensures ok { IfOk result (IsNumbered self.old self.new (key_product t.now key.now)) }
        ensures small { OnOk result (t.now.degree + key.now.monomial.degree ≤ 65535) }
        ensures err { OnErr result (self.new ≡ self.old) }
        ensures stop { IfErr result (StopsAbove (t.now.degree + key.now.monomial.degree)) }
    {
        if t.degree() + key.monomial.degree() > MAX_DEGREE {
            return Err(MonoStop::Degree);
        }
        let sum = hash.wrapping_add(added);
        if let Some(i) = find(
            &self.keys,
            &self.hashes,
            &self.earlier,
            &self.last,
            sum,
            t,
            key,
        ) {
            return Ok(i);
        }
        let product = Key {
            position: key.position,
            monomial: Mono::mul(alloc, t, &key.monomial)?,
        };
        match self.put(alloc, sum, product) {
            Ok(i) => Ok(i),
            Err(_) => Err(MonoStop::Memory),
        }
    }

    /// The same where hashes may tell the product, as `tells` has it: then no key is compared.
    pub fn number_of_told_product(
        &mut self,
        alloc: Global,
        told: bool,
        t: &Mono,
        added: u64,
        key: &Key,
        hash: u64,
    ) -> Result<usize, MonoStop>
        requires variables { length t.now.exponents ≡ length key.now.monomial.exponents }
        requires told { told ≡ true → TellsProduct self.old t.now key.now }
        requires added { added ≡ factor_hash t.now }
        requires hash { hash ≡ hash_of key.now }
        ensures ok { IfOk result (IsNumbered self.old self.new (key_product t.now key.now)) }
        ensures small { OnOk result (t.now.degree + key.now.monomial.degree ≤ 65535) }
        ensures err { OnErr result (self.new ≡ self.old) }
        ensures stop { IfErr result (StopsAbove (t.now.degree + key.now.monomial.degree)) }
    {
        if told {
            let sum = hash.wrapping_add(added);
            let found = find_hash(&self.hashes, &self.earlier, &self.last, sum);
            if let Some(i) = found {
                return Ok(i);
            }
        }
        self.number_of_product(alloc, t, added, key, hash)
    }
}
