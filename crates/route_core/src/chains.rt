//! Chains through the items of a list by their codes, so that a look-up reads only the items that it may mean.

ghost use Rattle.std.specs.Prelude.{◌≡◌, ℕ, ◌+◌, ◌-◌, ◌%◌, ◌<◌, ◌≤◌, List, [], ◌∷◌, ◌++◌, OnOk, OnErr, IfOk, length, slice_index_or, vec_len, vec_capacity};
ghost use Rattle.route_core.specs.Chains.{IsLastOf, IsLastIn, IsLinked, code_from as code_from_octets};

use std::alloc::{AllocError, Global};
use std::marker::Model;

/// For each item of a list the item before it in its bucket of codes, and the last item of each bucket.
#[derive(Drop)]
pub(crate) struct Chains {
    /// The codes of the items.
    codes: Vec<u64>,
    /// For each item the place after the one before it in its bucket; 0 where there is none.
    before: Vec<usize>,
    /// For each bucket the place after its last item; 0 where there is none.
    heads: Vec<usize>,
    spare: usize,
}

impl Model for Chains {
    ghost use Rattle.route_core.specs.Chains.{ChainState, coded_chains, chains_of, IsChained};

    ghost Value = { ChainState };

    ghost coded = { coded_chains };

    ghost view = { chains_of };

    ghost invariant = { IsChained };
}

/// The code of a name or a key, from where an earlier one ended.
pub(crate) fn code_from(start: u64, text: &str) -> u64
    ensures { result ≡ code_from_octets start text.now }
{
    let mut code = start;
    for octet in text.as_bytes() {
        code = code
            .wrapping_mul(1_099_511_628_211)
            .wrapping_add(u64::from(*octet));
    }
    code
}

fn bucket_of(code: u64, width: usize) -> usize
    requires { 0 < width }
    ensures value { result ≡ code % width }
    ensures within { result < width }
{
    (code % width as u64) as usize
}

/// Puts the item at that place into its bucket, behind all before it.
fn link(codes: &[u64], before: &mut Vec<usize>, heads: &mut Vec<usize>, place: usize)
    requires wide { 0 < vec_len heads.old }
    requires there { place < length codes.now }
    requires even { vec_len before.old ≡ length codes.now }
    requires linked { IsLinked (vec_len heads.old) codes.now before.old.items heads.old.items place }
    ensures linked { IsLinked (vec_len heads.new) codes.now before.new.items heads.new.items (place + 1) }
    ensures width { vec_len heads.new ≡ vec_len heads.old }
    ensures even { vec_len before.new ≡ vec_len before.old }
    ensures room { vec_capacity before.new ≡ vec_capacity before.old }
{
    let bucket = bucket_of(codes[place], heads.len());
    before[place] = heads[bucket];
    heads[bucket] = place + 1;
}

/// Puts each item into its bucket; the buckets are empty before.
fn link_all(codes: &[u64], before: &mut Vec<usize>, heads: &mut Vec<usize>)
    requires wide { 0 < vec_len heads.old }
    requires even { vec_len before.old ≡ length codes.now }
    requires empty { IsLinked (vec_len heads.old) codes.now before.old.items heads.old.items 0 }
    ensures linked { IsLinked (vec_len heads.new) codes.now before.new.items heads.new.items (length codes.now) }
    ensures width { vec_len heads.new ≡ vec_len heads.old }
    ensures even { vec_len before.new ≡ vec_len before.old }
    ensures room { vec_capacity before.new ≡ vec_capacity before.old }
{
    for place in 0..codes.len() {
        link(codes, before, heads, place);
    }
}

/// The last item of the code on the chain that begins there.
fn seek(codes: &[u64], before: &[usize], heads: &[usize], code: u64, from: usize) -> usize
    requires even { length before.now ≡ length codes.now }
    requires linked { IsLinked (length heads.now) codes.now before.now heads.now (length codes.now) }
    requires within { from ≤ length codes.now }
    ensures { (below : ℕ) → below ≤ length codes.now → IsLastIn (length heads.now) (code % length heads.now) codes.now below from → IsLastOf code codes.now below result }
{
    let mut at = from;
    while at > 0 {
        if codes[at - 1] == code {
            return at;
        }
        at = before[at - 1];
    }
    0
}

impl Chains {
    /// No items, in a few buckets.
    pub(crate) fn new(alloc: Global) -> Result<Self, AllocError>
        ensures codes { IfOk result (λ chains. chains.codes ≡ []) }
        ensures spare { IfOk result (λ chains. chains.spare ≡ 0) }
    {
        Ok(Chains {
            codes: Vec::new(alloc),
            before: Vec::new(alloc),
            heads: vec![in alloc; 0usize; 16]?,
            spare: 0,
        })
    }

    /// The place after the last item of the code; 0 where there is none.
    pub(crate) fn last(&self, code: u64) -> usize
        ensures { IsLastOf code self.now.codes (length self.now.codes) result }
    {
        let bucket = bucket_of(code, self.heads.len());
        seek(
            &self.codes,
            &self.before,
            &self.heads,
            code,
            self.heads[bucket],
        )
    }

    /// The place after the one before this item that has its code; 0 where there is none.
    pub(crate) fn before(&self, place: usize) -> usize
        requires { place < length self.now.codes }
        ensures { IsLastOf (slice_index_or self.now.codes place 0) self.now.codes place result }
    {
        seek(
            &self.codes,
            &self.before,
            &self.heads,
            self.codes[place],
            self.before[place],
        )
    }

    /// Takes memory ahead for so many items.
    pub(crate) fn reserve(&mut self, more: usize) -> Result<(), AllocError>
        ensures codes { self.new.codes ≡ self.old.codes }
        ensures kept { self.old.spare ≤ self.new.spare }
        ensures spare { OnOk result (more ≤ self.new.spare) }
    {
        let wanted = self.codes.len().saturating_add(more);
        if self.heads.len() < wanted {
            self.widen(wanted)?;
        }
        self.codes.reserve(more)?;
        self.before.reserve(more)?;
        self.spare = self.spare.max(more);
        Ok(())
    }

    /// Makes as many buckets, and at least twice as many as there were, so that growing costs little for each item.
    fn widen(&mut self, wanted: usize) -> Result<(), AllocError>
        ensures codes { self.new.codes ≡ self.old.codes }
        ensures spare { self.new.spare ≡ self.old.spare }
    {
        let width = wanted.max(self.heads.len().saturating_mul(2));
        let mut heads = vec![in *self.heads.allocator(); 0usize; width]?;
        link_all(&self.codes, &mut self.before, &mut heads);
        self.heads = heads;
        Ok(())
    }

    /// Adds an item. Takes no memory.
    pub(crate) fn push(&mut self, code: u64)
        requires { 0 < self.old.spare }
        ensures codes { self.new.codes ≡ self.old.codes ++ code ∷ [] }
        ensures spare { self.new.spare + 1 ≡ self.old.spare }
    {
        let place = self.codes.len();
        match self.codes.push(code) {
            Ok(()) => {}
            Err(_) => unreachable!(),
        }
        match self.before.push(0) {
            Ok(()) => {}
            Err(_) => unreachable!(),
        }
        link(&self.codes, &mut self.before, &mut self.heads, place);
        self.spare -= 1;
    }

    /// Removes all items, and keeps their room.
    pub(crate) fn clear(&mut self)
        ensures codes { self.new.codes ≡ [] }
        ensures spare { self.new.spare ≡ self.old.spare + length self.old.codes }
    {
        self.spare += self.codes.len();
        self.codes.clear();
        self.before.clear();
        empty(&mut self.heads);
    }
}

/// Empties each bucket.
fn empty(heads: &mut Vec<usize>)
    ensures width { vec_len heads.new ≡ vec_len heads.old }
    ensures empty { (q : ℕ) → q < vec_len heads.new → slice_index_or heads.new.items q 0 ≡ 0 }
{
    for bucket in 0..heads.len() {
        heads[bucket] = 0;
    }
}
