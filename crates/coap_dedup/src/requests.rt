//! The requests in the exchange table, and an index of them.
ghost use Rattle.std.specs.Prelude.{◌≡◌, ◌+◌, ◌%◌, ◌<◌, ◌≤◌, [], ◌∷◌, ◌++◌, ℕ, None, Some, drop, filter, find, length, nat_lt, option_map, slice_get, IfOk, IfErr, IfSome};
ghost use Rattle.circular_buffer.specs.Buffer.{buffer};
ghost use Rattle.std.specs.FinMap.{entries, keys};
ghost use Rattle.coap_dedup.specs.Keys.{AreBytes};
ghost use Rattle.coap_dedup.specs.Requests.{IsGap, IsOldest, IsStart, LiesBetween, by_key, has_key};
ghost use Rattle.coap_dedup.specs.Views.{InOrder, is_of_address, request_is_live};

use crate::exchange::{Opened, is_live};
use crate::key::{Comparisons, Key};
use circular_buffer::HeapCircularBuffer;
use std::alloc::{AllocError, Global};
use std::cmp::Ordering;
use std::marker::Model;

/// An insertion point: the index at which an absent key would be.
#[derive(Clone, Copy)]
pub(crate) struct InsertHint {
    key: Key,
    index: usize,
}

/// The stored requests in order of arrival, and an index in the order of keys.
///
/// The insertion point of the last key that wasn't found is cached, so that its request is inserted
/// without a second search. A search begins at the index at which the latest request was inserted.
///
/// Only [`Requests::new`] allocates memory.
#[derive(Drop)]
pub(crate) struct Requests {
    ring: HeapCircularBuffer<Opened>,
    index: Vec<u16>,
    gap: Option<InsertHint>,
    // The index at which the latest request was inserted. A search is right for any value.
    latest: usize,
}

impl Model for Requests {
    ghost use Rattle.circular_buffer.specs.Buffer.{Buffer};
    ghost use Rattle.coap_dedup.specs.declared.exchange.Opened.{Opened};
    ghost use Rattle.coap_dedup.specs.Requests.{AreRequests, HasGap};

    ghost Value = { Buffer Opened };

    ghost view = { λ x. x.ring };

    ghost invariant = { λ x. AreRequests x.ring x.index × HasGap x.ring.items x.gap };
}

impl Requests {
    // Makes an empty buffer with room for `capacity` requests. Returns `AllocError` if memory can't
    // be allocated.
    pub(crate) fn new(alloc: Global, capacity: usize) -> Result<Requests, AllocError>
        requires { capacity ≤ 65536 }
        ensures { IfOk result (λ x. x ≡ buffer [] capacity) }
    {
        Ok(Requests {
            ring: HeapCircularBuffer::with_capacity(alloc, capacity)?,
            index: Vec::with_capacity(alloc, capacity)?,
            gap: None,
            latest: 0,
        })
    }

    // Returns how many requests are stored, within their lifetime or past it.
    pub(crate) fn len(&self) -> usize
        ensures { result ≡ length self.now.items }
    {
        self.ring.len()
    }

    // Returns the stored request that arrived after `after` others, or `None` if there is none.
    pub(crate) fn get(&self, after: usize) -> Option<Opened>
        ensures { result ≡ slice_get self.now.items after }
    {
        self.ring.get(after).copied()
    }

    // Returns the request with this key, after at most 17 comparisons of keys, or 11 for at most
    // 1,024 requests. If there is none, returns `None` and caches the key's insertion point.
    pub(crate) fn find(&mut self, key: &Key, comparisons: &mut Comparisons) -> Option<Opened>
        requires { comparisons.old ≡ 0 }
        ensures found { result ≡ find (has_key key.now) self.old.items }
        ensures same { self.new ≡ self.old }
        ensures most { comparisons.new ≤ 17 }
        ensures few { length self.old.items ≤ 1024 → comparisons.new ≤ 11 }
    {
        match self.search(key, comparisons) {
            Ok(index) => Some(*self.at(self.first(), index)),
            Err(index) => {
                self.gap = Some(InsertHint { key: *key, index });
                None
            }
        }
    }

    // Appends a new request, which arrived last; the caller guarantees room for it.
    pub(crate) fn push(&mut self, request: Opened)
        requires room { length self.old.items < self.old.capacity }
        requires new { find (has_key request.key) self.old.items ≡ None }
        requires order { InOrder (self.old.items ++ request ∷ []) }
        ensures { self.new ≡ buffer (self.old.items ++ request ∷ []) self.old.capacity }
    {
        let index = self.gap_for(&request.key);
        self.gap = None;
        self.latest = index;
        let _has_room = self.index.insert(index, low_bits(request.number));
        self.ring.push_back(request);
    }

    // Returns the insertion point of a key that no request has. It is usually cached.
    fn gap_for(&self, key: &Key) -> usize
        requires { find (has_key key.now) self.now.items ≡ None }
        ensures { IsGap (keys (by_key self.now.items)) key.now result }
    {
        if let Some(index) = self.known_gap(key) {
            return index;
        }
        match self.search(key, &mut Comparisons::none()) {
            Ok(index) | Err(index) => index,
        }
    }

    // Returns the cached insertion point, or `None` if there is none for this key.
    fn known_gap(&self, key: &Key) -> Option<usize>
        ensures { IfSome result (IsGap (keys (by_key self.now.items)) key.now) }
    {
        let gap = self.gap?;
        match gap.key.order(key, &mut Comparisons::none()) {
            Ordering::Equal => Some(gap.index),
            _ => None,
        }
    }

    // Expires requests past their lifetime, the oldest first.
    pub(crate) fn expire(&mut self, now: u64)
        ensures { self.new ≡ buffer (filter (request_is_live now) self.old.items) self.old.capacity }
    {
        'oldest: while let Some(oldest) = self.ring.front() {
            if is_live(now, oldest) {
                return;
            }
            let key = oldest.key;
            self.pop(key);
        }
    }

    // Returns how many requests are within their lifetime.
    pub(crate) fn live_at(&self, now: u64) -> usize
        ensures { result ≡ length (filter (request_is_live now) self.now.items) }
    {
        self.ring
            .iter()
            .filter(|opened| is_live(now, opened))
            .count()
    }

    // Removes the oldest request, which has this key. The function isn't inlined, since its caller
    // usually finds that no request has expired.
    #[inline(never)]
    fn pop(&mut self, key: Key)
        requires { option_map (λ o. o.key) (slice_get self.old.items 0) ≡ Some key }
        ensures { self.new ≡ buffer (drop 1 self.old.items) self.old.capacity }
    {
        if let Ok(index) = self.search(&key, &mut Comparisons::none()) {
            self.index.remove(index);
        }
        self.gap = None;
        self.ring.pop_front();
    }

    // Returns the index, in the order of keys, of the request with this key, or, as an error, the
    // key's insertion point in that order. `comparisons` counts the comparisons of keys. The key of
    // the latest new request is compared first: the next key of the same client is often near it.
    fn search(&self, key: &Key, comparisons: &mut Comparisons) -> Result<usize, usize>
        requires { comparisons.old ≡ 0 }
        ensures found { IfOk result (λ i. slice_get (keys (by_key self.now.items)) i ≡ Some key.now) }
        ensures absent { IfErr result (IsGap (keys (by_key self.now.items)) key.now) }
        ensures most { comparisons.new ≤ 17 }
        ensures few { length self.now.items ≤ 1024 → comparisons.new ≤ 11 }
    {
        let len = self.index.len();
        if len == 0 {
            return Err(0);
        }
        let latest = self.latest.min(len - 1);
        match self.at(self.first(), latest).key.order(key, comparisons) {
            Ordering::Less => self.search_between(latest + 1, len, key, comparisons),
            Ordering::Equal => Ok(latest),
            Ordering::Greater => self.search_between(0, latest, key, comparisons),
        }
    }

    // Searches as `search` does, at the indexes from `low` on that are below `high`. One key was
    // compared before.
    fn search_between(
        &self,
        mut low: usize,
        mut high: usize,
        key: &Key,
        comparisons: &mut Comparisons,
    ) -> Result<usize, usize>
        requires between { LiesBetween (keys (by_key self.now.items)) key.now low high }
        requires compared { comparisons.old ≡ 1 }
        ensures found { IfOk result (λ i. slice_get (keys (by_key self.now.items)) i ≡ Some key.now) }
        ensures absent { IfErr result (IsGap (keys (by_key self.now.items)) key.now) }
        ensures most { comparisons.new ≤ 17 }
        ensures few { length self.now.items ≤ 1024 → comparisons.new ≤ 11 }
    {
        let first = self.first();
        'halves: while low < high {
            let middle = low + (high - low) / 2;
            match self.at(first, middle).key.order(key, comparisons) {
                Ordering::Less => low = middle + 1,
                Ordering::Equal => return Ok(middle),
                Ordering::Greater => high = middle,
            }
        }
        Err(low)
    }

    // Returns whether fewer than `share` of the stored requests are from an address. The keys of an
    // address are adjacent in the order of keys, so the key at the end of a full share decides. The
    // function isn't inlined: its caller usually finds fewer requests than a share, and doesn't
    // call the function.
    #[inline(never)]
    pub(crate) fn are_fewer(&self, ip: [u8; 4], share: usize) -> bool
        ensures { result ≡ nat_lt (length (filter (is_of_address ip) self.now.items)) share }
    {
        if share == 0 {
            return false;
        }
        let start = self.start_of(ip);
        if self.index.len() - start < share {
            return true;
        }
        !self.at(self.first(), start + (share - 1)).key.is_of(ip)
    }

    // Returns the index, in the order of keys, of an address's first request. If there is no such
    // request, returns the index at which it would be.
    fn start_of(&self, ip: [u8; 4]) -> usize
        ensures start { IsStart ip (keys (by_key self.now.items)) result }
        ensures bytes { AreBytes ip }
    {
        match self.search(&Key::first_of(ip), &mut Comparisons::none()) {
            Ok(index) | Err(index) => index,
        }
    }

    // Returns the number of the oldest stored request, or 0 if none is stored.
    fn first(&self) -> u64
        ensures { IsOldest self.now.items result }
    {
        match self.ring.front() {
            Some(oldest) => oldest.number,
            None => 0,
        }
    }

    // Returns the request at this index in the order of keys; `first` is the oldest request's
    // number.
    fn at(&self, first: u64, index: usize) -> &Opened
        requires first { IsOldest self.now.items first }
        requires index { index < length self.now.items }
        ensures entry { slice_get (entries (by_key self.now.items)) index ≡ Some (result.now.key, result.now.number) }
        ensures found { find (has_key result.now.key) self.now.items ≡ Some result.now }
    {
        let Some(request) = self.ring.get(after(first, self.index[index])) else {
            unreachable!();
        };
        request
    }
}

// Returns the low 16 bits of a number. Two stored requests never have the same low bits.
fn low_bits(number: u64) -> u16
    ensures { result ≡ number % 65536 }
{
    (number % 65_536) as u16
}

// Returns how many requests, from `first` on, arrived before the request with these low bits.
fn after(first: u64, low: u16) -> usize
    ensures { (number : ℕ) → first ≤ number → number < first + 65536 → number % 65536 ≡ low → first + result ≡ number }
{
    usize::from(low.wrapping_sub(low_bits(first)))
}
