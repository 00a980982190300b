//! The responses of the stored exchanges.
ghost use Rattle.std.specs.Prelude.{◌≡◌, ◌+◌, ◌-◌, ◌<◌, ◌≤◌, ◌++◌, length, option_map, replicate, vec_capacity, IfOk};
ghost use Rattle.coap_dedup.specs.Views.{answer_if, answered_at, forgotten, kept_at, no_answer};

use crate::exchange::{StoredResponse, place, write_over};
use coap_msg::Datagram;
use std::alloc::{AllocError, Global};
use std::marker::Model;

/// The responses of the stored exchanges, which never move in memory.
///
/// The response of an exchange is at the exchange's number modulo the number of places.
///
/// Memory is reserved for all places at the start. A place's memory is first written when a
/// response is stored there or at a later place. So few memory pages are resident if a server has
/// stored few responses. Contracts see all places; a place that wasn't written yet has no response.
#[derive(Drop)]
pub(crate) struct Answers {
    places: usize,
    kept: Vec<StoredResponse>,
}

impl Model for Answers {
    ghost use Rattle.std.specs.Prelude.{◌≤◌, List, length, vec_capacity};
    ghost use Rattle.coap_dedup.specs.declared.exchange.StoredResponse.{StoredResponse as Seen};
    ghost use Rattle.coap_dedup.specs.Views.{padded};

    ghost Value = { List Seen };

    ghost view = { λ a. padded a.places a.kept.items };

    ghost invariant = { λ a. (1 ≤ a.places) × (length a.kept.items ≤ a.places) × (a.places ≤ vec_capacity a.kept) };
}

impl Answers {
    // Makes `places` places without responses. Returns `AllocError` if memory can't be allocated.
    pub(crate) fn new(alloc: Global, places: usize) -> Result<Answers, AllocError>
        requires { 1 ≤ places }
        ensures { IfOk result (λ a. length a ≡ places) }
    {
        Ok(Answers {
            places,
            kept: Vec::with_capacity(alloc, places)?,
        })
    }

    // Returns the response at the place of the exchange with this number, or `None` if the place
    // has none.
    pub(crate) fn get(&self, number: u64) -> Option<&Datagram>
        ensures { let kept = kept_at self.now number in
            option_map (λ bytes. bytes.now) result ≡ answer_if kept.answered kept.bytes }
    {
        match self.kept.get(place(number, self.places)) {
            Some(kept) if kept.answered => Some(&kept.bytes),
            _ => None,
        }
    }

    // Removes the response at the place of this number, since an exchange with that number is
    // opened.
    pub(crate) fn forget(&mut self, number: u64)
        ensures { self.new ≡ forgotten self.old number }
    {
        let place = place(number, self.places);
        if place < self.kept.len() {
            self.kept[place].answered = false;
        }
    }

    // Stores `bytes` as the response of the exchange with this number, over the place's contents.
    pub(crate) fn keep(&mut self, number: u64, bytes: &Datagram)
        ensures { self.new ≡ answered_at self.old number bytes.now }
    {
        let place = place(number, self.places);
        touch(&mut self.kept, place);
        let kept = &mut self.kept[place];
        kept.answered = true;
        write_over(&mut kept.bytes, bytes);
    }
}

// Appends places without a response to `kept`, until it has the place `place`. If `kept` already
// has that place, nothing changes.
fn touch(kept: &mut Vec<StoredResponse>, place: usize)
    requires { place < vec_capacity kept.old }
    ensures items { kept.new.items ≡ kept.old.items ++ replicate (place + 1 - length kept.old.items) no_answer }
    ensures capacity { vec_capacity kept.new ≡ vec_capacity kept.old }
{
    if place < kept.len() {
        return;
    }
    for _place in kept.len()..place + 1 {
        kept.push_reserved(StoredResponse {
            bytes: Datagram::new(),
            answered: false,
        });
    }
}
