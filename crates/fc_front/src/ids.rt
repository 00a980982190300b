//! The message IDs that the server draws.
//!
//! The front draws a message ID for each response that isn't an acknowledgement, and for each
//! notification.
ghost use Rattle.std.specs.Prelude.{◌≡◌, ◌<◌, IfOk, length};
ghost use Rattle.fc_front.specs.Ids.{first_ids, free_id, drawn, is_recent};

use coap_msg::WINDOW;
use std::alloc::{AllocError, Global};
use std::marker::Model;

/// The number of message IDs.
const IDS: usize = 65_536;

/// The next message ID, and for each message ID the time when it was last drawn.
#[derive(Drop)]
pub(crate) struct MessageIds {
    next: u16,
    last: Vec<Option<u64>>,
}

impl Model for MessageIds {
    ghost use Rattle.std.specs.Prelude.{◌≡◌, length};
    ghost use Rattle.fc_front.specs.Ids.{Ids};

    ghost Value = { Ids };

    ghost view = { λ x. record { next = x.next; last = x.last.items } };

    ghost invariant = { λ x. length x.last.items ≡ 65536 };
}

impl MessageIds {
    #[tactic(auto, unfolding(crate::specs::Ids::no_draws))]
    // Makes message IDs of which none was drawn; the next one is `first`. Returns an error if
    // memory can't be allocated.
    pub(crate) fn new(alloc: Global, first: u16) -> Result<MessageIds, AllocError>
        ensures { IfOk result (λ x. x ≡ first_ids first) }
    {
        let mut last = Vec::with_capacity(alloc, IDS)?;
        for _id in 0..IDS {
            last.push(None)?;
        }
        Ok(MessageIds { next: first, last })
    }

    // Draws the next message ID. If that was last drawn less than EXCHANGE_LIFETIME before `now`,
    // in milliseconds, returns `None`, and nothing changes.
    pub(crate) fn draw(&mut self, now: u64) -> Option<u16>
        ensures id { result ≡ free_id self.old now }
        ensures after { self.new ≡ drawn self.old now }
    {
        let id = self.next;
        if is_recent(now, self.last[id as usize]) {
            return None;
        }
        self.last[id as usize] = Some(now);
        self.next = id.wrapping_add(1);
        Some(id)
    }
}

// Returns whether `now` is less than EXCHANGE_LIFETIME after `last`, the time when a message ID was
// last drawn. Returns `false` if the message ID was never drawn.
fn is_recent(now: u64, last: Option<u64>) -> bool
    ensures { result ≡ is_recent now last }
{
    match last {
        None => false,
        Some(at) => now < at || now - at < WINDOW,
    }
}
