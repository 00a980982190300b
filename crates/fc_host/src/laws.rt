//! Consequences of the host's definitions: each function's contract is a law.
ghost use Rattle.std.specs.Prelude.{◌≡◌, ◌+◌, ◌*◌, ◌-◌, ◌<◌, ◌≤◌, ◌^◌, ℕ, [], ◌∷◌, List, length};
ghost use Rattle.std.specs.List.{All};
ghost use Rattle.coap_msg.specs.Wire.{Message, SpellsMessage};
ghost use Rattle.fc_host.specs.Clocks.{device_readings, no_sensors};
ghost use Rattle.fc_host.specs.Timers.{first_due, new_timer, next_beat, put_off};
ghost use Rattle.fc_host.specs.declared.timer.Timer.{Timer};

use crate::socket::{BUFFER, SHORTEST_WAIT};

/// The readings of a device have 64 bytes.
///
/// They are the time in milliseconds in eight bytes, least significant first, and 56 bytes of its
/// sensors. These are zeros if it has none.
pub fn readings_are_the_clock_and_the_sensors()
    ensures clock { (sensed : List ℕ) → device_readings 258 sensed ≡ 2 ∷ 1 ∷ 0 ∷ 0 ∷ 0 ∷ 0 ∷ 0 ∷ 0 ∷ sensed }
    ensures sensors { (now : ℕ) (sensed : List ℕ) → length sensed ≡ 56 → length (device_readings now sensed) ≡ 64 }
    ensures none { length no_sensors ≡ 56 }
{}

/// Bytes that fill the receive buffer are no message.
///
/// The buffer has 1,281 bytes, one more than the longest message has. Of a longer datagram the
/// first 1,281 bytes are received, and these are never taken for a message.
pub fn cut_datagrams_spell_no_message()
    ensures buffer { BUFFER ≡ 1281 }
    ensures filled { (bytes : List ℕ) (m : Message) → SpellsMessage bytes m → length bytes < BUFFER }
{}

/// The shortest time that a receive waits is 100 ms.
pub fn shortest_wait_is_100_ms()
    ensures { SHORTEST_WAIT ≡ 100 }
{}

/// A timer skips the beats that it missed.
///
/// A timer of 1,000 ms is due at 1,000 ms first, and then at 2,000 ms. If it is 3,300 ms overdue,
/// it is due at 5,000 ms next. Each timer is set to a later time, by whole periods, and by no more
/// than one period from now on.
pub fn timers_keep_their_beat()
    ensures first { (slot : ℕ) → (new_timer 1000 slot).due ≡ 1000 }
    ensures next { (slot : ℕ) → (put_off 1000 (new_timer 1000 slot)).due ≡ 2000 }
    ensures late { (slot : ℕ) → (put_off 4300 (new_timer 1000 slot)).due ≡ 5000 }
    ensures later { (now : ℕ) (t : Timer) → t.due ≤ now → 0 < t.every → now + t.every < 2 ^ 64 → now < next_beat now t }
    ensures soon { (now : ℕ) (t : Timer) → t.due ≤ now → next_beat now t ≤ now + t.every }
    ensures whole { (now : ℕ) (t : Timer) → t.due ≤ now → now + t.every < 2 ^ 64 → (beats : ℕ) × (next_beat now t ≡ t.due + beats * t.every) }
{}

/// No timer is due before the first.
///
/// Of timers that are due at 5,000 and 7,000 ms, the first is due at 5,000 ms, in either order.
pub fn no_timer_is_due_before_the_first()
    ensures rising { (t : Timer) → first_due (record t { due = 5000 } ∷ record t { due = 7000 } ∷ []) ≡ 5000 }
    ensures falling { (t : Timer) → first_due (record t { due = 7000 } ∷ record t { due = 5000 } ∷ []) ≡ 5000 }
    ensures all { (ts : List Timer) → All (λ t. first_due ts ≤ t.due) ts }
    ensures none { first_due [] ≡ 2 ^ 64 - 1 }
{}
