//! The server, as seen by a client.
ghost use Rattle.std.specs.Prelude.{◌<◌, ◌≤◌, ⊤, ℕ, [], ◌∷◌, List, IfErr, IfOk, IfSome, OnOk, length, take};
ghost use Rattle.coap_client.specs.PeerCalls.{Adds, PeerCall, PeerError, Reads, Sends, Waits, receives_in};

use coap_msg::Datagram;
use coap_msg::types::DATAGRAM;
use std::io;

/// Length of a receive buffer, in bytes.
///
/// It is one more than the maximum length of a datagram, so that a longer datagram can be detected.
pub const BUFFER: usize = DATAGRAM + 1;

/// A receive buffer.
pub type Buffer = [u8; BUFFER];

/// The server, as seen by a client.
pub trait Peer {
    // A property of all datagrams that were sent.
    ghost went: { List ℕ → Type 0 } = { λ _. ⊤ };

    // A property of all datagrams that the peer was called to send, whether it sent them or not.
    ghost tried: { List ℕ → Type 0 } = { λ _. ⊤ };

    // A property of all datagrams that the peer received.
    ghost came: { List ℕ → Type 0 } = { λ _. ⊤ };

    // A property of a list of calls: these are the calls on the peer so far, the newest first.
    ghost called: { Self → List PeerCall → Type 0 } = { λ peer calls. ⊤ };

    // A property of all times that the peer returned.
    ghost is_time: { ℕ → Type 0 } = { λ _. ⊤ };

    // A property of all errors that the peer returned.
    ghost is_error: { PeerError → Type 0 } = { λ _. ⊤ };

    /// Sends a datagram to the server.
    ///
    /// # Errors
    /// Returns an error if the datagram can't be sent.
    fn send(&mut self, datagram: &Datagram) -> io::Result<()>
        ensures tried { tried datagram.now.items }
        ensures went { OnOk result (went datagram.now.items) }
        ensures called { OnOk result (Adds (called self.old) (called self.new) (Sends datagram.now.items ∷ [])) }
        ensures error { IfErr result is_error };

    /// Begins a wait that ends `seconds` seconds from now, and returns immediately.
    ///
    /// `receive` returns `None` once the wait has ended. The new wait replaces the one before.
    ///
    /// # Errors
    /// Returns an error if there is no clock.
    fn begin_wait(&mut self, seconds: u64) -> io::Result<()>
        ensures called { OnOk result (Adds (called self.old) (called self.new) (Waits seconds ∷ [])) }
        ensures error { IfErr result is_error };

    /// Reads the clock, and returns the milliseconds since some start.
    ///
    /// # Errors
    /// Returns an error if there is no clock.
    fn now(&mut self) -> io::Result<u64>
        ensures time { IfOk result is_time }
        ensures called { IfOk result (λ time. Adds (called self.old) (called self.new) (Reads time ∷ [])) }
        ensures error { IfErr result is_error };

    /// Receives the next datagram, and returns its length in bytes.
    ///
    /// The datagram is from the server, and is written to the start of `buffer`. A datagram that
    /// fills the buffer may be truncated, so it is skipped. Returns `None` if the wait is over.
    ///
    /// # Errors
    /// Returns an error if receiving fails.
    fn receive(&mut self, buffer: &mut Buffer) -> io::Result<Option<usize>>
        ensures came { IfOk result (λ r. IfSome r (λ count. (count ≤ length buffer.new) × came (take count buffer.new))) }
        ensures whole { IfOk result (λ r. IfSome r (λ count. count < length buffer.new)) }
        ensures called { IfOk result (λ r. Adds (called self.old) (called self.new) (receives_in buffer.new r ∷ [])) }
        ensures error { IfErr result is_error };
}
