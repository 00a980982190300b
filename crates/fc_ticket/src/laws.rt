//! Laws about tickets, notifications and registrations.
//!
//! Each law is the contract of an empty function.
ghost use Rattle.coap_msg.specs.declared.types.Emission.{Emission};
ghost use Rattle.coap_opts.specs.Values.{Place};
ghost use Rattle.fc_observe.specs.Calls.{Advance, End, Notify, Register};
ghost use Rattle.fc_observe.specs.declared.entry.Turn.{Turn};
ghost use Rattle.fc_ticket.specs.Laws.{IsTicketOfJob};
ghost use Rattle.fc_ticket.specs.Notes.{note_calls};
ghost use Rattle.fc_ticket.specs.Registrations.{is_registration, observe_calls};
ghost use Rattle.fc_ticket.specs.Runs.{meaning_at, ticket_of};
ghost use Rattle.fc_ticket.specs.Tickets.{Present, Ticket};
ghost use Rattle.fc_ticket.specs.declared.job.Job.{Job};
ghost use Rattle.std.specs.Prelude.{List, [], None, Some, true, ℕ, ◌∷◌, ◌≡◌};

/// A job's ticket has the data of the job.
///
/// This data is the job's origin and lease, and the request that the slot's program is to answer.
/// It also has the token, the block and the Observe value of the job's request.
pub fn tickets_have_the_data_of_their_jobs()
    ensures { (job : Job) (readings : List ℕ) (serial : ℕ) (found : Present) →
        IsTicketOfJob job (ticket_of job readings serial found) }
{}

/// A notification ends its lease.
///
/// A 2.05 (Content) notification, code 69, ends the lease and records the message ID, the serial
/// and the bytes that were sent. A notification of another code, or of an empty slot, ends the
/// lease and removes the observer (RFC 7641, section 4.2).
pub fn notifications_end_their_turns()
    ensures content { (turn : Turn) (id random at : ℕ) (t : Ticket) (e : Emission) → (meaning_at t).code ≡ 69 →
        note_calls turn id random at (Some t) (Some e) ≡ Notify at turn id t.serial random e.bytes ∷ Advance at ∷ [] }
    ensures error { (turn : Turn) (id random at : ℕ) (t : Ticket) (e : Emission) → ((meaning_at t).code ≡ 69 → ⊥) →
        note_calls turn id random at (Some t) (Some e) ≡ End turn ∷ Advance at ∷ [] }
    ensures empty { (turn : Turn) (id random at : ℕ) (e : Emission) →
        note_calls turn id random at None (Some e) ≡ End turn ∷ Advance at ∷ [] }
{}

/// A registration stores the size in the Block2 option of its request, if there was one.
///
/// Notifications have blocks of that size (RFC 7959, section 2.6).
pub fn registrations_store_the_block_size()
    ensures whole { (now : ℕ) (t : Ticket) → is_registration t ≡ true → t.block ≡ None →
        observe_calls now t ≡ Register now t.origin.endpoint t.token t.request None t.serial ∷ [] }
    ensures size { (now : ℕ) (t : Ticket) (block : Place) → is_registration t ≡ true → t.block ≡ Some block →
        observe_calls now t ≡ Register now t.origin.endpoint t.token t.request (Some block.szx) t.serial ∷ [] }
{}
