//! Laws of a job's request: each function is a law, stated by its contract.
ghost use Rattle.coap_msg.specs.Wire.{Message};
ghost use Rattle.coap_msg.specs.declared.types.Endpoint.{Endpoint};
ghost use Rattle.coap_msg.specs.declared.types.MessageType.TheVariants.{Confirmable};
ghost use Rattle.coap_opts.specs.Verdict.{Asked, block_in, etags, number_in, query, values};
ghost use Rattle.coap_opts.specs.declared.number.TheConstants as option;
ghost use Rattle.fc_laws.specs.AskLaws.{BringsJob, IsPlain, Requests, core_path, program_path, request_in, run_path};
ghost use Rattle.fc_laws.specs.BodyLaws.{Asks};
ghost use Rattle.fc_core.specs.History.{Entry, Seen};
ghost use Rattle.fc_help.specs.declared.request.Method.TheVariants.{Get, Post};
ghost use Rattle.fc_ticket.specs.declared.job.Ask.TheVariants.{Describe, Discover, Install, Remove, Run};
ghost use Rattle.fc_ticket.specs.declared.job.Job.{Job};
ghost use Rattle.fc_ticket.specs.declared.job.InitialVars.TheVariants.{Kept, Zeros};
ghost use Rattle.fc_ticket.specs.Runs.{initial_vars_of};
ghost use Rattle.fc_front.specs.Receiving.{initial_vars_by};
ghost use Rattle.std.specs.Prelude.{ℕ, ◌≡◌, ◌≢◌, ◌↔◌, ◌<◌, ◌≤◌, ◌∷◌, [], None, Some, codes, length, max, true};

/// A job has the request of its message, by the code and path (RFC 7252, 5.8).
///
/// - `/r/N`: a GET, code 1, and a POST, code 2, run slot N's program on the message's
///   Content-Format, query and payload.
/// - `/p/N`: a PUT, code 3, without Block1 installs the payload. A DELETE, code 4, removes the
///   program. A GET describes the program.
/// - `/.well-known/core`: a GET lists the slots.
///
/// No other code produces a job.
pub fn jobs_ask_what_their_messages_say()
    ensures get { (r : Entry) (s : Seen) (from : Endpoint) (m : Message) (j : Job) (n : ℕ) → n < 64 →
        BringsJob r s from m j → Requests m 1 (run_path n) → j.ask ≡ Run (request_in Get n m) }
    ensures post { (r : Entry) (s : Seen) (from : Endpoint) (m : Message) (j : Job) (n : ℕ) → n < 64 →
        BringsJob r s from m j → Requests m 2 (run_path n) → j.ask ≡ Run (request_in Post n m) }
    ensures put { (r : Entry) (s : Seen) (from : Endpoint) (m : Message) (j : Job) (n : ℕ) → n < 64 →
        BringsJob r s from m j → Requests m 3 (program_path n) → block_in option.BLOCK1 m ≡ None →
        j.ask ≡ Install (record { items = m.payload }) (initial_vars_by (query m)) }
    ensures delete { (r : Entry) (s : Seen) (from : Endpoint) (m : Message) (j : Job) (n : ℕ) → n < 64 →
        BringsJob r s from m j → Requests m 4 (program_path n) → j.ask ≡ Remove }
    ensures describe { (r : Entry) (s : Seen) (from : Endpoint) (m : Message) (j : Job) (n : ℕ) → n < 64 →
        BringsJob r s from m j → Requests m 1 (program_path n) → j.ask ≡ Describe }
    ensures list { (r : Entry) (s : Seen) (from : Endpoint) (m : Message) (j : Job) →
        BringsJob r s from m j → Requests m 1 core_path → j.ask ≡ Discover }
    ensures only { (r : Entry) (s : Seen) (from : Endpoint) (m : Message) (j : Job) →
        BringsJob r s from m j → (1 ≤ m.code) × (m.code ≤ 4) }
{}

/// A PUT of `/p/N` keeps the variables exactly if its only query option is `keep`.
///
/// The query options are the Uri-Query options of RFC 7252, section 5.10.1. Neither `keep=1`, nor
/// `keeps`, nor `keep` twice keeps the variables. For a body in blocks, the query of the request
/// with the last block decides.
pub fn puts_keep_variables_by_their_query()
    ensures keep { (r : Entry) (s : Seen) (from : Endpoint) (m : Message) (j : Job) (n : ℕ) → n < 64 →
        BringsJob r s from m j → Requests m 3 (program_path n) → values option.URI_QUERY m ≡ codes "keep" ∷ [] →
        initial_vars_of j.ask ≡ Kept }
    ensures other { (r : Entry) (s : Seen) (from : Endpoint) (m : Message) (j : Job) (n : ℕ) → n < 64 →
        BringsJob r s from m j → Requests m 3 (program_path n) → values option.URI_QUERY m ≢ codes "keep" ∷ [] →
        initial_vars_of j.ask ≡ Zeros }
{}

/// A job has the endpoint, message ID, token and slot of its message.
///
/// The job's exchange is the one that the message's delivery opens. The job is confirmable exactly
/// if the message is, and it isn't that of an observer's lease.
pub fn jobs_are_of_their_messages()
    ensures endpoint { (r : Entry) (s : Seen) (from : Endpoint) (m : Message) (j : Job) →
        BringsJob r s from m j → j.origin.endpoint ≡ from }
    ensures id { (r : Entry) (s : Seen) (from : Endpoint) (m : Message) (j : Job) →
        BringsJob r s from m j → j.origin.id ≡ m.id }
    ensures token { (r : Entry) (s : Seen) (from : Endpoint) (m : Message) (j : Job) →
        BringsJob r s from m j → j.token.items ≡ m.token }
    ensures run_slot { (r : Entry) (s : Seen) (from : Endpoint) (m : Message) (j : Job) (code n : ℕ) → n < 64 →
        BringsJob r s from m j → Requests m code (run_path n) → j.origin.slot ≡ n }
    ensures program_slot { (r : Entry) (s : Seen) (from : Endpoint) (m : Message) (j : Job) (code n : ℕ) → n < 64 →
        BringsJob r s from m j → Requests m code (program_path n) → j.origin.slot ≡ n }
    ensures exchange { (r : Entry) (s : Seen) (from : Endpoint) (m : Message) (j : Job) (b : BringsJob r s from m j) →
        j.origin.opening ≡ record { number = length s.exchanges; at = max s.time b.now } }
    ensures confirmable { (r : Entry) (s : Seen) (from : Endpoint) (m : Message) (j : Job) →
        BringsJob r s from m j → ((j.confirmable ≡ true) ↔ (m.kind ≡ Confirmable)) }
    ensures turn { (r : Entry) (s : Seen) (from : Endpoint) (m : Message) (j : Job) →
        BringsJob r s from m j → j.turn ≡ None }
{}

/// A job has the options of its message.
///
/// The job's block is a GET's Block2 or a PUT's Block1 (RFC 7959, section 2.1). The job's Observe
/// is that of a request of `/r/N` (RFC 7641, section 2). The job's ETags are the message's first
/// four ETags of eight bytes (RFC 7252, section 5.10.6). The job has no ETags if the message
/// registers the client, by Observe 0, or cancels, by Observe 1.
pub fn jobs_have_their_messages_options()
    ensures block2 { (r : Entry) (s : Seen) (from : Endpoint) (m : Message) (j : Job) →
        BringsJob r s from m j → m.code ≡ 1 → j.block ≡ block_in option.BLOCK2 m }
    ensures block1 { (r : Entry) (s : Seen) (from : Endpoint) (m : Message) (j : Job) →
        BringsJob r s from m j → m.code ≡ 3 → j.block ≡ block_in option.BLOCK1 m }
    ensures no_block { (r : Entry) (s : Seen) (from : Endpoint) (m : Message) (j : Job) →
        BringsJob r s from m j → m.code ≢ 1 → m.code ≢ 3 → j.block ≡ None }
    ensures observe { (r : Entry) (s : Seen) (from : Endpoint) (m : Message) (j : Job) (code n : ℕ) → n < 64 →
        BringsJob r s from m j → Requests m code (run_path n) → j.observe ≡ number_in option.OBSERVE m }
    ensures etags { (r : Entry) (s : Seen) (from : Endpoint) (m : Message) (j : Job) →
        BringsJob r s from m j → IsPlain m → j.etags.items ≡ etags m }
    ensures registration { (r : Entry) (s : Seen) (from : Endpoint) (m : Message) (j : Job) (code n : ℕ) → n < 64 →
        BringsJob r s from m j → Requests m code (run_path n) → number_in option.OBSERVE m ≡ Some 0 → j.etags.items ≡ [] }
    ensures cancellation { (r : Entry) (s : Seen) (from : Endpoint) (m : Message) (j : Job) (code n : ℕ) → n < 64 →
        BringsJob r s from m j → Requests m code (run_path n) → number_in option.OBSERVE m ≡ Some 1 → j.etags.items ≡ [] }
{}

/// Each new request without Block1 that passes all checks of options makes a job.
///
/// The request is no duplicate, its endpoint is allowed to send it, and there is space for its
/// exchange.
pub fn requests_bring_jobs()
    ensures { (r : Entry) (s : Seen) (m : Message) (q : Asked) → Asks s r.event m q → block_in option.BLOCK1 m ≡ None
        → (from : Endpoint) × (j : Job) × BringsJob r s from m j }
{}
