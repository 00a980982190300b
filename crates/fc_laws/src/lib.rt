//! Laws: consequences of the server's definitions, in plainer words.
//!
//! An error that code and definitions share would be invisible to the proof of either. Each
//! function here is a law: its contract states a property of every history that `fc_core` defines,
//! with literals and in the words of the standards. Its proof uses the definitions alone. The
//! server calls none of them.
//!
//! # What is proved
//!
//! For every history, from the definitions alone:
//!
//! - An event at a wrong stage changes nothing. A duplicate opens no exchange and makes no job. A
//!   refused image, a GET, and a POST that is answered by an error change no slot. No delivery
//!   changes a slot, a slot's observers, a head word or a shard's time. An event of a shard above 7
//!   changes nothing.
//! - A job takes at most eight tickets. It is answered at most once, from its last snapshot. It
//!   changes only its own slot, at most once. For each program in a slot, some image is accepted as
//!   that program. Each ticket of a job has a meaning if each program that a snapshot found has
//!   one.
//! - A job has the request of its message: the request depends on the message's code, path and
//!   options. The job belongs to the message's endpoint, message ID and token. The laws state the
//!   first call that a job needs, and each next one.
//! - Each answer has its code, its options by their numbers, and its payload. Each answer of a job
//!   has a cause that the laws state, also a 5.03, a 4.04 and a 2.03.
//! - A refused block is answered by the code of its only cause, and so is a request that finds the
//!   table of exchanges full. A request that a check of its options refuses is answered by the code
//!   of that check.
//! - A ping, a confirmable message with a format error, and a confirmable message that isn't a
//!   request are rejected by a Reset message. Ignored datagrams, signals and silent refusals get no
//!   response.
//! - A refusal leaves everything unchanged except the time, a drawn message ID and the stage of the
//!   refused job, with three exceptions. A refused save changes the stage of its job alone, and the
//!   job is answered 5.03.
//! - An answer is sent to the client's endpoint, with the request's token. A confirmable request is
//!   answered in its acknowledgement, with the request's message ID. Any other request is answered
//!   in a non-confirmable message with a message ID of the server. An answer is sent less than
//!   247,000 ms after the request's exchange was opened, or never. The stored answer is the one
//!   that was sent.
//! - Message IDs are drawn in order. A message ID is drawn exactly if one is available and needed:
//!   to answer a request that isn't confirmable, or for the notification of a lease.
//! - A job raises its slot's head word to that of the slot's new state. The head word is the
//!   greatest to which jobs of the slot raised it. A GET with an ETag of the head word's serial is
//!   answered 2.03.
//! - A signal is for the observers of its shard's slots alone. A tick of a shard is for the shard's
//!   first slot with a notification that has timed out. The tick retransmits that notification, at
//!   most four times.
//! - A lease is for the first slot that has an observer with a pending notification, and in that
//!   slot for the first such observer. A lease makes one job. A lease that was released isn't
//!   active any more.
//! - A lease draws the server's next message ID, unless that message ID was drawn in the last
//!   247,000 ms. The lease's notification comes from its one ticket, with the code, the reply and
//!   the serial of the snapshot, or is a 4.04. A lease notifies exactly if it is still active, and
//!   once.
//! - The serials that one observer is sent increase. Notifications are sent only to observers in
//!   the list. An observer stays in the list unless it cancels, resets, lets a notification time
//!   out after four retransmissions, or is sent anything but a 2.05.
//! - Only managers install and remove programs. A PUT or DELETE from another endpoint is refused by
//!   4.03, and no other request is. At each time the number of stored exchanges is at most the
//!   policy's limit, and the number of each address at most its share. A request above a share
//!   changes nothing but the time. A request below its share finds space if a share for each
//!   address fits. By default each endpoint is a manager's, and no address is above its share.
//! - A timer that fires makes one job, a POST of its own slot's resource, and changes nothing else
//!   but the time. The job has no exchange. So the job's answer is sent to nobody, is stored
//!   nowhere and draws no message ID, whatever events come in between.
//! - A delivery that makes a job opens the job's exchange, which stays in its place. Each job is
//!   that of an observer's lease, of a request with an exchange, or of the timer of its slot. If no
//!   timer has fired, no job is that of a timer.
//! - The gauges of a front count the exchanges and transfers of the last 247 s, and have the limits
//!   of its policy, by default 1,024 exchanges, and 16 transfers.
//! - A notification is confirmable exactly if the policy's time has passed since the observer's
//!   registration or last confirmable notification. By default this time is 86,400,000 ms.
//! - If a slot can be restored, so can the stored state that a run then leaves in it. The next run
//!   begins with the slot's program, version and variables, at its serial or a higher one. The head
//!   word of a restored program is that of its slot's serial, and its ring has the commits since
//!   the start. No start restores an image that the verifier refuses, and the error names the slot.
//!
//! By the contracts of `laws`, `slot_laws`, `ask_laws`, `answer_laws`, `exchange_laws`,
//! `body_laws`, `way_laws`, `reply_laws`, `response_laws`, `refusal_laws`, `observe_laws`,
//! `policy_laws`, `shard_laws`, `start_laws`, `timer_laws`, `turn_laws`, `gauge_laws`.
#![tactic(auto)]

pub mod answer_laws;
pub mod ask_laws;
pub mod body_laws;
pub mod exchange_laws;
pub mod gauge_laws;
pub mod laws;
pub mod observe_laws;
pub mod policy_laws;
pub mod refusal_laws;
pub mod reply_laws;
pub mod response_laws;
pub mod shard_laws;
pub mod slot_laws;
pub mod start_laws;
pub mod timer_laws;
pub mod turn_laws;
pub mod way_laws;
