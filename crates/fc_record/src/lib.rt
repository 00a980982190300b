//! Records of answered requests to change a program, and reports of counts.
//!
//! [`request::ProgramRequest`] is a request that installs or removes a program, with its response.
//! It has a text. A [`Recorder`] gets each such request once: [`RecordingGate`] passes it those
//! that workers answer, and [`RecordedAlone`] those of a single-threaded server.
//!
//! [`Report`] has counts of a server's datagrams and notifications, and its `Gauges`: what the
//! server holds at the time of the report. It has a text. A [`Reporter`] gets such a report from
//! time to time; `fc_receive` says when.
//!
//! # What is proved
//!
//! - **A record** is made of just the requests that install an image or remove a program. It has
//!   their sender, slot and image, and the code and payload of the response that was sent
//!   (`ProgramRequest::of`, by `IsRequestOf`). Its text is exact, including the image's SHA-256
//!   digest (`ProgramRequest`'s `Display`, by `request_text`).
//! - **Each such request that a job answers is recorded once**, after its response, and nothing
//!   else is recorded. `RecordingGate` records the request of an answered job, if it is such a
//!   request (`IsRecorded`). Workers call it once, right after each answer (`GivesAnswer` of
//!   `fc_workers`). A single-threaded server records by `RecordedAlone` (`recorded_calls`). A
//!   duplicate request is no job, and so no change.
//! - **A report** counts each call by its result: a datagram, and its immediate response by its
//!   code; a retransmission or a removed observer; a lease. Its text is exact, with
//!   its gauges (`Report`, by `datagram_counted`, `tick_counted`, `lease_counted` and
//!   `report_text`).
//! - The contracts don't say what a logger does with a record or a report, nor how many datagrams
//!   couldn't be sent.
//!
//! By the contracts of `ProgramRequest::of`, `ProgramRequest`'s `Display`, `RecordingGate`,
//! `RecordedAlone`, `Report`, `laws`.
#![tactic(auto)]

pub mod alone;
pub mod laws;
pub mod recorder;
pub mod report;
pub mod reporter;
pub mod request;
mod text;

pub use alone::RecordedAlone;
pub use recorder::{ChangeLog, LoggedChanges, NoChanges, Recorder, RecordingGate};
pub use report::Report;
pub use reporter::{LoggedReports, NoReports, Reporter};
pub use request::ProgramRequest;
