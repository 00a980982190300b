//! The ends of the channel.
use crate::protocol::{Hand, Numbered, OnceEach};
use crossbeam_channel::{Pass, RuledReceiver, RuledSender};
use std::marker::Model;
use std::sync::OnceLock;

/// The end from which the workers receive their jobs.
///
/// It also stores whether a worker has asked for a job, once this is known. The stored value is
/// `true` from the first request on. It is `false` if no worker will ever ask, for example because
/// memory to start the workers couldn't be allocated. In contracts a `Jobs` is the identity of its
/// channel.
#[derive(Drop)]
pub struct Jobs<M: Drop> {
    pub(crate) receiver: RuledReceiver<Numbered<M>, Hand<M>, OnceEach>,
    pub(crate) served: OnceLock<bool>,
}

impl<M: Drop> Model for Jobs<M> {
    ghost use Rattle.fc_jobs.specs.Ends.{Channel};

    ghost Value = { Channel M };

    ghost use Rattle.crossbeam_channel.specs.Claims.{IsKeyed};
    ghost use Rattle.crossbeam_channel.specs.Ends.{receives_on};
    ghost use Rattle.fc_jobs.specs.Views.{channel_at};

    ghost view = { λ j. channel_at (receives_on j.receiver) };

    ghost invariant = { λ j. IsKeyed (receives_on j.receiver) };
}

/// The only sending end, with a list of all jobs that were sent.
///
/// The channel is closed when its sending end is dropped.
#[derive(Drop)]
pub struct Sent<M: Drop> {
    pub(crate) sender: RuledSender<Numbered<M>, Hand<M>, OnceEach>,
    pub(crate) pass: Pass<Numbered<M>, Hand<M>>,
    pub(crate) next: u64,
}

impl<M: Drop> Model for Sent<M> {
    ghost use Rattle.fc_jobs.specs.Ends.{Sent as Sending};

    ghost Value = { Sending M };

    ghost use Rattle.std.specs.Prelude.{◌≡◌, length};
    ghost use Rattle.crossbeam_channel.specs.Claims.{view as view_of, IsSeatAt};
    ghost use Rattle.crossbeam_channel.specs.Ends.{sends_on};
    ghost use Rattle.fc_jobs.specs.Once.{sends_view};
    ghost use Rattle.fc_jobs.specs.Views.{channel_of};

    ghost view = { λ s. record { channel = channel_of s.pass; sent = (view_of s.pass).sent } };

    ghost invariant = { λ s. IsSeatAt (sends_on s.sender) s.pass
        × (view_of s.pass ≡ sends_view (view_of s.pass).sent)
        × (length (view_of s.pass).sent ≡ s.next) };
}

/// A worker's end of the channel, with a list of the jobs that it received.
#[derive(Drop)]
pub struct Got<M: Drop> {
    pub(crate) pass: Pass<Numbered<M>, Hand<M>>,
}

impl<M: Drop> Model for Got<M> {
    ghost use Rattle.fc_jobs.specs.Ends.{Got as Getting};

    ghost Value = { Getting M };

    ghost use Rattle.std.specs.Prelude.{◌≡◌, []};
    ghost use Rattle.crossbeam_channel.specs.Claims.{view as view_of};
    ghost use Rattle.fc_jobs.specs.Once.{gets_view};
    ghost use Rattle.fc_jobs.specs.Views.{channel_of};

    ghost view = { λ g. record { channel = channel_of g.pass; got = (view_of g.pass).got } };

    ghost invariant = { λ g. (view_of g.pass ≡ gets_view (view_of g.pass).got) × (g.pass.me.1 ≡ []) };
}
