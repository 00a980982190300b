//! Playing lines by workers: a line's job ends before the next line is read.
ghost use Rattle.std.specs.Prelude.{◌≡◌, Bool, OnOk};
ghost use Rattle.fc_cli.specs.declared.status.Status.TheVariants.{Done};
ghost use Rattle.fc_server.specs.States.{CanBegin};
ghost use Rattle.fc_service.specs.Playing.{IsFedByLines, IsPlayedBeside};
ghost use Rattle.fc_pool.specs.Pooled.{offload_where};
ghost use Rattle.fc_pool.specs.declared.replies.Replies.{Replies as Counts};
ghost use Rattle.fc_locked.specs.SharedStores.{HasSaved};
ghost use Rattle.fc_workers.specs.declared.dispatcher.Offload.TheVariants.{Every};

use crate::lines::play_lines;
use crate::waiting::LockStep;
use fc_cli::status::{Status, tell};
use fc_cli::stop::Stop;
use fc_host::scripted::ScriptedHost;
use fc_pool::{Driven, Driver, Pool, no_store, run_pool};
use fc_record::NoChanges;
use fc_server::{Begin, FirstServer, Ingress};
use fc_store::{NoStore, Store};
use fc_workers::Offload;
use std::alloc::Global;
use std::io::{BufRead, Write};
use std::sync::Wait;
use std::thread::Threads;

// The driver of a pool that plays lines: the lines, and the writer of their output.
#[derive(Drop)]
struct Player<'a, I: BufRead + Drop, W: Write> {
    alloc: Global,
    input: I,
    out: &'a mut W,
    scripted: &'a ScriptedHost,
}

impl<'a, I: BufRead + Drop, W: Write> Driver<Result<(), Stop>> for Player<'a, I, W> {
    ghost drives = { λ S calls self first last given. OnOk given (IsFedByLines calls (I.remaining self.input) first last) };

    // Plays all lines, and waits after each line for the worker that runs its job. The contract
    // says which lines were played, and how. It doesn't say what was written to `out`, and says
    // nothing if the result is an error.
    fn drive<N: Ingress, R: Wait>(self, rt: &R, ingress: N) -> Driven<N, Result<(), Stop>> {
        let Player {
            alloc,
            input,
            out,
            scripted,
        } = self;
        let mut waiting = LockStep {
            rt,
            ingress,
            scripted,
        };
        let given = play_lines(alloc, &mut waiting, input, out);
        let LockStep {
            rt: _,
            ingress,
            scripted: _,
        } = waiting;
        Driven { ingress, given }
    }
}

/// Plays lines on 1 to 16 workers, with the results of [`play`](crate::play::play).
///
/// Each worker has its own thread. A worker runs the job of each line and of each observer's lease.
/// No line is read before the previous line's jobs have ended. If no thread can be created for a
/// worker, a message is written to `err`, and the calling thread runs the jobs. The contract is
/// only about the result `Done`, and doesn't say what was printed.
pub fn play_by_workers<R: Threads + Wait + Sync, I: BufRead + Drop, W: Write, E: Write>(
    rt: &R,
    alloc: Global,
    input: I,
    out: &mut W,
    err: &mut E,
    workers: u8,
    begin: Begin,
) -> Status
    requires { CanBegin begin }
    ensures { result ≡ Done → (has_workers : Bool) × (replies : Counts) × IsPlayedBeside (HasSaved ⟦<NoStore as Store>⟧) begin (offload_where has_workers Every) workers (I.remaining input) replies }
{
    match play_in_pool(rt, alloc, input, out, err, workers, begin) {
        Ok(()) => Status::Done,
        Err(stop) => tell(err, &stop, stop.status()),
    }
}

// Plays lines as `play_by_workers` does. Returns why playing stopped, or `Ok` at the end of the
// input.
fn play_in_pool<R: Threads + Wait + Sync, I: BufRead + Drop, W: Write, E: Write>(
    rt: &R,
    alloc: Global,
    input: I,
    out: &mut W,
    err: &mut E,
    workers: u8,
    begin: Begin,
) -> Result<(), Stop>
    requires { CanBegin begin }
    ensures { OnOk result ((has_workers : Bool) × (replies : Counts) × IsPlayedBeside (HasSaved ⟦<NoStore as Store>⟧) begin (offload_where has_workers Every) workers (I.remaining input) replies) }
{
    let scripted = ScriptedHost::new();
    let pool = Pool {
        workers,
        offload: Offload::Every,
        wire: &scripted,
        times: &scripted,
        device: &scripted,
        recorder: &NoChanges,
    };
    let player = Player {
        alloc,
        input,
        out,
        scripted: &scripted,
    };
    let first = FirstServer::new(alloc, &begin)?;
    run_pool(rt, alloc, err, &pool, first, no_store(), player)?.given
}
