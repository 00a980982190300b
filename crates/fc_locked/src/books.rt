//! The ledgers of a server's changes, and the book of its calls.
ghost use Rattle.std.specs.Prelude.{ℕ, Bool, false};
ghost use Rattle.atomic_table.specs.Seated.{TableId};
ghost use Rattle.fc_book.specs.Tracks.{no_table};
ghost use Rattle.fc_filed.specs.Blank.{some_server};
ghost use Rattle.fc_server.specs.States.{ServerState};
ghost use Rattle.fc_store.specs.Stored.{StoredSlots, blank_slot};

use fc_filed::ServerName;
use std::marker::{Brand, PhantomData};
use std::sync::ledger::Ledger;

/// The names of a server's ledgers, their parts, and the server's first state.
///
/// A name is given by the index of the ledger's shard. Each ledger is divided into the same number
/// of parts. The table is that of the book in which the calls of the front, shards and head
/// words are filed. The keys of its threads' tracks are below `first_job`. `persistent` states
/// whether the server's store is persistent, and `stored` its first stored slots.
pub trait Books {
    ghost names: { ℕ → ℕ };

    ghost parts: { ℕ };

    ghost table: { TableId };

    ghost first_job: { ℕ };

    ghost first: { ServerState };

    ghost persistent: { Bool };

    ghost stored: { StoredSlots };
}

impl Books for Brand {
    ghost names = { λ index. 0 };

    ghost parts = { 0 };

    ghost table = { no_table };

    ghost first_job = { 0 };

    ghost first = { some_server };

    ghost persistent = { false };

    ghost stored = { λ n. blank_slot };
}

/// The ledger of the shard with this index.
pub struct BookOf<B: Books, const INDEX: u8> {
    of: PhantomData<B>,
}

impl<B: Books, const INDEX: u8> Ledger for BookOf<B, INDEX> {
    ghost name = { B.names INDEX };

    ghost parts = { B.parts };
}

/// The name of the book in which the calls of the front, shards and head words are filed.
pub struct ServerOf<B: Books> {
    of: PhantomData<B>,
}

impl<B: Books> ServerName for ServerOf<B> {
    ghost table = { B.table };

    ghost first_job = { B.first_job };

    ghost first = { B.first };

    ghost persistent = { B.persistent };

    ghost stored = { B.stored };
}
