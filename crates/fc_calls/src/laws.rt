//! Laws of the effects of calls.
ghost use Rattle.std.specs.Prelude.{◌≡◌, ℕ, List, None};
ghost use Rattle.fc_ticket.specs.declared.job.Job.{Job};
ghost use Rattle.fc_registry.specs.Slots.{Shard};
ghost use Rattle.fc_ticket.specs.Taken.{Taken};
ghost use Rattle.fc_calls.specs.Doings.{TakesTo};

/// A request's job that takes a snapshot of its slot leaves the shard unchanged.
pub fn requests_take_and_change_nothing()
    ensures { (job : Job) (readings : List ℕ) (before after : Shard) (taken : Taken) → job.turn ≡ None →
        TakesTo job readings before taken after → after ≡ before }
{}
