//! Slots for the outcomes of a crew's jobs: one for each job, in the order of the jobs.

ghost use Rattle.std.specs.Prelude.{◌≡◌, ◌<◌, ◌≤◌, [], length, map, slice_set, vec_capacity, vec_len, Some, IsSome, All};
ghost use Rattle.workers.specs.Slots.{with_all};

use crate::thief::Taken;

/// A slot for each job, empty until the job's outcome is known.
pub(crate) type Slots<D> = Vec<Option<D>>;

/// Puts an outcome into the slot of the job with this index, in place of what the slot had.
pub(crate) fn put<D: Drop>(slots: &mut Slots<D>, index: usize, done: D)
    requires { index < length slots.old.items }
    ensures { slots.new.items ≡ slice_set slots.old.items index (Some done) }
{
    slots[index] = Some(done);
}

/// Puts each outcome of the jobs that a thief ran into the slot of its job.
pub(crate) fn put_all<D: Drop>(slots: &mut Slots<D>, ran: Vec<Taken<D>>)
    requires { All (λ t. t.index < length slots.old.items) ran.items }
    ensures { slots.new.items ≡ with_all slots.old.items ran.items }
{
    for taken in ran {
        put(slots, taken.index, taken.done);
    }
}

/// The outcomes in the slots, in order. Each slot has to have one. `all`, into which they are put,
/// has to be empty, with memory reserved for them.
pub(crate) fn into_outcomes<D: Drop>(slots: Slots<D>, mut all: Vec<D>) -> Vec<D>
    requires full { All IsSome slots.items }
    requires first { (all.items ≡ []) × (vec_len all ≡ 0) }
    requires room { length slots.items ≤ vec_capacity all }
    ensures { slots.items ≡ map Some result.items }
{
    for slot in slots {
        let Some(done) = slot else { unreachable!() };
        all.push_reserved(done);
    }
    all
}
