// A cascade of 1 to 32 members, built in memory of its own, and the work that is done on it.
ghost use Rattle.std.specs.Prelude.{◌≡◌, length};
ghost use Rattle.cascade.specs.Cascades.{CascadeAnswer, PlacesTold, places_for};
ghost use Rattle.cascade.specs.Seats.{fenced_rows, member_rows, member_width};

use crate::levels::{Job, Level, Twice, Two};
use crate::members::Member;
use crate::plans::{CascadeFault, Seat};
use crate::seats::{Build, Fresh};
use crate::sites::{Lot, Site};
use device::{CELLS, Cells, Device};
use fence::Fence;
use planes::Planes;
use std::alloc::Global;

// How many members a cascade can have.
pub const MEMBERS: usize = 32;

// The places of the smallest cascade that has as many members.
fn places_for(members: usize) -> usize
    ensures answer { result ≡ places_for members }
{
    members.min(MEMBERS).next_power_of_two().max(2)
}

type Four = Twice<Two>;

type Eight = Twice<Four>;

type Sixteen = Twice<Eight>;

type ThirtyTwo = Twice<Sixteen>;

// Generic, since no proof is made yet where a type in angle brackets is made of the device, as
// `Fence<Member<Device, Planes>>` is. `seats` is how many there are.
fn on_places<S: Lot + Drop, D: Build<S> + Drop, P: Fresh + Drop, J: Job>(
    site: S,
    seats: usize,
    job: J,
) -> J::Out
    ensures told { PlacesTold (J.Job.tells job) (member_width D.Build.built_width P.Fresh.fresh_width) (fenced_rows (member_rows D.Build.built_rows P.Fresh.fresh_rows)) (S.Lot.seats site) seats (S.Lot.words site) (S.Lot.bytes site) result }
{
    match seats {
        0..=2 => Two::on::<S, Fence<Member<D, P>>, J>(site, job),
        3..=4 => Four::on::<S, Fence<Member<D, P>>, J>(site, job),
        5..=8 => Eight::on::<S, Fence<Member<D, P>>, J>(site, job),
        9..=16 => Sixteen::on::<S, Fence<Member<D, P>>, J>(site, job),
        _ => ThirtyTwo::on::<S, Fence<Member<D, P>>, J>(site, job),
    }
}

// Builds the members in order and has the work done on them.
pub fn on_cascade<J: Job + Drop>(
    heap: Global,
    seats: &[Seat],
    job: J,
) -> Result<J::Out, CascadeFault>
    ensures answer { CascadeAnswer (J.Job.tells job) seats.now result }
{
    if seats.is_empty() || seats.len() > MEMBERS {
        return Err(CascadeFault::Members(seats.len()));
    }
    let room = CELLS * places_for(seats.len());
    let mut words = vec![in heap; 0u32; room]?;
    let mut marks = vec![in heap; 0u8; room]?;
    let cells = Cells {
        words: &mut words,
        marks: &mut marks,
    };
    let site = Site { cells, seats };
    Ok(on_places::<Site, Device, Planes, J>(site, seats.len(), job))
}
