// Walks over any carrier, by its calls alone.
#![tactic(auto)]

ghost use Rattle.std.specs.Prelude.{◌≡◌, ◌≤◌, [], length, take, filter};
ghost use Rattle.carrier.specs.Carriers.{SameBounds, Shown, under};
ghost use Rattle.walk.specs.Walks.{Young};

use carrier::Carrier;
use wire::{Frame, Refusal};

mod steps;

// The frames of any carrier in order, each with its age. Here and not beside its members: they cite `frames_left`, and no struct with a ghost field can stand where a definition that names it is imported.
#[derive(Drop)]
struct Frames<'a, C: Carrier> {
    carrier: &'a C,
    next: u32,
    // how many there are: asked once, it lets the compiler see how long a walk is, and do several frames in one step
    end: u32,
    ghost whole: { end ≡ length (C.Carrier.list carrier.now) },
}

// Strikes every frame from `place` on. Only the place counts, so unlike `strike_old` it looks at no frame; one walk for both would take a closure, and look at each.
pub fn strike_from<C: Carrier>(c: &mut C, place: u32)
    ensures list { C.Carrier.list c.new ≡ take place (C.Carrier.list c.old) }
    ensures within { length (C.Carrier.list c.new) ≤ place }
    ensures bounds { SameBounds C.Carrier.life C.Carrier.room c.old c.new }
{
    for n in (place..c.count()).rev() {
        let _ = c.strike(n);
    }
}

// Strikes every frame.
pub fn strike_all<C: Carrier>(c: &mut C)
    ensures list { C.Carrier.list c.new ≡ [] }
    ensures bounds { SameBounds C.Carrier.life C.Carrier.room c.old c.new }
{
    strike_from(c, 0);
}

// Strikes every frame that is not younger than `life`. A carrier whose own lifetime is not longer has none.
#[tactic(auto, using(crate::proofs::Youngs::kept_within, crate::proofs::Youngs::young_kept))]
pub fn strike_old<C: Carrier>(c: &mut C, life: u32)
    ensures list { C.Carrier.list c.new ≡ filter (under life) (C.Carrier.list c.old) }
    ensures young { Young life (C.Carrier.list c.new) }
    ensures bounds { SameBounds C.Carrier.life C.Carrier.room c.old c.new }
{
    if c.lifetime() <= life {
        return;
    }
    for n in (0..c.count()).rev() {
        if let Ok((_, age)) = c.show(n)
            && age >= life
        {
            let _ = c.strike(n);
        }
    }
}

// Looks at every frame, and counts those younger than `life`. A loop, as is the next walk: through `filter` the compiler does one frame a step, which takes six times as long.
fn count_each_young<C: Carrier>(c: &C, life: u32) -> u32
    ensures { result ≡ length (filter (under life) (C.Carrier.list c.now)) }
{
    let mut young = 0;
    for (_, age) in Frames::of(c) {
        if age < life {
            young += 1;
        }
    }
    young
}

// How many frames are younger than `life`.
#[tactic(auto, using(crate::proofs::Youngs::kept_within))]
pub fn count_young<C: Carrier>(c: &C, life: u32) -> u32
    ensures { result ≡ length (filter (under life) (C.Carrier.list c.now)) }
{
    if c.lifetime() > life {
        count_each_young(c, life)
    } else {
        c.count()
    }
}

// Looks at the frames one by one for the one at a place among those younger than `life`.
fn show_each_young<C: Carrier>(c: &C, life: u32, place: u32) -> Result<(Frame, u32), Refusal>
    ensures { Shown place (filter (under life) (C.Carrier.list c.now)) result }
{
    let mut young = 0;
    for (frame, age) in Frames::of(c) {
        if age < life {
            if young == place {
                return Ok((frame, age));
            }
            young += 1;
        }
    }
    Err(Refusal::NoSuchPlace)
}

// The frame and its age at one place among those younger than `life`.
#[tactic(auto, using(crate::proofs::Youngs::kept_within))]
pub fn show_young<C: Carrier>(c: &C, life: u32, place: u32) -> Result<(Frame, u32), Refusal>
    ensures { Shown place (filter (under life) (C.Carrier.list c.now)) result }
{
    if c.lifetime() > life {
        show_each_young(c, life, place)
    } else {
        c.show(place)
    }
}
