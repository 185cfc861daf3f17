//! Packets in flight while new tables take the old ones' place.
ghost use Rattle.std.specs.Prelude.{◌≡◌, ◌<◌, ◌≤◌, ◌+◌, ◌-◌, true, if◌then◌else◌, Some, None, length, slice_set, IfOk, OnOk, OnErr};
ghost use Rattle.nk_flight.specs.Flights.{injected};
ghost use Rattle.nk_flight.specs.Progresses.{how_many};
ghost use Rattle.nk_flight.specs.Updates as updates;
ghost use Rattle.nk_flight.specs.Updates.{stages_of, at_the_start, moved, planned, noted, version_by, state_in, Becomes};

use crate::copies::{Flying, Left};
use crate::flight::put_after;
use crate::hop_list::HopList;
use crate::hops::{Hop, are_few, copies_in, first_hop};
use crate::progress::{Progress, counted};
use crate::stages::StageTables;
use crate::versions::Version;
use crate::waiting::Waiting;
use nk_field::{Fid, Packet};
use nk_update::Plan;
use std::alloc::{AllocError, Global};
use std::marker::Model;

/// Packets in flight while each switch goes over from old tables to new ones by the three steps of a plan. Which packet
/// comes in, which copy is handled and which switch does its next step is up to the caller. A contract sees it as an
/// `UpdateValue`.
pub struct UpdateFlight {
    stages: StageTables,
    progress: Progress,
    packets: Vec<Packet>,
    hops: HopList,
    flying: Waiting,
    left: Vec<Left>,
    versions: Vec<Option<Version>>,
    tagged: usize,
}

impl Drop for UpdateFlight {
    fn drop(self) {
        let Self {
            stages: _,
            progress: _,
            packets: _,
            hops: _,
            flying: _,
            left: _,
            versions: _,
            tagged: _,
        } = self;
    }
}

impl Model for UpdateFlight {
    ghost use Rattle.nk_flight.specs.Updates.{UpdateValue};
    ghost use Rattle.nk_flight.specs.Held.{update_at, IsUpdateHeld};

    ghost Value = { UpdateValue };

    ghost view = { λ f. update_at f.stages f.progress f.packets.items f.hops f.flying f.left.items f.versions.items };

    ghost invariant = { λ f. IsUpdateHeld f.stages f.progress f.packets.items f.hops f.flying f.versions.items f.tagged };
}

impl UpdateFlight {
    /// Before the first injection and the first plan step. The only error is that memory ran out.
    pub fn new(alloc: Global, plan: &Plan) -> Result<UpdateFlight, AllocError>
        ensures stages { IfOk result (λ flight. flight.stages ≡ stages_of plan.now) }
        ensures state { IfOk result
            (λ flight. state_in flight ≡ at_the_start (stages_of plan.now)) }
    {
        let stages = StageTables::new(alloc, plan)?;
        let progress = Progress::new(alloc, stages.topo())?;
        let hops = HopList::new(alloc)?;
        Ok(UpdateFlight {
            stages,
            progress,
            packets: Vec::new(alloc),
            hops,
            flying: Waiting::new(alloc),
            left: Vec::new(alloc),
            versions: Vec::new(alloc),
            tagged: 0,
        })
    }

    /// How many packets have been injected.
    pub fn injected(&self) -> u64
        ensures { result ≡ length self.now.flight.packets }
    {
        self.packets.len() as u64
    }

    /// Injects a packet and answers its number: the first one's is 1. Its copy stands after the others. The only error
    /// is that memory ran out; then all is as it was.
    pub fn inject(&mut self, p: &Packet) -> Result<u64, AllocError>
        ensures number { IfOk result (λ number. number ≡ length self.old.flight.packets + 1) }
        ensures ok { OnOk result
            (Becomes self.old self.new
            (record (state_in self.old) { flight = injected p.now self.old.flight })) }
        ensures err { OnErr result (self.new ≡ self.old) }
    {
        let alloc = *self.packets.allocator();
        let number = self.packets.len() as u64 + 1;
        let _held = self.hops.len();
        self.packets.reserve(1)?;
        self.versions.reserve(1)?;
        let first = first_hop(number, p);
        put_after(alloc, &mut self.hops, &mut self.flying, &[first])?;
        self.tagged = counted(self.tagged, self.stages.is_old(p));
        self.versions.push(None).unwrap();
        self.packets.push(*p).unwrap();
        Ok(number)
    }

    /// Lets its switch handle the copy at a place of `flying`, by the table that its plan steps left there: the copy is
    /// taken out, and what it leads to comes last in `flying` and in `left`. Where it is the first of its injection the
    /// version is noted. The only error is that memory ran out; then all is as it was.
    pub fn step(&mut self, i: usize) -> Result<(), AllocError>
        requires { i < length self.old.flight.flying }
        ensures ok { OnOk result
            (Becomes self.old self.new (moved self.old.stages i (state_in self.old))) }
        ensures err { OnErr result (self.new ≡ self.old) }
    {
        let alloc = *self.packets.allocator();
        let place = self.flying.at(i);
        let _held = self.hops.len();
        let hop = self.hops.at(place);
        let steps = self.progress.at(hop.packet.get(Fid::SWITCH));
        let mut all = self.stages.handle(alloc, &self.hops, place, steps)?;
        self.left.reserve(all.left.len())?;
        let more = tagged_among(&self.stages, all.next.as_slice());
        put_after(alloc, &mut self.hops, &mut self.flying, all.next.as_slice())?;
        self.flying.take(i);
        self.left.append(&mut all.left).unwrap();
        note(&mut self.versions, hop.number, steps);
        self.tagged = without(self.tagged, self.stages.is_old(&hop.packet)) + more;
        Ok(())
    }

    /// How many copies are in flight.
    pub fn len(&self) -> usize
        ensures { result ≡ length self.now.flight.flying }
    {
        self.flying.len()
    }

    /// The histories that have left, the first one first.
    pub fn left(&self) -> &[Left]
        ensures { result.now ≡ self.now.flight.left }
    {
        self.left.as_slice()
    }

    /// The copies in flight, the one that came first at the front, with all that they have recorded, which is written
    /// out. The only error is that memory ran out.
    pub fn flying(&self) -> Result<Vec<Flying>, AllocError>
        ensures { IfOk result (λ flying. flying.items ≡ self.now.flight.flying) }
    {
        let alloc = *self.packets.allocator();
        let places = self.flying.listed(alloc)?;
        copies_in(alloc, self.stages.fields(), &self.hops, places.as_slice())
    }

    /// Whether a switch may do its next plan step: the second needs the first done at every switch, the third the second
    /// at every switch and no copy in flight with an old tag.
    pub fn may_plan(&self, switch: u16) -> bool
        ensures { result ≡ updates.may_plan self.now.stages (state_in self.now) switch }
    {
        if !self.stages.topo().is_switch(switch) {
            return false;
        }
        match self.progress.at(u64::from(switch)) {
            0 => true,
            1 => self.progress.all_once(),
            2 => self.progress.all_twice() && self.tagged == 0,
            _ => false,
        }
    }

    /// How many plan steps the declared switches have done together.
    pub fn steps_done(&self) -> u64
        ensures { result ≡ updates.steps_done self.now.stages (state_in self.now) }
    {
        self.progress.steps()
    }

    /// The next plan step of a switch.
    pub fn plan_step(&mut self, switch: u16)
        requires { updates.may_plan self.old.stages (state_in self.old) switch ≡ true }
        ensures { Becomes self.old self.new (planned self.old.stages switch (state_in self.old)) }
    {
        self.progress.add_one(switch);
    }

    /// The version of an injection, None where it hasn't stepped.
    pub fn version(&self, number: u64) -> Option<Version>
        requires given { 1 ≤ number }
        requires injected { number ≤ length self.now.flight.packets }
        ensures { result ≡ (state_in self.now).versions number }
    {
        self.versions[number as usize - 1]
    }
}

/// How many of these hops have an old tag.
fn tagged_among(stages: &StageTables, hops: &[Hop]) -> usize
    ensures is { result ≡ how_many (λ h. updates.is_old_tag stages.now h.packet) hops.now }
    ensures few { result ≤ length hops.now }
{
    are_few(hops);
    let mut count = 0;
    for hop in hops {
        count = counted(count, stages.is_old(&hop.packet));
    }
    count
}

/// One less, or not.
fn without(count: usize, less: bool) -> usize
    requires { less ≡ true → 1 ≤ count }
    ensures { result ≡ (if less then count - 1 else count) }
{
    if less { count - 1 } else { count }
}

/// Notes the version of an injection, if it has none.
fn note(versions: &mut Vec<Option<Version>>, number: u64, steps: u8)
    requires given { 1 ≤ number }
    requires injected { number ≤ length versions.old.items }
    ensures { versions.new.items
        ≡ slice_set versions.old.items (number - 1)
        (Some (noted (version_by versions.old.items number) steps)) }
{
    let at = number as usize - 1;
    let version = match versions[at] {
        Some(version) => version,
        None => first_version(steps),
    };
    versions[at] = Some(version);
}

/// The version of an injection whose first step comes where so many plan steps are done.
fn first_version(steps: u8) -> Version
    ensures { result ≡ noted None steps }
{
    if steps <= 1 {
        Version::Old
    } else {
        Version::New
    }
}
