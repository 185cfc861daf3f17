//! How many of its plan steps each switch has done.
ghost use Rattle.std.specs.Prelude.{◌≡◌, ◌<◌, ◌≤◌, ◌+◌, ◌*◌, ◌^◌, ℕ, nat_le, length, map, sum, if◌then◌else◌, Contains, All, IfOk};
ghost use Rattle.std.specs.List.{list_all};
ghost use Rattle.nk_topo.specs.Topology.{numbers_of};
ghost use Rattle.nk_flight.specs.Updates.{done_by, one_more_event};

use nk_topo::Topo;
use std::alloc::{AllocError, Global};
use std::marker::Model;

/// How many plan steps each switch has done. A contract sees it as a `ProgressState`.
pub(crate) struct Progress {
    switches: Vec<u16>,
    done: Vec<u8>,
    once: usize,
    twice: usize,
}

impl Drop for Progress {
    fn drop(self) {
        let Self {
            switches: _,
            done: _,
            once: _,
            twice: _,
        } = self;
    }
}

impl Model for Progress {
    ghost use Rattle.nk_flight.specs.Progresses.{ProgressState, progress_at, IsProgress};

    ghost Value = { ProgressState };

    ghost view = { λ p. progress_at p.switches.items p.done.items };

    ghost invariant = { λ p. IsProgress p.switches.items p.done.items p.once p.twice };
}

impl Progress {
    /// No plan step is done. The only error is that memory ran out.
    pub(crate) fn new(alloc: Global, topo: &Topo) -> Result<Progress, AllocError>
        ensures switches { IfOk result (λ p. p.switches ≡ numbers_of topo.now) }
        ensures none { IfOk result (λ p. (sw : ℕ) → done_by p.done sw ≡ 0) }
    {
        let switches = Vec::from_slice(alloc, topo.switches())?;
        let done = vec![in alloc; 0; 65_536]?;
        Ok(Progress {
            switches,
            done,
            once: 0,
            twice: 0,
        })
    }

    /// How many steps a switch has done.
    pub(crate) fn at(&self, switch: u64) -> u8
        ensures { result ≡ done_by self.now.done switch }
    {
        if switch < self.done.len() as u64 {
            self.done[switch as usize]
        } else {
            0
        }
    }

    /// Whether each switch has done one step.
    pub(crate) fn all_once(&self) -> bool
        ensures { result ≡ list_all (λ sw. nat_le 1 (done_by self.now.done sw)) self.now.switches }
    {
        self.once == self.switches.len()
    }

    /// Whether each switch has done two steps.
    pub(crate) fn all_twice(&self) -> bool
        ensures { result ≡ list_all (λ sw. nat_le 2 (done_by self.now.done sw)) self.now.switches }
    {
        self.twice == self.switches.len()
    }

    /// How many steps all switches have done together.
    pub(crate) fn steps(&self) -> u64
        ensures { result ≡ sum (map (done_by self.now.done) self.now.switches) }
    {
        steps_of(self.switches.as_slice(), self.done.as_slice())
    }

    /// One step more of a switch.
    pub(crate) fn add_one(&mut self, switch: u16)
        requires there { Contains self.old.switches switch }
        requires few { done_by self.old.done switch < 3 }
        ensures switches { self.new.switches ≡ self.old.switches }
        ensures counts { (sw : ℕ)
            → done_by self.new.done sw ≡ one_more_event switch (done_by self.old.done) sw }
    {
        let at = usize::from(switch);
        are_few(self.switches.as_slice());
        let steps = self.done[at];
        self.once = counted(self.once, steps == 0);
        self.twice = counted(self.twice, steps == 1);
        self.done[at] = steps + 1;
    }
}

/// Switches are no more than a place can tell.
fn are_few(switches: &[u16])
    ensures { length switches.now ≤ usize.MAX }
{
    let _held = switches.len();
}

/// One more, or none.
pub(crate) fn counted(count: usize, more: bool) -> usize
    requires { count + (if more then 1 else 0) ≤ usize.MAX }
    ensures { result ≡ count + (if more then 1 else 0) }
{
    if more { count + 1 } else { count }
}

/// How many steps these switches have done together, none of which has done more than three.
fn steps_of(switches: &[u16], done: &[u8]) -> u64
    requires { All (λ d. d ≤ 3) done.now }
    ensures { result ≡ sum (map (done_by done.now) switches.now) }
{
    are_fewer(switches);
    let mut total = 0;
    for switch in switches {
        total += u64::from(count_of(done, *switch));
    }
    total
}

/// The numbers of switches in memory, two bytes each, are less than a quarter of what a count can tell.
fn are_fewer(switches: &[u16])
    ensures { 4 * length switches.now < 2 ^ 64 }
{
    let _held = switches.len();
}

/// The count of a switch.
fn count_of(done: &[u8], switch: u16) -> u8
    requires { All (λ d. d ≤ 3) done.now }
    ensures is { result ≡ done_by done.now switch }
    ensures few { result ≤ 3 }
{
    let at = usize::from(switch);
    if at < done.len() { done[at] } else { 0 }
}
