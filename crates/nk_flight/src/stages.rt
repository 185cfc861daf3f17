//! The tables by which switches go while plan steps are done.
ghost use Rattle.std.specs.Prelude.{◌≡◌, ◌<◌, length, map, IfOk};
ghost use Rattle.std.specs.List.{flat_map};
ghost use Rattle.nk_topo.specs.Topology as declared;
ghost use Rattle.nk_table.specs.Rules.{sent_for};
ghost use Rattle.nk_update.specs.Steps as plans;
ghost use Rattle.nk_flight.specs.Flights.{left_next};
ghost use Rattle.nk_flight.specs.Trails.{AreHops, hop_at, hop_of, copy_at};
ghost use Rattle.nk_flight.specs.Updates as updates;
ghost use Rattle.nk_flight.specs.Updates.{stages_of, stage_after};

use crate::hop_list::HopList;
use crate::hops::{Outcome, handle};
use nk_field::{Fid, Fields, List, Packet};
use nk_sim::Finder;
use nk_table::{Table, Tables};
use nk_topo::Topo;
use nk_update::{Plan, PlanTables};
use std::alloc::{AllocError, Global};
use std::marker::Model;

/// The tables of all switches after so many plan steps at each, and where each switch's stands.
struct Stage {
    tables: Tables,
    finder: Finder,
}

impl Drop for Stage {
    fn drop(self) {
        let Self {
            tables: _,
            finder: _,
        } = self;
    }
}

impl Model for Stage {
    ghost use Rattle.nk_table.specs.declared.Tables.{Tables};
    ghost use Rattle.nk_sim.specs.Emitted.{Finds};

    ghost Value = { Tables };

    ghost view = { λ s. s.tables };

    ghost invariant = { λ s. Finds s.finder s.tables.tables };
}

impl Stage {
    /// The tables of a plan after so many steps. The only error is that memory ran out.
    fn new(alloc: Global, plan: &Plan, steps: u8) -> Result<Stage, AllocError>
        ensures { IfOk result (λ stage. stage ≡ plans.tables_after plan.now steps) }
    {
        let fields = plan.fields.copy()?;
        let topo = plan.topo.copy()?;
        let tables = Tables {
            fields,
            topo,
            tables: tables_of(alloc, plan.switches.as_slice(), steps)?,
        };
        let finder = Finder::new(alloc, &tables)?;
        Ok(Stage { tables, finder })
    }

    /// What the copy whose hop is at a place leads to when its switch handles it.
    fn handle(&self, alloc: Global, hops: &HopList, place: usize) -> Result<Outcome, AllocError>
        requires hops { AreHops hops.now }
        requires there { place < length hops.now }
        ensures next { IfOk result (λ all. all.next.items
            ≡ flat_map (hop_of self.now place (hop_at hops.now place))
            (sent_for self.now (hop_at hops.now place).packet)) }
        ensures left { IfOk result
            (λ all. all.left.items
            ≡ left_next self.now (copy_at self.now.fields hops.now (hop_at hops.now place))) }
    {
        handle(alloc, &self.finder, &self.tables, hops, place)
    }
}

/// The tables of each switch after so many steps.
fn tables_of(alloc: Global, switches: &[PlanTables], steps: u8) -> Result<List<Table>, AllocError>
    ensures { IfOk result (λ all. all ≡ map (plans.table_after steps) switches.now) }
{
    let mut all = List::new(alloc);
    for switch in switches {
        all.push(table_of(switch, steps)?)?;
    }
    Ok(all)
}

/// The table of a switch after so many steps.
fn table_of(switch: &PlanTables, steps: u8) -> Result<Table, AllocError>
    ensures { IfOk result (λ t. t ≡ plans.table_after steps switch.now) }
{
    match steps {
        0 => switch.before.copy(),
        1 => switch.added.copy(),
        2 => switch.replaced.copy(),
        _ => switch.removed.copy(),
    }
}

/// The tables of a plan before its first step and after each of the three. A contract sees them as `Stages`.
pub(crate) struct StageTables {
    before: Stage,
    added: Stage,
    replaced: Stage,
    removed: Stage,
    old_tags: u64,
}

impl Drop for StageTables {
    fn drop(self) {
        let Self {
            before: _,
            added: _,
            replaced: _,
            removed: _,
            old_tags: _,
        } = self;
    }
}

impl Model for StageTables {
    ghost use Rattle.nk_flight.specs.Updates.{Stages};
    ghost use Rattle.nk_flight.specs.Held.{HaveOneFrame, stages_at};

    ghost Value = { Stages };

    ghost view = { λ s. stages_at s.before s.added s.replaced s.removed s.old_tags };

    ghost invariant = { λ s. HaveOneFrame (stages_at s.before s.added s.replaced s.removed s.old_tags) };
}

impl StageTables {
    /// Those of a plan. The only error is that memory ran out.
    pub(crate) fn new(alloc: Global, plan: &Plan) -> Result<StageTables, AllocError>
        ensures { IfOk result (λ stages. stages ≡ stages_of plan.now) }
    {
        let before = Stage::new(alloc, plan, 0)?;
        let added = Stage::new(alloc, plan, 1)?;
        let replaced = Stage::new(alloc, plan, 2)?;
        let removed = Stage::new(alloc, plan, 3)?;
        Ok(StageTables {
            before,
            added,
            replaced,
            removed,
            old_tags: plan.old_tags,
        })
    }

    /// The fields of all.
    pub(crate) fn fields(&self) -> &Fields
        ensures { result.now ≡ self.now.before.fields }
    {
        &self.before.tables.fields
    }

    /// The topology.
    pub(crate) fn topo(&self) -> &Topo
        ensures { result.now ≡ self.now.before.topo }
    {
        &self.before.tables.topo
    }

    /// Whether a packet has one of the old tags.
    pub(crate) fn is_old(&self, p: &Packet) -> bool
        ensures { result ≡ updates.is_old_tag self.now p.now }
    {
        let tag = match self.before.tables.fields.tag() {
            Some(f) => p.get(f),
            None => p.get(Fid::SWITCH),
        };
        1 <= tag && tag <= self.old_tags
    }

    /// What the copy whose hop is at a place leads to by the tables after so many steps.
    pub(crate) fn handle(
        &self,
        alloc: Global,
        hops: &HopList,
        place: usize,
        steps: u8,
    ) -> Result<Outcome, AllocError>
        requires hops { AreHops hops.now }
        requires there { place < length hops.now }
        ensures next { IfOk result (λ all. all.next.items
            ≡ flat_map (hop_of (stage_after self.now steps) place (hop_at hops.now place))
            (sent_for (stage_after self.now steps) (hop_at hops.now place).packet)) }
        ensures left { IfOk result (λ all. all.left.items
            ≡ left_next (stage_after self.now steps)
            (copy_at self.now.before.fields hops.now (hop_at hops.now place))) }
        ensures fields { IfOk result
            (λ all. (stage_after self.now steps).fields ≡ self.now.before.fields) }
    {
        match steps {
            0 => self.before.handle(alloc, hops, place),
            1 => self.added.handle(alloc, hops, place),
            2 => self.replaced.handle(alloc, hops, place),
            _ => self.removed.handle(alloc, hops, place),
        }
    }
}
