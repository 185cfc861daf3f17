//! The table of a switch, found in constant time.
ghost use Rattle.std.specs.Prelude.{◌≡◌, ◌==◌, ◌<◌, ℕ, if◌then◌else◌, length, slice_index_or, IfOk, OnOk};
ghost use Rattle.std.specs.Option.{option_copied};
ghost use Rattle.nk_sim.specs.Emitted.{Finds, found_by, table_of};

use nk_table::{Table, Tables};
use std::alloc::{AllocError, Global};

/// Where the table of each switch stands among the tables that it was made for.
#[derive(Drop)]
pub struct Finder {
    /// By switch, up to the greatest one that has a table; the first table where a switch has several.
    places: Vec<Option<usize>>,
}

impl Finder {
    /// The finder of these tables. It takes a few bytes for each number up to the number of the greatest switch with a table.
    /// The only error is that memory ran out.
    pub fn new(alloc: Global, t: &Tables) -> Result<Finder, AllocError>
        ensures { IfOk result (λ finder. Finds finder t.now.tables) }
    {
        let places = places_of(alloc, t.tables.as_slice())?;
        Ok(Finder { places })
    }

    /// The table of a switch, of the tables that the finder was made for.
    pub(crate) fn table<'a>(&self, tables: &'a [Table], switch: u64) -> Option<&'a Table>
        requires { Finds self.now tables.now }
        ensures { option_copied result ≡ table_of tables.now switch }
    {
        match place_at(self.places.as_slice(), switch) {
            Some(place) => tables.get(place),
            None => None,
        }
    }
}

/// The index of the first table of each switch.
fn places_of(alloc: Global, tables: &[Table]) -> Result<Vec<Option<usize>>, AllocError>
    ensures { IfOk result (λ places. (switch : ℕ)
        → found_by places.items tables.now switch ≡ table_of tables.now switch) }
{
    let mut places = Vec::new(alloc);
    let mut i = tables.len();
    while i > 0 {
        i -= 1;
        set_place(&mut places, tables[i].switch, i)?;
    }
    Ok(places)
}

/// Sets the index of a switch's table.
fn set_place(places: &mut Vec<Option<usize>>, switch: u16, place: usize) -> Result<(), AllocError>
    ensures { OnOk result ((other : ℕ) → slice_index_or places.new.items other None
        ≡ (if switch == other then Some place else slice_index_or places.old.items other None)) }
{
    make_room(places, switch)?;
    places[usize::from(switch)] = Some(place);
    Ok(())
}

/// Makes room for the index of a switch's table; no switch gets one.
fn make_room(places: &mut Vec<Option<usize>>, switch: u16) -> Result<(), AllocError>
    ensures room { OnOk result (switch < length places.new.items) }
    ensures kept { OnOk result
        ((other : ℕ) → slice_index_or places.new.items other None
        ≡ slice_index_or places.old.items other None) }
{
    let at = usize::from(switch);
    if at < places.len() {
        return Ok(());
    }
    places.resize(at + 1, None)?;
    Ok(())
}

/// The index of a switch's table, if it has one.
fn place_at(places: &[Option<usize>], switch: u64) -> Option<usize>
    ensures { result ≡ slice_index_or places.now switch None }
{
    if switch < places.len() as u64 {
        return places[switch as usize];
    }
    None
}
