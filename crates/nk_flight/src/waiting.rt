//! The places of copies that wait, held in blocks: where one is taken out, those of its block alone move up.
ghost use Rattle.std.specs.Prelude.{◌≡◌, ◌<◌, ◌≤◌, ◌+◌, ◌++◌, [], length, take, remove, slice_index, slice_index_or, IfOk, OnOk, OnErr};
ghost use Rattle.std.specs.List.{concat};

use std::alloc::{AllocError, Global};
use std::marker::Model;

/// What comes in is put into the last block where that has fewer places than this; else it is a new block.
const ENOUGH: usize = 2048;

/// Some of the places, one after the other. A contract sees it as their list.
struct Block {
    places: Vec<usize>,
}

impl Drop for Block {
    fn drop(self) {
        let Self { places: _ } = self;
    }
}

impl Model for Block {
    ghost use Rattle.std.specs.Prelude.{ℕ, List as Items};

    ghost Value = { Items ℕ };

    ghost view = { λ b. b.places.items };
}

impl Block {
    /// How many places there are.
    fn len(&self) -> usize
        ensures { result ≡ length self.now }
    {
        self.places.len()
    }

    /// The place at an index.
    fn at(&self, i: usize) -> usize
        requires { i < length self.now }
        ensures { result ≡ slice_index self.now i }
    {
        self.places[i]
    }

    /// Puts these places after the others. Where memory runs out the block stays as it was.
    fn append(&mut self, mut places: Vec<usize>) -> Result<(), AllocError>
        ensures ok { OnOk result (self.new ≡ self.old ++ places.items) }
        ensures err { OnErr result (self.new ≡ self.old) }
    {
        self.places.append(&mut places)?;
        Ok(())
    }

    /// Takes out the place at an index.
    fn take(&mut self, i: usize)
        requires { i < length self.old }
        ensures { self.new ≡ remove self.old i }
    {
        let _taken = self.places.remove(i);
    }
}

/// The places of copies that wait, in order. A contract sees it as their list.
pub(crate) struct Waiting {
    blocks: Vec<Block>,
    count: usize,
}

impl Drop for Waiting {
    fn drop(self) {
        let Self {
            blocks: _,
            count: _,
        } = self;
    }
}

impl Model for Waiting {
    ghost use Rattle.std.specs.Prelude.{◌≡◌, ℕ, List as Items, length};
    ghost use Rattle.std.specs.List.{concat};

    ghost Value = { Items ℕ };

    ghost view = { λ w. concat w.blocks.items };

    ghost invariant = { λ w. w.count ≡ length (concat w.blocks.items) };
}

impl Waiting {
    /// No places; it takes no memory.
    pub(crate) fn new(alloc: Global) -> Waiting
        ensures { result ≡ [] }
    {
        Waiting {
            blocks: Vec::new(alloc),
            count: 0,
        }
    }

    /// How many places there are.
    pub(crate) fn len(&self) -> usize
        ensures { result ≡ length self.now }
    {
        self.count
    }

    /// The place at an index.
    pub(crate) fn at(&self, i: usize) -> usize
        requires { i < length self.now }
        ensures { result ≡ slice_index self.now i }
    {
        let (block, within) = find(self.blocks.as_slice(), i);
        self.blocks[block].at(within)
    }

    /// Puts these places after the others. Where memory runs out all stays as it was.
    pub(crate) fn append(&mut self, places: Vec<usize>) -> Result<(), AllocError>
        requires { length self.old + length places.items ≤ usize.MAX }
        ensures ok { OnOk result (self.new ≡ self.old ++ places.items) }
        ensures err { OnErr result (self.new ≡ self.old) }
    {
        let more = places.len();
        put_following(&mut self.blocks, places)?;
        self.count += more;
        Ok(())
    }

    /// Takes out the place at an index.
    pub(crate) fn take(&mut self, i: usize)
        requires { i < length self.old }
        ensures { self.new ≡ remove self.old i }
    {
        let (block, within) = find(self.blocks.as_slice(), i);
        take_out(&mut self.blocks, block, within);
        self.count -= 1;
    }

    /// The places as a vector. The only error is that memory ran out.
    pub(crate) fn listed(&self, alloc: Global) -> Result<Vec<usize>, AllocError>
        ensures { IfOk result (λ places. places.items ≡ self.now) }
    {
        let mut places = Vec::new(alloc);
        for block in &self.blocks {
            places.extend_from_slice(block.places.as_slice())?;
        }
        Ok(places)
    }
}

/// Which block has the place at an index of all, and at which index of that block.
fn find(blocks: &[Block], i: usize) -> (usize, usize)
    requires { i < length (concat blocks.now) }
    ensures there { result.0 < length blocks.now }
    ensures within { result.1 < length (slice_index_or blocks.now result.0 []) }
    ensures before { length (concat (take result.0 blocks.now)) + result.1 ≡ i }
{
    let mut block = 0;
    let mut within = i;
    while blocks[block].len() <= within {
        within -= blocks[block].len();
        block += 1;
    }
    (block, within)
}

/// Puts places into the last block where there is room, else after it as a new block. Where memory runs out all stays
/// as it was.
fn put_following(blocks: &mut Vec<Block>, places: Vec<usize>) -> Result<(), AllocError>
    ensures ok { OnOk result (concat blocks.new.items ≡ concat blocks.old.items ++ places.items) }
    ensures err { OnErr result (concat blocks.new.items ≡ concat blocks.old.items) }
{
    let count = blocks.len();
    if count > 0 && blocks[count - 1].len() < ENOUGH {
        blocks[count - 1].append(places)?;
    } else {
        blocks.push(Block { places })?;
    }
    Ok(())
}

/// Takes out the place at an index of a block, and the block where it was its last.
fn take_out(blocks: &mut Vec<Block>, block: usize, within: usize)
    requires there { block < length blocks.old.items }
    requires within { within < length (slice_index_or blocks.old.items block []) }
    ensures { concat blocks.new.items
        ≡ remove (concat blocks.old.items)
        (length (concat (take block blocks.old.items)) + within) }
{
    blocks[block].take(within);
    if blocks[block].len() == 0 {
        let _emptied = blocks.remove(block);
    }
}
