//! What is known of a table text whose first tokens were read and broke no rule.
ghost use Rattle.std.specs.Prelude.{◌≡◌, IfOk, OnOk};
ghost use Rattle.nk_declare.specs.InMemory.{declared_in};
ghost use Rattle.nk_tabgrammar.specs.Machine.{TableParseReturns};
ghost use Rattle.nk_tabtext.specs.InMemory.{partial_in};
ghost use Rattle.nk_tabtext.specs.Progress.{StaysWithoutMemory, end_told, first_partial, tables_at_end, told, version_told};
ghost use Rattle.nk_tabtext.specs.Values.{whole};

use crate::declaring::Declaring;
use crate::filling::Filling;
use crate::tables::{Tabled, each};
use crate::values::refuse_if;
use nk_declare::Declared;
use nk_lex::Token;
use nk_tabgrammar::{ReadError, Tells};
use nk_table::Tables;
use std::alloc::{AllocError, Global};
use std::collections::BTreeMap;

/// The version, what is declared, the whole tables by switch, and what is read of the next one.
#[derive(Drop)]
pub(crate) struct Partial {
    version: u64,
    declaring: Declaring,
    tables: Tabled,
    filling: Filling,
}

/// The tables of all declared switches, where these are written.
#[tactic(auto, using(crate::proofs::Numbers::numbers_rise))]
fn whole(alloc: Global, said: Declared, read: Tabled) -> Result<Tables, AllocError>
    ensures { IfOk result (λ t. t ≡ whole (declared_in said) read.entries) }
{
    let Declared { fields, topo } = said;
    let topo = topo.finish()?;
    let tables = each(alloc, topo.switches(), read)?;
    Ok(Tables {
        fields,
        topo,
        tables,
    })
}

impl Partial {
    /// Before the first token.
    pub(crate) fn new(alloc: Global) -> Result<Partial, AllocError>
        ensures { IfOk result (λ p. partial_in p ≡ first_partial) }
    {
        Ok(Partial {
            version: 0,
            declaring: Declaring::new(alloc)?,
            tables: BTreeMap::new(alloc),
            filling: Filling::new(alloc),
        })
    }

    /// The number after the word `tables`.
    fn version(&mut self, token: &Token) -> Result<(), ReadError>
        ensures told { TableParseReturns (λ _. partial_in self.new) result
            (version_told (partial_in self.old) token.now) }
        ensures kept { StaysWithoutMemory result (partial_in self.old) (partial_in self.new) }
    {
        refuse_if(token.value != 1 && token.value != 2, token.line)?;
        self.version = token.value;
        Ok(())
    }

    /// One more token, by what it tells. Where it breaks a rule, its line is the fault. Where memory ran out, nothing changed.
    pub(crate) fn tell(
        &mut self,
        alloc: Global,
        tells: Tells,
        token: &Token,
    ) -> Result<(), ReadError>
        ensures told { TableParseReturns (λ _. partial_in self.new) result
            (told tells (partial_in self.old) token.now) }
        ensures kept { StaysWithoutMemory result (partial_in self.old) (partial_in self.new) }
    {
        match tells {
            Tells::Nothing => Ok(()),
            Tells::MatchName => self.filling.match_name(&self.declaring.said.fields, token),
            Tells::MatchValue => self.filling.match_value(token),
            Tells::MatchLength => self.filling.match_length(self.version, token),
            Tells::SetName => self.filling.set_name(&self.declaring.said.fields, token),
            Tells::SetValue => self.filling.set_value(alloc, token),
            Tells::Row => self.filling.row(token),
            Tells::OutPort => self.filling.out_port(token),
            Tells::OutBack => Ok(self.filling.out_back()),
            Tells::RowBucket => Ok(self.filling.row_bucket(alloc)?),
            Tells::RowGroup => self.filling.row_group(alloc, token),
            Tells::RowDrop => Ok(self.filling.row_drop(alloc)?),
            Tells::Group => self.filling.group(alloc, token),
            Tells::GroupBucket => Ok(self.filling.group_bucket(alloc)?),
            Tells::GroupEnds => Ok(self.filling.group_ends(alloc)?),
            Tells::Table => self
                .filling
                .table(alloc, &self.declaring.said, &mut self.tables, token),
            Tells::Version => self.version(token),
            Tells::FieldName => self.declaring.field_name(alloc, token),
            Tells::FieldMax => self.declaring.field_max(token),
            Tells::Tag => self.declaring.tag(token),
            Tells::Switch => self.declaring.switch(alloc, token),
            Tells::Port => self.declaring.port(token),
            Tells::SwitchEnds => Ok(self.declaring.switch_ends()?),
            Tells::LinkSwitch => Ok(self.declaring.link_switch(token)),
            Tells::LinkPort => Ok(self.declaring.link_port(token)),
            Tells::LinkToSwitch => Ok(self.declaring.link_to_switch(token)),
            Tells::LinkToPort => self.declaring.link_to_port(token),
        }
    }

    /// What the end tells.
    fn tell_end(&mut self, alloc: Global, tells: Tells) -> Result<(), AllocError>
        ensures { OnOk result (partial_in self.new ≡ end_told tells (partial_in self.old)) }
    {
        match tells {
            Tells::SwitchEnds => self.declaring.switch_ends(),
            Tells::GroupEnds => self.filling.group_ends(alloc),
            _ => Ok(()),
        }
    }

    /// The tables, where the text ends here and this is what its end tells; `line` is the last token's.
    pub(crate) fn end(self, alloc: Global, tells: Tells, line: u64) -> Result<Tables, ReadError>
        ensures { TableParseReturns (λ t. t) result (tables_at_end tells (partial_in self) line) }
    {
        let mut partial = self;
        partial.tell_end(alloc, tells)?;
        partial.filling.finish(alloc, &mut partial.tables)?;
        let Partial {
            version: _,
            declaring,
            tables,
            filling: _,
        } = partial;
        let said = declaring.into_said();
        refuse_if(said.fields.tag().is_none(), line)?;
        Ok(whole(alloc, said, tables)?)
    }
}
