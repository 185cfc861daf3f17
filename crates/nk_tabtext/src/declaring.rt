//! What a table text declares, token by token.
ghost use Rattle.std.specs.Prelude.{◌≡◌, IfOk, OnErr, OnOk};
ghost use Rattle.nk_tabgrammar.specs.Machine.{TableParseReturns};
ghost use Rattle.nk_tabtext.specs.InMemory.{declaring_in};
ghost use Rattle.nk_tabtext.specs.Progress.{StaysWithoutMemory, first_declaring, field_max_told, field_name_told, link_told, number_of_token, port_told, switch_ends_told, switch_told, tag_told};
ghost use Rattle.nk_tabtext.specs.Values as meaning;

use nk_declare::{DeclareError, Declared, Ports};
use nk_lex::{Bytes, Ident, Number, Token, ident_of};
use nk_tabgrammar::ReadError;
use std::alloc::{AllocError, Global};

/// What is declared, and what is told so far of the declaration that is read.
pub(crate) struct Declaring {
    pub(crate) said: Declared,
    name: Ident,
    switch: u16,
    ports: Ports,
    from_switch: Number,
    from_port: Number,
    to_switch: Number,
}

impl Drop for Declaring {
    fn drop(self) {
        let Self {
            said: _,
            name: _,
            switch: _,
            ports: _,
            from_switch: _,
            from_port: _,
            to_switch: _,
        } = self;
    }
}

/// The number that a token is.
pub(crate) fn number_in(token: &Token) -> Number
    ensures value { result.value ≡ token.now.value }
    ensures line { result.line ≡ token.now.line }
{
    Number {
        value: token.value,
        line: token.line,
    }
}

/// The fault of a declaration, at its line.
fn fault_of(error: DeclareError) -> ReadError
    ensures { result ≡ meaning.fault_of error }
{
    match error {
        DeclareError::NoMemory => ReadError::NoMemory,
        DeclareError::Fault { kind: _, line } => ReadError::TableFault { line },
    }
}

impl Declaring {
    /// Nothing is declared yet.
    pub(crate) fn new(alloc: Global) -> Result<Declaring, AllocError>
        ensures { IfOk result (λ d. declaring_in d ≡ first_declaring) }
    {
        let none = Number { value: 0, line: 0 };
        Ok(Declaring {
            said: Declared::new(alloc)?,
            name: Ident {
                text: Bytes::new(alloc),
                line: 0,
            },
            switch: 0,
            ports: Ports::new(alloc),
            from_switch: none,
            from_port: none,
            to_switch: none,
        })
    }

    /// The name of a field.
    pub(crate) fn field_name(&mut self, alloc: Global, token: &Token) -> Result<(), ReadError>
        ensures told { TableParseReturns (λ _. declaring_in self.new) result
            (field_name_told (declaring_in self.old) token.now) }
        ensures kept { StaysWithoutMemory result (declaring_in self.old) (declaring_in self.new) }
    {
        self.name = ident_of(alloc, token)?;
        Ok(())
    }

    /// The largest value of the field.
    pub(crate) fn field_max(&mut self, token: &Token) -> Result<(), ReadError>
        ensures told { TableParseReturns (λ _. declaring_in self.new) result
            (field_max_told (declaring_in self.old) token.now) }
        ensures kept { StaysWithoutMemory result (declaring_in self.old) (declaring_in self.new) }
    {
        match self.said.add_field(&self.name, number_in(token)) {
            Ok(()) => Ok(()),
            Err(error) => Err(fault_of(error)),
        }
    }

    /// The name of the tag.
    pub(crate) fn tag(&mut self, token: &Token) -> Result<(), ReadError>
        ensures told { TableParseReturns (λ _. declaring_in self.new) result
            (tag_told (declaring_in self.old) token.now) }
        ensures kept { StaysWithoutMemory result (declaring_in self.old) (declaring_in self.new) }
    {
        match self.said.add_tag(token.text.as_slice(), token.line) {
            Ok(()) => Ok(()),
            Err(error) => Err(fault_of(error)),
        }
    }

    /// The number of a switch.
    pub(crate) fn switch(&mut self, alloc: Global, token: &Token) -> Result<(), ReadError>
        ensures told { TableParseReturns (λ _. declaring_in self.new) result
            (switch_told (declaring_in self.old) token.now) }
        ensures kept { StaysWithoutMemory result (declaring_in self.old) (declaring_in self.new) }
    {
        match self.said.new_switch(number_in(token)) {
            Ok(switch) => {
                self.switch = switch;
                self.ports = Ports::new(alloc);
                Ok(())
            }
            Err(error) => Err(fault_of(error)),
        }
    }

    /// A port of the switch.
    pub(crate) fn port(&mut self, token: &Token) -> Result<(), ReadError>
        ensures told { TableParseReturns (λ _. declaring_in self.new) result
            (port_told (declaring_in self.old) token.now) }
        ensures kept { StaysWithoutMemory result (declaring_in self.old) (declaring_in self.new) }
    {
        match self.ports.add(number_in(token)) {
            Ok(()) => Ok(()),
            Err(error) => Err(fault_of(error)),
        }
    }

    /// The switch has no further port. It is new, as its number was looked at.
    pub(crate) fn switch_ends(&mut self) -> Result<(), AllocError>
        ensures ok { OnOk result
            (declaring_in self.new ≡ switch_ends_told (declaring_in self.old)) }
        ensures kept { OnErr result (declaring_in self.new ≡ declaring_in self.old) }
    {
        if self.said.topo.is_switch(self.switch) {
            return Ok(());
        }
        self.said.add_switch(self.switch, self.ports.as_slice())
    }

    /// The source's switch of a link.
    pub(crate) fn link_switch(&mut self, token: &Token)
        ensures { declaring_in self.new
            ≡ record (declaring_in self.old) { from_switch = number_of_token token.now } }
    {
        self.from_switch = number_in(token);
    }

    /// The source's port.
    pub(crate) fn link_port(&mut self, token: &Token)
        ensures { declaring_in self.new
            ≡ record (declaring_in self.old) { from_port = number_of_token token.now } }
    {
        self.from_port = number_in(token);
    }

    /// The target's switch.
    pub(crate) fn link_to_switch(&mut self, token: &Token)
        ensures { declaring_in self.new
            ≡ record (declaring_in self.old) { to_switch = number_of_token token.now } }
    {
        self.to_switch = number_in(token);
    }

    /// The target's port.
    pub(crate) fn link_to_port(&mut self, token: &Token) -> Result<(), ReadError>
        ensures told { TableParseReturns (λ _. declaring_in self.new) result
            (link_told (declaring_in self.old) token.now) }
        ensures kept { StaysWithoutMemory result (declaring_in self.old) (declaring_in self.new) }
    {
        let to_port = number_in(token);
        match self
            .said
            .add_link(self.from_switch, self.from_port, self.to_switch, to_port)
        {
            Ok(()) => Ok(()),
            Err(error) => Err(fault_of(error)),
        }
    }

    /// All that is declared.
    pub(crate) fn into_said(self) -> Declared
        ensures { result ≡ self.said }
    {
        let Declaring {
            said,
            name: _,
            switch: _,
            ports: _,
            from_switch: _,
            from_port: _,
            to_switch: _,
        } = self;
        said
    }
}
