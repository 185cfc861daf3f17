//! The declarations of a text taken one by one.
ghost use Rattle.std.specs.Prelude.{◌≡◌, ◌++◌, ◌∷◌, [], All, IfOk, IsOk, List, OnErr, OnOk};
ghost use Rattle.nk_lex.specs.Faults.{and_then};
ghost use Rattle.nk_policy.specs.Tree.{tree_of};
ghost use Rattle.nk_grammar.specs.File.{Declaration, declaration_of, IsWritten};
ghost use Rattle.nk_grammar.specs.Tree.{tree_of as written_of};
ghost use Rattle.nk_names.specs.Declaring.{HasLets, IsDeclared, IsFaulty, first_fault, is_faulty, program_on, with_first};
ghost use Rattle.nk_names.specs.InMemory.{known_in};
ghost use Rattle.nk_names.specs.ProgramOf.{NamesReturns, program_of, row_policy, program_by, program_of_names};

use crate::Program;
use crate::fault::{FaultKind, NamesError};
use crate::names::Names;
use crate::rows::resolve_over;
use nk_declare::Declared;
use nk_grammar::{Ast, Decl};
use nk_policy::Pol;
use std::alloc::{AllocError, Global};
use std::marker::Model;

/// What is known of the declarations so far.
#[derive(Drop)]
enum Known {
    /// They have no fault, and say this.
    Sound(Names),
    /// Their first fault is this, on this line.
    Faulty(FaultKind, u64),
}

/// The fault and its line, or none where memory ran out.
fn first_fault(error: NamesError) -> Option<(FaultKind, u64)>
    ensures { result ≡ first_fault error }
{
    match error {
        NamesError::NoMemory => None,
        NamesError::Fault { kind, line } => Some((kind, line)),
    }
}

impl Known {
    /// One more declaration: the fault that is the first one, or none. Where memory ran out, nothing changed.
    fn tell(&mut self, alloc: Global, decl: &Decl) -> Result<Option<(FaultKind, u64)>, AllocError>
        ensures told { IfOk result
            (λ fault. program_on (known_in self.old) (declaration_of decl.now)
            ≡ with_first fault (known_in self.new)) }
        ensures err { OnErr result (known_in self.new ≡ known_in self.old) }
    {
        let told = match self {
            Known::Sound(names) => names.add(alloc, decl),
            Known::Faulty(_, _) => Ok(()),
        };
        match told {
            Ok(()) => Ok(None),
            Err(error) => match first_fault(error) {
                Some(fault) => Ok(Some(fault)),
                None => Err(AllocError),
            },
        }
    }

    /// The first fault is this one, where there is one.
    fn put_fault(&mut self, fault: Option<(FaultKind, u64)>)
        ensures { known_in self.new ≡ with_first fault (known_in self.old) }
    {
        if let Some((kind, line)) = fault {
            *self = Known::Faulty(kind, line);
        }
    }

    /// One more declaration. Where memory ran out, nothing changed.
    fn go_on(&mut self, alloc: Global, decl: &Decl) -> Result<(), AllocError>
        ensures ok { OnOk result
            (known_in self.new ≡ program_on (known_in self.old) (declaration_of decl.now)) }
        ensures kept { OnErr result (known_in self.new ≡ known_in self.old) }
    {
        let fault = self.tell(alloc, decl)?;
        self.put_fault(fault);
        Ok(())
    }
}

/// The program of what was declared.
fn program_in(names: Names) -> Result<Program, AllocError>
    requires { HasLets (program_of_names names) }
    ensures { IfOk result (λ p. program_by p ≡ program_of_names names) }
{
    let Names {
        declared,
        lets,
        fabrics,
        virtuals,
    } = names;
    let Declared { fields, topo } = declared;
    let topo = topo.finish()?;
    let _switches = topo.switches();
    Ok(Program {
        fields,
        topo,
        lets: lets.into_list(),
        fabrics: fabrics.into_list(),
        virtuals: virtuals.into_list(),
    })
}

/// The declarations of a text taken one by one, in order: they become the fields, the topology, the policies, the fabrics and
/// the virtual links of a program as they come, and no declaration is kept. After a fault nothing but the fault is kept. A contract sees what is said so far, or
/// the first fault.
pub struct ProgramReader {
    known: Known,
}

impl Drop for ProgramReader {
    fn drop(self) {
        let Self { known: _ } = self;
    }
}

impl Model for ProgramReader {
    ghost use Rattle.std.specs.declared.result.Result.{Result};
    ghost use Rattle.std.specs.Coded.{codes};
    ghost use Rattle.nk_names.specs.declared.fault.NamesError.{NamesError};
    ghost use Rattle.nk_names.specs.CodedPolicy.{coded_policy};
    ghost use Rattle.nk_names.specs.InMemory.{known_in};
    ghost use Rattle.nk_names.specs.ProgramOf.{DeclaredProgram};

    ghost Value = { Result DeclaredProgram NamesError };

    ghost coded = { Prim.hlevel (codes, coded_policy) };

    ghost view = { λ r. known_in r.known };
}

impl ProgramReader {
    /// A reader before the first declaration. The only error is that memory ran out.
    pub fn new(alloc: Global) -> Result<ProgramReader, AllocError>
        ensures { IfOk result (IsDeclared []) }
    {
        Ok(ProgramReader {
            known: Known::Sound(Names::new(alloc)?),
        })
    }

    /// Whether the declarations so far have a fault.
    pub fn is_faulty(&self) -> bool
        ensures { result ≡ is_faulty self.now }
    {
        match &self.known {
            Known::Sound(_) => false,
            Known::Faulty(_, _) => true,
        }
    }

    /// One more declaration, by what is said so far.
    fn put(&mut self, alloc: Global, decl: &Decl) -> Result<(), AllocError>
        ensures ok { OnOk result (self.new ≡ program_on self.old (declaration_of decl.now)) }
        ensures faulty { IsFaulty self.old → IsOk result × (self.new ≡ self.old) }
        ensures err { OnErr result (self.new ≡ self.old) }
    {
        if self.is_faulty() {
            return Ok(());
        }
        self.known.go_on(alloc, decl)
    }

    /// One more declaration. A fault of it is no error here: `finish` answers the first one, and so does `predicate`.
    ///
    /// `AllocError` says that memory ran out, and then nothing changed, so the declaration can be taken again. Where the
    /// declarations so far have a fault, nothing changes any more and no memory is taken.
    pub fn declare(&mut self, alloc: Global, decl: &Decl) -> Result<(), AllocError>
        ensures declared { (ds : List Declaration) → IsDeclared ds self.old
            → OnOk result (IsDeclared (ds ++ declaration_of decl.now ∷ []) self.new) }
        ensures step { OnOk result (self.new ≡ program_on self.old (declaration_of decl.now)) }
        ensures faulty { IsFaulty self.old → IsOk result × (self.new ≡ self.old) }
        ensures err { OnErr result (self.new ≡ self.old) }
    {
        self.put(alloc, decl)
    }

    /// The predicate that a row of a certificate has over the fields declared so far, or the first fault: that of the
    /// declarations, where there is one, else that of the tree, as `resolve` says.
    pub fn predicate(&self, alloc: Global, ast: &Ast, line: u64) -> Result<Pol, NamesError>
        ensures { NamesReturns tree_of result
            (and_then self.now (λ s. row_policy s.fields (written_of ast.now) line)) }
    {
        match &self.known {
            Known::Sound(names) => resolve_over(alloc, &names.declared.fields, ast, line),
            Known::Faulty(kind, line) => Err(NamesError::Fault {
                kind: *kind,
                line: *line,
            }),
        }
    }

    /// The program of the declarations, or their first fault, as `reading::program` says. The largest values of the
    /// declared fields are at most 281,474,976,710,655.
    pub fn finish(self) -> Result<Program, NamesError>
        requires written { (ds : List Declaration) × IsDeclared ds self × All IsWritten ds }
        ensures { (ds : List Declaration) → IsDeclared ds self
            → NamesReturns program_by result (program_of ds) }
    {
        let ProgramReader { known } = self;
        match known {
            Known::Sound(names) => Ok(program_in(names)?),
            Known::Faulty(kind, line) => Err(NamesError::Fault { kind, line }),
        }
    }
}
