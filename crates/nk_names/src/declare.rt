//! What is said after one more declaration.
ghost use Rattle.std.specs.Prelude.{◌≡◌, None, Some, MatchResult, IfOk, OnErr, option_map};
ghost use Rattle.nk_declare.specs.Declarations.{link_fault};
ghost use Rattle.nk_grammar.specs.File.{declaration_of, field, tag, switch, declared_link, definition, fabric, virtual_link};
ghost use Rattle.nk_grammar.specs.Tree.{tree_of};
ghost use Rattle.nk_names.specs.Meant.{policy_for};
ghost use Rattle.nk_names.specs.ProgramOf.{NamesReturns, text_fault_of, program_of_names, program_declaring, empty_program, named_fault, virtual_topology};
ghost use Rattle.nk_names.specs.Shape.{shape_of};

use crate::build::{place_of, shared_of};
use crate::check::{fault_if, first_above, first_misplaced, first_unknown};
use crate::fault::{FaultKind, NamesError};
use crate::lets::Lets;
use crate::named_policy::NamedPolicy;
use crate::names::Names;
use crate::shape::Shape;
use crate::virtual_link::VirtualLink;
use crate::virtuals::Virtuals;
use nk_declare::{DeclareError, DeclareFault, Declared};
use nk_grammar::{Ast, Decl};
use nk_lex::{Ident, Number};
use std::alloc::{AllocError, Global};

/// The most elements that a policy has, its names written out.
const LARGEST_SIZE: u64 = 1_048_576;

/// How deep a policy is at most, its names written out.
pub(crate) const LARGEST_DEPTH: u64 = 256;

/// Ends with the fault, where there is one.
pub(crate) fn refuse(fault: Option<NamesError>) -> Result<(), NamesError>
    ensures { MatchResult result (λ _. fault ≡ None) (λ e. fault ≡ Some e) }
{
    match fault {
        Some(e) => Err(e),
        None => Ok(()),
    }
}

/// The depth and the size of the policy, if no taken name is its name and its tree may be written out; else the first fault.
fn check_named(
    names: &Names,
    taken: &Lets,
    w: &Ident,
    ast: &Ast,
    line: u64,
) -> Result<Shape, NamesError>
    ensures fault { MatchResult result
        (λ _. named_fault names.now.declared.fields names.now.lets.entries.items
        taken.now.entries.items w.now (tree_of ast.now) line ≡ None)
        (λ e. named_fault names.now.declared.fields names.now.lets.entries.items
        taken.now.entries.items w.now (tree_of ast.now) line ≡ Some e) }
    ensures shape { IfOk result (λ s. s ≡ shape_of
        (policy_for names.now.declared.fields names.now.lets.entries.items (tree_of ast.now))) }
{
    let fields = &names.declared.fields;
    let lets = &names.lets;
    let twice = taken.policy(w.text.as_slice()).is_some();
    refuse(fault_if(twice, FaultKind::LetTwice, w.line))?;
    refuse(first_unknown(fields, lets, ast))?;
    refuse(first_misplaced(fields, lets, ast))?;
    let shape = Shape::of(fields, lets, ast);
    let deep = LARGEST_DEPTH < shape.depth;
    refuse(fault_if(deep, FaultKind::TooDeep, line))?;
    let large = LARGEST_SIZE < shape.size;
    refuse(fault_if(large, FaultKind::TooLarge, line))?;
    Ok(shape)
}

/// Whether a virtual link may lead from port `m` of switch `a` to port `n` of switch `b`.
fn check_ends(names: &Names, a: Number, m: Number, b: Number, n: Number) -> Result<(), NamesError>
    ensures { MatchResult result
        (λ _. link_fault (virtual_topology names.now.declared.topo names.now.virtuals) a m b n
        ≡ None)
        (λ e. option_map text_fault_of
        (link_fault (virtual_topology names.now.declared.topo names.now.virtuals) a m b n)
        ≡ Some e) }
{
    refuse(first_above(a, m, b, n))?;
    let topo = &names.declared.topo;
    let (from_switch, from_port) = (place_of(a), place_of(m));
    let (to_switch, to_port) = (place_of(b), place_of(n));
    let missing = !topo.is_port(from_switch, from_port);
    refuse(fault_if(missing, FaultKind::Common(DeclareFault::NoSuchPort), m.line))?;
    let missing = !topo.is_port(to_switch, to_port);
    refuse(fault_if(missing, FaultKind::Common(DeclareFault::NoSuchPort), n.line))?;
    let twice = names.virtuals.is_source(from_switch, from_port);
    refuse(fault_if(twice, FaultKind::Common(DeclareFault::SourceTwice), m.line))?;
    let twice = names.virtuals.is_target(to_switch, to_port);
    refuse(fault_if(twice, FaultKind::Common(DeclareFault::TargetTwice), n.line))
}

/// A declaration's fault as a program's.
fn fault_of(error: DeclareError) -> NamesError
    ensures { result ≡ text_fault_of error }
{
    match error {
        DeclareError::NoMemory => NamesError::NoMemory,
        DeclareError::Fault { kind, line } => NamesError::Fault {
            kind: FaultKind::Common(kind),
            line,
        },
    }
}

impl Names {
    /// Nothing is declared yet.
    pub(crate) fn new(alloc: Global) -> Result<Names, AllocError>
        ensures { IfOk result (λ n. program_of_names n ≡ empty_program) }
    {
        let declared = Declared::new(alloc)?;
        let lets = Lets::new(alloc);
        let fabrics = Lets::new(alloc);
        let virtuals = Virtuals::new(alloc);
        Ok(Names {
            declared,
            lets,
            fabrics,
            virtuals,
        })
    }

    /// One more field.
    ///
    /// An `Err` leaves what is said as it was, here and below.
    #[tactic(auto, using(crate::proofs::Beside::is_said, crate::proofs::Beside::is_refused))]
    fn add_field(&mut self, w: &Ident, n: Number) -> Result<(), NamesError>
        ensures answer { NamesReturns (λ _. program_of_names self.new) result
            (program_declaring (program_of_names self.old) (field w.now n)) }
        ensures kept { OnErr result (program_of_names self.new ≡ program_of_names self.old) }
    {
        match self.declared.add_field(w, n) {
            Ok(()) => Ok(()),
            Err(error) => Err(fault_of(error)),
        }
    }

    /// The tag.
    #[tactic(auto, using(crate::proofs::Beside::is_said, crate::proofs::Beside::is_refused))]
    fn add_tag(&mut self, w: &Ident) -> Result<(), NamesError>
        ensures answer { NamesReturns (λ _. program_of_names self.new) result
            (program_declaring (program_of_names self.old) (tag w.now)) }
        ensures kept { OnErr result (program_of_names self.new ≡ program_of_names self.old) }
    {
        match self.declared.add_tag(w.text.as_slice(), w.line) {
            Ok(()) => Ok(()),
            Err(error) => Err(fault_of(error)),
        }
    }

    /// One more switch.
    #[tactic(auto, using(crate::proofs::Beside::is_said, crate::proofs::Beside::is_refused))]
    fn add_switch(&mut self, alloc: Global, n: Number, ports: &[Number]) -> Result<(), NamesError>
        ensures answer { NamesReturns (λ _. program_of_names self.new) result
            (program_declaring (program_of_names self.old) (switch n ports.now)) }
        ensures kept { OnErr result (program_of_names self.new ≡ program_of_names self.old) }
    {
        match self.declared.declare_switch(alloc, n, ports) {
            Ok(()) => Ok(()),
            Err(error) => Err(fault_of(error)),
        }
    }

    /// One more link, from port `m` of switch `a` to port `n` of switch `b`.
    #[tactic(auto, using(crate::proofs::Beside::is_said, crate::proofs::Beside::is_refused))]
    fn add_link(&mut self, a: Number, m: Number, b: Number, n: Number) -> Result<(), NamesError>
        ensures answer { NamesReturns (λ _. program_of_names self.new) result
            (program_declaring (program_of_names self.old) (declared_link a m b n)) }
        ensures kept { OnErr result (program_of_names self.new ≡ program_of_names self.old) }
    {
        match self.declared.add_link(a, m, b, n) {
            Ok(()) => Ok(()),
            Err(error) => Err(fault_of(error)),
        }
    }

    /// One more policy.
    fn add_let(&mut self, alloc: Global, w: &Ident, ast: &Ast, line: u64) -> Result<(), NamesError>
        ensures answer { NamesReturns (λ _. program_of_names self.new) result
            (program_declaring (program_of_names self.old)
            (definition w.now (tree_of ast.now) line)) }
        ensures kept { OnErr result (program_of_names self.new ≡ program_of_names self.old) }
    {
        let shape = check_named(self, &self.lets, w, ast, line)?;
        let policy = NamedPolicy::new(shared_of(alloc, &self.declared.fields, &self.lets, ast)?);
        self.lets.add(alloc, w.text.as_slice(), policy, shape)?;
        Ok(())
    }

    /// One more fabric.
    fn add_fabric(
        &mut self,
        alloc: Global,
        w: &Ident,
        ast: &Ast,
        line: u64,
    ) -> Result<(), NamesError>
        ensures answer { NamesReturns (λ _. program_of_names self.new) result
            (program_declaring (program_of_names self.old) (fabric w.now (tree_of ast.now) line)) }
        ensures kept { OnErr result (program_of_names self.new ≡ program_of_names self.old) }
    {
        let shape = check_named(self, &self.fabrics, w, ast, line)?;
        let policy = NamedPolicy::new(shared_of(alloc, &self.declared.fields, &self.lets, ast)?);
        self.fabrics.add(alloc, w.text.as_slice(), policy, shape)?;
        Ok(())
    }

    /// One more virtual link, from port `m` of switch `a` to port `n` of switch `b` over the fabric of the name.
    fn add_virtual(
        &mut self,
        a: Number,
        m: Number,
        b: Number,
        n: Number,
        w: &Ident,
    ) -> Result<(), NamesError>
        ensures answer { NamesReturns (λ _. program_of_names self.new) result
            (program_declaring (program_of_names self.old) (virtual_link a m b n w.now)) }
        ensures kept { OnErr result (program_of_names self.new ≡ program_of_names self.old) }
    {
        check_ends(self, a, m, b, n)?;
        let fabric = match self.fabrics.policy(w.text.as_slice()) {
            Some(fabric) => fabric.again()?,
            None => {
                return Err(NamesError::Fault {
                    kind: FaultKind::UnknownName,
                    line: w.line,
                });
            }
        };
        self.virtuals.add(VirtualLink {
            from_switch: place_of(a),
            from_port: place_of(m),
            to_switch: place_of(b),
            to_port: place_of(n),
            fabric,
        })?;
        Ok(())
    }

    /// One more declaration.
    pub(crate) fn add(&mut self, alloc: Global, decl: &Decl) -> Result<(), NamesError>
        ensures answer { NamesReturns (λ _. program_of_names self.new) result
            (program_declaring (program_of_names self.old) (declaration_of decl.now)) }
        ensures kept { OnErr result (program_of_names self.new ≡ program_of_names self.old) }
    {
        match decl {
            Decl::Field(w, n) => self.add_field(w, *n),
            Decl::Tag(w) => self.add_tag(w),
            Decl::Switch(n, ports) => self.add_switch(alloc, *n, ports.as_slice()),
            Decl::Link(a, m, b, n) => self.add_link(*a, *m, *b, *n),
            Decl::Let(w, ast, line) => self.add_let(alloc, w, ast, *line),
            Decl::Fabric(w, ast, line) => self.add_fabric(alloc, w, ast, *line),
            Decl::Virtual(a, m, b, n, w) => self.add_virtual(*a, *m, *b, *n, w),
        }
    }
}
