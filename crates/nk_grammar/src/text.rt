//! The declarations of a text, read token by token up to the first fault.
ghost use Rattle.std.specs.Prelude.{◌≡◌, ℕ, true, [], Some, Ok, IfErr, IfOk};
ghost use Rattle.nk_lex.specs.declared.ident.Ident.{Ident};
ghost use Rattle.nk_grammar.specs.File.{declaration_of};
ghost use Rattle.nk_grammar.specs.FileMachine.{
  ParseReturns,
  begin_declaration,
  declarations_at_end,
  defined,
  ended_at,
  first_reading,
  in_policy,
  judged,
  link_read,
  name_wanted,
  next_reading,
  one_more,
  policy_named,
  policy_done,
  port_read,
  port_wanted,
  read_one,
  reading,
};
ghost use Rattle.nk_grammar.specs.FileReader.{
  IsInPolicy,
  StaysWithoutMemory,
  StopsPolicy,
  TakesTerminal,
  TakesInside,
  declaration_done,
  phase_in,
};
ghost use Rattle.nk_grammar.specs.declared.decl.PolicyKeyword.{PolicyKeyword};
ghost use Rattle.nk_grammar.specs.declared.decl.Stage.{Stage};
ghost use Rattle.nk_grammar.specs.Machine.{policy_ended};
ghost use Rattle.nk_grammar.specs.Reader.{reader_state};
ghost use Rattle.nk_grammar.specs.Terminal.{terminal_of};
ghost use Rattle.nk_grammar.specs.Tree.{tree_of};

use crate::ast::Ast;
use crate::decl::{Decl, GrammarError, LinkKeyword, Naming, PolicyKeyword, Stage};
use crate::parts::{name_of, number_of, quad_after};
use crate::reader::PolicyReader;
use nk_field::List;
use nk_lex::{Ident, Kind, Number, Quad, QuadNext, Token};
use std::alloc::{AllocError, AllocFailed, Global};
use std::mem::replace;

/// The declaration of a policy.
fn policy_of(word: PolicyKeyword, name: Ident, policy: Ast, line: u64) -> Decl
    ensures { declaration_of result ≡ defined word name (tree_of policy) line }
{
    match word {
        PolicyKeyword::Let => Decl::Let(name, policy, line),
        PolicyKeyword::Fabric => Decl::Fabric(name, policy, line),
    }
}

/// Reads a text token by token. It keeps what may come next, and the policy that is being read. A declaration is handed out by the token
/// that completes it. A token for which memory runs out changes nothing; after a fault nothing is said of the state.
pub struct Reader {
    stage: Stage,
    policy: PolicyReader,
}

impl Drop for Reader {
    fn drop(self) {
        let Self {
            stage: _,
            policy: _,
        } = self;
    }
}

impl Reader {
    /// A reader before the first token. It takes no memory.
    pub fn new(alloc: Global) -> Reader
        ensures { reading (phase_in result) [] ≡ first_reading }
    {
        Reader {
            stage: Stage::Between,
            policy: PolicyReader::new(alloc),
        }
    }

    /// The next token is another part of what is read, and this declaration is done.
    fn go(&mut self, stage: Stage, done: Option<Decl>) -> Result<Option<Decl>, GrammarError>
        ensures ok { result ≡ Ok done }
        ensures stage { self.new.stage ≡ stage }
        ensures policy { self.new.policy ≡ self.old.policy }
    {
        self.stage.set(stage);
        Ok(done)
    }

    /// A declaration begins after one that is done.
    fn begin(&mut self, done: Option<Decl>, token: &Token) -> Result<Option<Decl>, GrammarError>
        ensures begun { ParseReturns (λ d. reading (phase_in self.new) (declaration_done d)) result
            (judged token.now.line (begin_declaration (declaration_done done)
            (terminal_of token.now))) }
        ensures err { IfErr result (λ e. e ≡ GrammarError.Unexpected token.now.line) }
    {
        match token.kind {
            Kind::Field => self.go(Stage::Name(Naming::Field), done),
            Kind::Tag => self.go(Stage::Name(Naming::Tag), done),
            Kind::Switch => self.go(Stage::Switch, done),
            Kind::Link => self.go(Stage::Link(LinkKeyword::Link, Quad::Start), done),
            Kind::Virtual => self.go(Stage::Link(LinkKeyword::Virtual, Quad::Start), done),
            Kind::Let => {
                self.go(
                    Stage::Name(Naming::Policy(PolicyKeyword::Let, token.line)),
                    done,
                )
            }
            Kind::Fabric => {
                self.go(
                    Stage::Name(Naming::Policy(PolicyKeyword::Fabric, token.line)),
                    done,
                )
            }
            _ => {
                drop(done);
                Err(GrammarError::Unexpected { line: token.line })
            }
        }
    }

    /// A policy took a token, and goes on.
    fn go_on_in_policy(&self, token: &Token) -> Result<bool, GrammarError>
        ensures read { (k : PolicyKeyword) (w : Ident) (line : ℕ)
            → self.now.stage ≡ Stage.Policy k w line
            → ParseReturns (λ taken. reading (phase_in self.now) []) result
            (judged token.now.line (Some
            (reading (in_policy k w line (reader_state self.now.policy)) []))) }
        ensures taken { IfOk result (λ taken. taken ≡ true) }
        ensures err { IfErr result (λ e. e ≡ GrammarError.TooDeep token.now.line) }
    {
        if self.policy.is_shallow() {
            Ok(true)
        } else {
            Err(GrammarError::TooDeep { line: token.line })
        }
    }

    /// One more token of a policy, if it goes on with it. What is read of the declaration stays where it is.
    fn take_in_policy(&mut self, alloc: Global, token: &Token) -> Result<bool, GrammarError>
        requires stage { IsInPolicy self.old.stage }
        ensures { (k : PolicyKeyword) (w : Ident) (line : ℕ)
            → self.old.stage ≡ Stage.Policy k w line
            → TakesInside (in_policy k w line (reader_state self.old.policy))
            (phase_in self.new) token.now.line
            (terminal_of token.now) result }
    {
        match self.policy.take(alloc, token) {
            Ok(true) => self.go_on_in_policy(token),
            Ok(false) => Ok(false),
            Err(AllocError) => Err(GrammarError::NoMemory),
        }
    }

    /// Reads one more token inside a policy, and says whether it was taken; else no policy goes on with it, and nothing changed. What
    /// is taken completes nothing. An error is as `take` says.
    pub fn take_inside(&mut self, alloc: Global, token: &Token) -> Result<bool, GrammarError>
        ensures { TakesInside (phase_in self.old) (phase_in self.new) token.now.line
            (terminal_of token.now) result }
    {
        if let Stage::Policy(..) = &self.stage {
            self.take_in_policy(alloc, token)
        } else {
            Ok(false)
        }
    }

    /// A policy ended before this token.
    fn end_policy(&mut self, policy: Ast, token: &Token) -> Result<Option<Decl>, GrammarError>
        requires stage { IsInPolicy self.old.stage }
        ensures read { (k : PolicyKeyword) (w : Ident) (line : ℕ)
            → self.old.stage ≡ Stage.Policy k w line
            → ParseReturns (λ d. reading (phase_in self.new) (declaration_done d)) result
            (judged token.now.line (begin_declaration
            (one_more [] (defined k w (tree_of policy) line)) (terminal_of token.now))) }
        ensures err { IfErr result (λ e. e ≡ GrammarError.Unexpected token.now.line) }
    {
        let Stage::Policy(word, name, line) = replace(&mut self.stage, Stage::Between) else {
            unreachable!()
        };
        self.begin(Some(policy_of(word, name, policy, line)), token)
    }

    /// The first token after a policy, which doesn't go on with it.
    fn take_after_policy(
        &mut self,
        alloc: Global,
        token: &Token,
    ) -> Result<Option<Decl>, GrammarError>
        requires stage { IsInPolicy self.old.stage }
        ensures read { (k : PolicyKeyword) (w : Ident) (line : ℕ)
            → self.old.stage ≡ Stage.Policy k w line
            → ParseReturns (λ d. reading (phase_in self.new) (declaration_done d)) result
            (judged token.now.line (policy_done k w line []
            (policy_ended (reader_state self.old.policy)) (terminal_of token.now))) }
        ensures kept { StaysWithoutMemory result (phase_in self.old) (phase_in self.new) }
    {
        match self.policy.end(alloc) {
            Ok(Some(policy)) => self.end_policy(policy, token),
            Ok(None) => Err(GrammarError::Unexpected { line: token.line }),
            Err(AllocError) => Err(GrammarError::NoMemory),
        }
    }

    /// A port stands there.
    fn take_after_port(
        &mut self,
        number: Number,
        ports: Vec<Number>,
        token: &Token,
    ) -> Result<Option<Decl>, GrammarError>
        ensures read { ParseReturns (λ d. reading (phase_in self.new) (declaration_done d)) result
            (judged token.now.line (next_reading (port_read number ports.items) []
            (terminal_of token.now))) }
        ensures err { IfErr result (λ e. e ≡ GrammarError.Unexpected token.now.line) }
    {
        match token.kind {
            Kind::Comma => self.go(Stage::Ports(number, ports), None),
            _ => self.begin(Some(Decl::Switch(number, List::from_vec(ports))), token),
        }
    }

    /// A port is wanted.
    fn take_port(
        &mut self,
        number: Number,
        ports: Vec<Number>,
        token: &Token,
    ) -> Result<Option<Decl>, GrammarError>
        ensures read { ParseReturns (λ d. reading (phase_in self.new) (declaration_done d)) result
            (judged token.now.line (next_reading (port_wanted number ports.items) []
            (terminal_of token.now))) }
        ensures kept { StaysWithoutMemory result (port_wanted number ports.items)
            (phase_in self.new) }
    {
        let mut ports = ports;
        match number_of(token) {
            Some(port) => match ports.push(port) {
                Ok(()) => self.go(Stage::PortRead(number, ports), None),
                Err(AllocFailed { .. }) => {
                    self.stage.set(Stage::Ports(number, ports));
                    Err(GrammarError::NoMemory)
                }
            },
            None => Err(GrammarError::Unexpected { line: token.line }),
        }
    }

    /// One more token of a link.
    fn take_link(
        &mut self,
        word: LinkKeyword,
        quad: Quad,
        token: &Token,
    ) -> Result<Option<Decl>, GrammarError>
        ensures read { ParseReturns (λ d. reading (phase_in self.new) (declaration_done d)) result
            (judged token.now.line (next_reading (link_read word quad) []
            (terminal_of token.now))) }
        ensures err { IfErr result (λ e. e ≡ GrammarError.Unexpected token.now.line) }
    {
        match quad_after(false, quad, token) {
            QuadNext::Refused => Err(GrammarError::Unexpected { line: token.line }),
            QuadNext::Going(quad) => self.go(Stage::Link(word, quad), None),
            QuadNext::Full(a, m, b, n) => match word {
                LinkKeyword::Link => self.go(Stage::Between, Some(Decl::Link(a, m, b, n))),
                LinkKeyword::Virtual => self.go(Stage::By(a, m, b, n), None),
            },
        }
    }

    /// A name is wanted.
    fn take_name(
        &mut self,
        alloc: Global,
        naming: Naming,
        token: &Token,
    ) -> Result<Option<Decl>, GrammarError>
        ensures read { ParseReturns (λ d. reading (phase_in self.new) (declaration_done d)) result
            (judged token.now.line (next_reading (name_wanted naming) [] (terminal_of token.now))) }
        ensures kept { StaysWithoutMemory result (name_wanted naming) (phase_in self.new) }
    {
        match name_of(alloc, token) {
            Ok(Some(name)) => match naming {
                Naming::Field => self.go(Stage::FieldNamed(name), None),
                Naming::Tag => self.go(Stage::Between, Some(Decl::Tag(name))),
                Naming::Policy(word, line) => self.go(Stage::PolicyNamed(word, name, line), None),
                Naming::Virtual(a, m, b, n) => {
                    self.go(Stage::Between, Some(Decl::Virtual(a, m, b, n, name)))
                }
            },
            Ok(None) => Err(GrammarError::Unexpected { line: token.line }),
            Err(AllocError) => {
                self.stage.set(Stage::Name(naming));
                Err(GrammarError::NoMemory)
            }
        }
    }

    /// The `=` before a policy is wanted.
    fn take_sign(
        &mut self,
        alloc: Global,
        word: PolicyKeyword,
        name: Ident,
        line: u64,
        token: &Token,
    ) -> Result<Option<Decl>, GrammarError>
        ensures read { ParseReturns (λ d. reading (phase_in self.new) (declaration_done d)) result
            (judged token.now.line (next_reading (policy_named word name line) []
            (terminal_of token.now))) }
        ensures err { IfErr result (λ e. e ≡ GrammarError.Unexpected token.now.line) }
    {
        match token.kind {
            Kind::Equal => {
                self.policy = PolicyReader::new(alloc);
                self.go(Stage::Policy(word, name, line), None)
            }
            _ => Err(GrammarError::Unexpected { line: token.line }),
        }
    }

    /// One more token outside the policies.
    fn take_outside(&mut self, alloc: Global, token: &Token) -> Result<Option<Decl>, GrammarError>
        requires outside { IsInPolicy self.old.stage → ⊥ }
        ensures read { ParseReturns (λ d. reading (phase_in self.new) (declaration_done d)) result
            (judged token.now.line (read_one (reading (phase_in self.old) [])
            (terminal_of token.now))) }
        ensures kept { StaysWithoutMemory result (phase_in self.old) (phase_in self.new) }
    {
        match replace(&mut self.stage, Stage::Between) {
            Stage::Between => self.begin(None, token),
            Stage::Name(naming) => self.take_name(alloc, naming, token),
            Stage::FieldNamed(name) => match number_of(token) {
                Some(number) => self.go(Stage::Between, Some(Decl::Field(name, number))),
                None => Err(GrammarError::Unexpected { line: token.line }),
            },
            Stage::Switch => match number_of(token) {
                Some(number) => self.go(Stage::SwitchNumbered(number), None),
                None => Err(GrammarError::Unexpected { line: token.line }),
            },
            Stage::SwitchNumbered(number) => match token.kind {
                Kind::Ports => self.go(Stage::Ports(number, Vec::new(alloc)), None),
                _ => Err(GrammarError::Unexpected { line: token.line }),
            },
            Stage::Ports(number, ports) => self.take_port(number, ports, token),
            Stage::PortRead(number, ports) => self.take_after_port(number, ports, token),
            Stage::Link(word, quad) => self.take_link(word, quad, token),
            Stage::By(a, m, b, n) => match token.kind {
                Kind::By => self.go(Stage::Name(Naming::Virtual(a, m, b, n)), None),
                _ => Err(GrammarError::Unexpected { line: token.line }),
            },
            Stage::PolicyNamed(word, name, line) => self.take_sign(alloc, word, name, line, token),
            Stage::Policy(..) => unreachable!(),
        }
    }

    /// One more token that no policy goes on with. It stands apart from what policies take, of which most of a text is made.
    #[inline(never)]
    fn take_other(&mut self, alloc: Global, token: &Token) -> Result<Option<Decl>, GrammarError>
        requires stops { StopsPolicy (phase_in self.old) (terminal_of token.now) }
        ensures { TakesTerminal (phase_in self.old) (phase_in self.new) token.now.line
            (terminal_of token.now) result }
    {
        if let Stage::Policy(..) = &self.stage {
            self.take_after_policy(alloc, token)
        } else {
            self.take_outside(alloc, token)
        }
    }

    /// Reads one more token, and hands out the declaration that it completes. An error is the first fault of the tokens so far, or that
    /// memory ran out.
    pub fn take(&mut self, alloc: Global, token: &Token) -> Result<Option<Decl>, GrammarError>
        ensures read { ParseReturns (λ d. reading (phase_in self.new) (declaration_done d)) result
            (judged token.now.line (read_one (reading (phase_in self.old) [])
            (terminal_of token.now))) }
        ensures kept { StaysWithoutMemory result (phase_in self.old) (phase_in self.new) }
    {
        match self.take_inside(alloc, token) {
            Ok(true) => Ok(None),
            Ok(false) => self.take_other(alloc, token),
            Err(error) => Err(error),
        }
    }

    /// Ends the text, and hands out the declaration that its end completes; `line` is that of the last token. `Unexpected` comes where
    /// the tokens so far are no text.
    pub fn end(&mut self, alloc: Global, line: u64) -> Result<Option<Decl>, GrammarError>
        ensures read { ParseReturns declaration_done result
            (ended_at line (declarations_at_end (reading (phase_in self.old) []))) }
        ensures kept { StaysWithoutMemory result (phase_in self.old) (phase_in self.new) }
    {
        match replace(&mut self.stage, Stage::Between) {
            Stage::Between => Ok(None),
            Stage::PortRead(number, ports) => {
                Ok(Some(Decl::Switch(number, List::from_vec(ports))))
            }
            Stage::Policy(word, name, of_word) => match self.policy.end(alloc) {
                Ok(Some(policy)) => Ok(Some(policy_of(word, name, policy, of_word))),
                Ok(None) => Err(GrammarError::Unexpected { line }),
                Err(AllocError) => {
                    self.stage.set(Stage::Policy(word, name, of_word));
                    Err(GrammarError::NoMemory)
                }
            },
            _ => Err(GrammarError::Unexpected { line }),
        }
    }
}
