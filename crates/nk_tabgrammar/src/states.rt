//! What may come next in a text of tables, without what was read, and what a token tells there. Nothing here takes memory.
ghost use Rattle.std.specs.Prelude.{◌≡◌, Some};
ghost use Rattle.nk_tabgrammar.specs.States.{after_token, after_in, after_table_link, after_open, after_plain, after_row, at_end, begin_state, begin_group, begin_match, begin_row, begin_target};
ghost use Rattle.nk_tabgrammar.specs.declared.states.State.TheVariants as state;
ghost use Rattle.nk_tabgrammar.specs.declared.states.Tells.TheVariants as tells;

use nk_lex::Kind;

/// How much of `NUMBER : NUMBER -> NUMBER : NUMBER` stands there.
#[derive(Clone, Copy, Debug, PartialEq, Eq)]
pub enum LinkState {
    /// Nothing yet.
    Start,
    /// The source's switch.
    Switch,
    /// The source's switch and the colon.
    SwitchColon,
    /// The source.
    Port,
    /// The source and the arrow.
    Arrow,
    /// The source and the target's switch.
    ToSwitch,
    /// The source, the target's switch and the colon.
    ToColon,
}

/// How much of a bucket stands there, the bracket at least.
#[derive(Clone, Copy, Debug, PartialEq, Eq)]
pub enum BucketState {
    /// Whole assignments.
    Sets,
    /// A name after them.
    Named,
    /// A name and `:=` after them.
    Assigned,
    /// The word `out` after them.
    Out,
    /// The exit after them.
    Left,
}

/// How much of a row stands there, but a bucket.
#[derive(Clone, Copy, Debug, PartialEq, Eq)]
pub enum RowState {
    /// The word `row`.
    Row,
    /// The priority.
    Numbered,
    /// Whole matches.
    Matches,
    /// A name after them.
    Named,
    /// A name and `=` after them.
    Tested,
    /// A name and a value after them; a `/`, another match or the arrow may follow.
    Valued,
    /// A name, a value and a `/` after them.
    Slashed,
    /// The arrow.
    Target,
    /// The word `group` as a target.
    TargetGroup,
}

/// What stands before the next token of a text.
#[derive(Clone, Copy, Debug, PartialEq, Eq)]
pub enum State {
    /// Nothing.
    Start,
    /// The word `tables`.
    Version,
    /// Whole declarations; a declaration, a table or the end may follow.
    Between,
    /// The word `field`.
    Field,
    /// The name of a field.
    FieldNamed,
    /// The word `tag`.
    Tag,
    /// The word `switch`.
    Switch,
    /// The number of a switch.
    SwitchNumbered,
    /// The first port is wanted.
    FirstPort,
    /// Another port is wanted.
    NextPort,
    /// A port stands there.
    PortRead,
    /// A part of a link.
    Link(LinkState),
    /// The word `table`.
    Table,
    /// A table's number and whole groups; a group, a row, a table or the end may follow.
    Groups,
    /// The word `group` of a group.
    Group,
    /// The number of a group.
    GroupNumbered,
    /// The first bucket is wanted.
    FirstBucket,
    /// A bucket of a group stands there.
    BucketRead,
    /// A part of a bucket of a group.
    InGroup(BucketState),
    /// Whole rows; a row, a table or the end may follow.
    Rows,
    /// A part of a row.
    Row(RowState),
    /// A part of a bucket that is a row's target.
    InRow(BucketState),
}

/// What a token tells where it stands.
#[derive(Clone, Copy, Debug, PartialEq, Eq)]
pub enum Tells {
    /// Nothing but what may come next.
    Nothing,
    /// The number after the word `tables`.
    Version,
    /// The name of a field.
    FieldName,
    /// The largest value of the field.
    FieldMax,
    /// The name of the tag.
    Tag,
    /// The number of a declared switch.
    Switch,
    /// A port of the switch.
    Port,
    /// The switch has no further port.
    SwitchEnds,
    /// The source's switch of a link.
    LinkSwitch,
    /// The source's port.
    LinkPort,
    /// The target's switch.
    LinkToSwitch,
    /// The target's port.
    LinkToPort,
    /// The switch of a table.
    Table,
    /// The number of a group.
    Group,
    /// The name of a field that a bucket assigns.
    SetName,
    /// The value of it.
    SetValue,
    /// The port to which a bucket sends.
    OutPort,
    /// A bucket sends back.
    OutBack,
    /// A bucket of a group is whole.
    GroupBucket,
    /// The group has no further bucket.
    GroupEnds,
    /// The priority of a row.
    Row,
    /// The name of a field that a row matches.
    MatchName,
    /// The value of it.
    MatchValue,
    /// How many digits of the value count.
    MatchLength,
    /// A bucket is whole that is a row's target.
    RowBucket,
    /// A row's target is the group with this number.
    RowGroup,
    /// A row drops.
    RowDrop,
}

/// What may come after a token, and what the token tells.
type Step = (State, Tells);

/// A token that tells nothing.
fn silent(state: State) -> Option<Step>
    ensures { result ≡ Some (state, tells.Nothing) }
{
    Some((state, Tells::Nothing))
}

/// A declaration or a table begins, where the token before it ended what stood there, or told nothing.
fn begin(kind: Kind, tells: Tells) -> Option<Step>
    ensures { result ≡ begin_state kind tells }
{
    match kind {
        Kind::Field => Some((State::Field, tells)),
        Kind::Tag => Some((State::Tag, tells)),
        Kind::Switch => Some((State::Switch, tells)),
        Kind::Link => Some((State::Link(LinkState::Start), tells)),
        Kind::Table => Some((State::Table, tells)),
        _ => None,
    }
}

/// A row or a table begins.
fn begin_row(kind: Kind, tells: Tells) -> Option<Step>
    ensures { result ≡ begin_row kind tells }
{
    match kind {
        Kind::Row => Some((State::Row(RowState::Row), tells)),
        Kind::Table => Some((State::Table, tells)),
        _ => None,
    }
}

/// A group, a row or a table begins.
fn begin_group(kind: Kind, tells: Tells) -> Option<Step>
    ensures { result ≡ begin_group kind tells }
{
    match kind {
        Kind::Group => Some((State::Group, tells)),
        _ => begin_row(kind, tells),
    }
}

/// One more token of a link.
fn after_link(at: LinkState, kind: Kind) -> Option<Step>
    ensures { result ≡ after_table_link at kind }
{
    match (at, kind) {
        (LinkState::Start, Kind::Number) => {
            Some((State::Link(LinkState::Switch), Tells::LinkSwitch))
        }
        (LinkState::Switch, Kind::Colon) => silent(State::Link(LinkState::SwitchColon)),
        (LinkState::SwitchColon, Kind::Number) => {
            Some((State::Link(LinkState::Port), Tells::LinkPort))
        }
        (LinkState::Port, Kind::Arrow) => silent(State::Link(LinkState::Arrow)),
        (LinkState::Arrow, Kind::Number) => {
            Some((State::Link(LinkState::ToSwitch), Tells::LinkToSwitch))
        }
        (LinkState::ToSwitch, Kind::Colon) => silent(State::Link(LinkState::ToColon)),
        (LinkState::ToColon, Kind::Number) => Some((State::Between, Tells::LinkToPort)),
        _ => None,
    }
}

/// One more token of a bucket, but the bracket that ends it.
fn after_open(at: BucketState, kind: Kind) -> Option<(BucketState, Tells)>
    ensures { result ≡ after_open at kind }
{
    match (at, kind) {
        (BucketState::Sets, Kind::Name) => Some((BucketState::Named, Tells::SetName)),
        (BucketState::Sets, Kind::Out) => Some((BucketState::Out, Tells::Nothing)),
        (BucketState::Named, Kind::Assign) => Some((BucketState::Assigned, Tells::Nothing)),
        (BucketState::Assigned, Kind::Number) => Some((BucketState::Sets, Tells::SetValue)),
        (BucketState::Out, Kind::Number) => Some((BucketState::Left, Tells::OutPort)),
        (BucketState::Out, Kind::In) => Some((BucketState::Left, Tells::OutBack)),
        _ => None,
    }
}

/// One more token of a bucket of a group.
fn after_in_group(at: BucketState, kind: Kind) -> Option<Step>
    ensures { result ≡ after_in state.InGroup state.BucketRead tells.GroupBucket at kind }
{
    match (at, kind) {
        (BucketState::Left, Kind::CloseBracket) => Some((State::BucketRead, Tells::GroupBucket)),
        _ => match after_open(at, kind) {
            Some((at, tells)) => Some((State::InGroup(at), tells)),
            None => None,
        },
    }
}

/// One more token of a bucket that is a row's target.
fn after_in_row(at: BucketState, kind: Kind) -> Option<Step>
    ensures { result ≡ after_in state.InRow state.Rows tells.RowBucket at kind }
{
    match (at, kind) {
        (BucketState::Left, Kind::CloseBracket) => Some((State::Rows, Tells::RowBucket)),
        _ => match after_open(at, kind) {
            Some((at, tells)) => Some((State::InRow(at), tells)),
            None => None,
        },
    }
}

/// A match or the arrow.
fn begin_match(kind: Kind) -> Option<Step>
    ensures { result ≡ begin_match kind }
{
    match kind {
        Kind::Name => Some((State::Row(RowState::Named), Tells::MatchName)),
        Kind::Arrow => silent(State::Row(RowState::Target)),
        _ => None,
    }
}

/// A target.
fn begin_target(kind: Kind) -> Option<Step>
    ensures { result ≡ begin_target kind }
{
    match kind {
        Kind::OpenBracket => silent(State::InRow(BucketState::Sets)),
        Kind::Group => silent(State::Row(RowState::TargetGroup)),
        Kind::Drop => Some((State::Rows, Tells::RowDrop)),
        _ => None,
    }
}

/// One more token of a row.
fn after_row(at: RowState, kind: Kind) -> Option<Step>
    ensures { result ≡ after_row at kind }
{
    match at {
        RowState::Matches => begin_match(kind),
        RowState::Valued => match kind {
            Kind::Slash => silent(State::Row(RowState::Slashed)),
            _ => begin_match(kind),
        },
        RowState::Target => begin_target(kind),
        _ => match (at, kind) {
            (RowState::Row, Kind::Number) => Some((State::Row(RowState::Numbered), Tells::Row)),
            (RowState::Numbered, Kind::Colon) => silent(State::Row(RowState::Matches)),
            (RowState::Named, Kind::Equal) => silent(State::Row(RowState::Tested)),
            (RowState::Tested, Kind::Number) => {
                Some((State::Row(RowState::Valued), Tells::MatchValue))
            }
            (RowState::Slashed, Kind::Number) => {
                Some((State::Row(RowState::Matches), Tells::MatchLength))
            }
            (RowState::TargetGroup, Kind::Number) => Some((State::Rows, Tells::RowGroup)),
            _ => None,
        },
    }
}

/// One more token where only one kind may come.
fn after_plain(state: State, kind: Kind) -> Option<Step>
    ensures { result ≡ after_plain state kind }
{
    match (state, kind) {
        (State::Start, Kind::Tables) => silent(State::Version),
        (State::Version, Kind::Number) => Some((State::Between, Tells::Version)),
        (State::Field, Kind::Name) => Some((State::FieldNamed, Tells::FieldName)),
        (State::FieldNamed, Kind::Number) => Some((State::Between, Tells::FieldMax)),
        (State::Tag, Kind::Name) => Some((State::Between, Tells::Tag)),
        (State::Switch, Kind::Number) => Some((State::SwitchNumbered, Tells::Switch)),
        (State::SwitchNumbered, Kind::Ports) => silent(State::FirstPort),
        (State::FirstPort, Kind::Number) => Some((State::PortRead, Tells::Port)),
        (State::NextPort, Kind::Number) => Some((State::PortRead, Tells::Port)),
        (State::Table, Kind::Number) => Some((State::Groups, Tells::Table)),
        (State::Group, Kind::Number) => Some((State::GroupNumbered, Tells::Group)),
        (State::GroupNumbered, Kind::Equal) => silent(State::FirstBucket),
        (State::FirstBucket, Kind::OpenBracket) => silent(State::InGroup(BucketState::Sets)),
        _ => None,
    }
}

impl State {
    /// Before the first token.
    pub const FIRST: State = State::Start;

    /// What may come after a token of this kind, and what the token tells; none where no text goes on with it.
    pub fn after(self, kind: Kind) -> Option<Step>
        ensures { result ≡ after_token self kind }
    {
        match self {
            State::InRow(at) => after_in_row(at, kind),
            State::Row(at) => after_row(at, kind),
            State::InGroup(at) => after_in_group(at, kind),
            State::Rows => begin_row(kind, Tells::Nothing),
            State::Groups => begin_group(kind, Tells::Nothing),
            State::Between => begin(kind, Tells::Nothing),
            State::Link(at) => after_link(at, kind),
            State::PortRead => match kind {
                Kind::Comma => silent(State::NextPort),
                _ => begin(kind, Tells::SwitchEnds),
            },
            State::BucketRead => match kind {
                Kind::OpenBracket => silent(State::InGroup(BucketState::Sets)),
                _ => begin_group(kind, Tells::GroupEnds),
            },
            _ => after_plain(self, kind),
        }
    }

    /// What the end of the text tells after what stands there; none where no text ends there.
    pub fn at_end(self) -> Option<Tells>
        ensures { result ≡ at_end self }
    {
        match self {
            State::Between | State::Groups | State::Rows => Some(Tells::Nothing),
            State::PortRead => Some(Tells::SwitchEnds),
            State::BucketRead => Some(Tells::GroupEnds),
            _ => None,
        }
    }
}
