//! What stands before a token of a text of tables, with all that was read of it.
//!
//! Types of the specifications (`next_reading`, `FollowStages`): programs go by `State`, which keeps nothing.
use crate::written::{Pair, Way, WrittenBucket, WrittenGroup, WrittenMatch};
use nk_field::List;
use nk_lex::{Ident, Number, Quad};

/// How much of a bucket stands there, the bracket at least.
pub enum Place {
    /// The assignments so far.
    Sets(List<Pair>),
    /// A name after them.
    Named(List<Pair>, Ident),
    /// A name and `:=` after them.
    Assigned(List<Pair>, Ident),
    /// The word `out` after them.
    Out(List<Pair>),
    /// The exit after them.
    Left(List<Pair>, Way),
}

impl Drop for Place {
    fn drop(self) {
        match self {
            Place::Sets(_) => {}
            Place::Named(_, _) => {}
            Place::Assigned(_, _) => {}
            Place::Out(_) => {}
            Place::Left(_, _) => {}
        }
    }
}

/// What one more token makes of a part of a bucket.
pub enum PlaceNext {
    /// No bucket can continue with it.
    Refused,
    /// The bucket isn't complete yet.
    Going(Place),
    /// The bucket is complete.
    Full(WrittenBucket),
}

impl Drop for PlaceNext {
    fn drop(self) {
        match self {
            PlaceNext::Refused => {}
            PlaceNext::Going(_) => {}
            PlaceNext::Full(_) => {}
        }
    }
}

/// What a bucket is part of.
#[derive(Drop)]
pub enum Owner {
    /// It is the first bucket of the group with this number.
    First(Number),
    /// It is another bucket of this group.
    Next(WrittenGroup),
    /// It is the target of the row with this priority and these matches.
    Row(Number, List<WrittenMatch>),
}

/// What stands before the next token, within a declaration.
#[derive(Drop)]
pub enum Declaring {
    Field,
    FieldNamed(Ident),
    Tag,
    Switch,
    SwitchNumbered(Number),
    /// The first port is wanted.
    FirstPort(Number),
    /// Another port is wanted.
    NextPort(Number, Number, List<Number>),
    /// A port stands there.
    PortRead(Number, Number, List<Number>),
    Link(Quad),
}

/// What stands before the next token, within a group but its buckets.
#[derive(Drop)]
pub enum Grouping {
    Group,
    GroupNumbered(Number),
    /// The first bucket is wanted.
    FirstBucket(Number),
    /// A bucket of a group stands there.
    BucketRead(WrittenGroup),
}

/// What stands before the next token, within a row but a bucket.
pub enum InRow {
    Row,
    RowNumbered(Number),
    /// The matches so far.
    Matches(Number, List<WrittenMatch>),
    MatchNamed(Number, List<WrittenMatch>, Ident),
    MatchTested(Number, List<WrittenMatch>, Ident),
    /// A name and a value after the matches; a `/`, another match or the arrow may follow.
    MatchValued(Number, List<WrittenMatch>, Ident, Number),
    /// A name, a value and a `/` after the matches.
    MatchSlashed(Number, List<WrittenMatch>, Ident, Number),
    /// The target is wanted.
    Target(Number, List<WrittenMatch>),
    /// The word `group` as a target.
    TargetGroup(Number, List<WrittenMatch>),
}

impl Drop for InRow {
    fn drop(self) {
        match self {
            InRow::Row => {}
            InRow::RowNumbered(_) => {}
            InRow::Matches(_, _) => {}
            InRow::MatchNamed(_, _, _) => {}
            InRow::MatchTested(_, _, _) => {}
            InRow::MatchValued(_, _, _, _) => {}
            InRow::MatchSlashed(_, _, _, _) => {}
            InRow::Target(_, _) => {}
            InRow::TargetGroup(_, _) => {}
        }
    }
}

/// What stands before the next token of a text.
pub enum Stage {
    /// Nothing.
    Start,
    /// The word `tables`.
    Version,
    /// Whole declarations; a declaration, a table or the end may follow.
    Between,
    /// A part of a declaration.
    Declared(Declaring),
    /// The word `table`.
    Table,
    /// A table's number and whole groups; a group, a row, a table or the end may follow.
    Groups,
    /// A part of a group.
    Grouped(Grouping),
    InBucket(Owner, Place),
    /// Whole rows; a row, a table or the end may follow.
    Rows,
    /// A part of a row.
    InRow(InRow),
}

impl Drop for Stage {
    fn drop(self) {
        match self {
            Stage::Start => {}
            Stage::Version => {}
            Stage::Between => {}
            Stage::Declared(_) => {}
            Stage::Table => {}
            Stage::Groups => {}
            Stage::Grouped(_) => {}
            Stage::InBucket(_, _) => {}
            Stage::Rows => {}
            Stage::InRow(_) => {}
        }
    }
}
