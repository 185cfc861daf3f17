//! A link, read token by token.
use crate::Number;

/// How much of a link has been read: `NUMBER : NUMBER`, then `=>` or `->`, then `NUMBER : NUMBER`.
#[derive(Clone, Copy)]
pub enum Quad {
    /// Nothing yet.
    Start,
    /// The source's switch.
    Switch(Number),
    /// The source's switch and the colon.
    SwitchColon(Number),
    /// The source.
    Port(Number, Number),
    /// The source and the sign between the two ends.
    Arrow(Number, Number),
    /// The source and the target's switch.
    ToSwitch(Number, Number, Number),
    /// The source, the target's switch and the colon.
    ToColon(Number, Number, Number),
}

/// What one more token makes of a part of a link.
#[derive(Clone, Copy)]
pub enum QuadNext {
    /// No link can continue with it.
    Refused,
    /// The link isn't complete yet.
    Going(Quad),
    /// The link is complete: switch and port of the source, then of the target.
    Full(Number, Number, Number, Number),
}
