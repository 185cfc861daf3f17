//! What the declarations of a text say so far.
use crate::lets::Lets;
use crate::virtuals::Virtuals;
use nk_declare::Declared;

/// The fields, the topology, the policies, the fabrics and the virtual links declared so far.
#[derive(Drop)]
pub(crate) struct Names {
    pub(crate) declared: Declared,
    pub(crate) lets: Lets,
    pub(crate) fabrics: Lets,
    pub(crate) virtuals: Virtuals,
}
