//! How two policies compare.
use crate::certificate::Certificate;
use nk_witness::Found;

/// How two policies compare.
#[derive(Drop)]
pub enum Compared {
    /// They give the same histories on every packet: the printed certificate, which shows it.
    Related(Certificate),
    /// The least history that one of them alone has, with the packet that it starts from and its side.
    Broken(Found),
}
