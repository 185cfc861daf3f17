//! Fields by name.
ghost use Rattle.std.specs.Prelude.{◌≡◌, ◌<◌, length, IfSome};
ghost use Rattle.nk_field.specs.Packet.{field_named};

use nk_field::{Fid, Fields};

/// The field with the name, if there is one.
pub fn field_with(fields: &Fields, name: &[u8]) -> Option<Fid>
    ensures is { result ≡ field_named fields.now name.now }
    ensures within { IfSome result (λ f. f < length fields.now.maxima) }
{
    let _declared = fields.declared();
    for place in 0..fields.len() {
        let field = Fid::new(place as u8);
        if name == fields.name(field).as_bytes() {
            return Some(field);
        }
    }
    None
}
