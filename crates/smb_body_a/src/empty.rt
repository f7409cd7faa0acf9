//! The body without a field that many messages share: LOGOFF, TREE_DISCONNECT and ECHO both ways, and the replies to FLUSH and
//! LOCK (MS-SMB2 2.2.7, 2.2.8, 2.2.11, 2.2.12, 2.2.18, 2.2.27, 2.2.28 and 2.2.29).

ghost use Rattle.std.specs.Prelude.{◌≡◌, [], IsOk};
ghost use Rattle.smb_field.specs.Body.{Reads, WritesBody};
ghost use Rattle.smb_body_a.specs.Empty.{empty_body, IsEmpty, empty_of};
ghost use Rattle.smb_body_a.specs.declared.empty.Empty.{Empty};

use smb_base::NoMemory;
use smb_field::{BodyFault, Field, put_varied};
use smb_le::get_u16;

/// The body without a field.
#[derive(Drop)]
pub struct Empty;

/// Reads the body without a field from a whole message, header and body. What stands in the reserved field is not looked at.
#[tactic(auto, unfolding(crate::specs::Empty::empty_of))]
pub fn read_empty(part: &[u8]) -> Result<Empty, BodyFault>
    ensures exact { result ≡ empty_of part.now }
    ensures reads { Reads 4 (λ (x : Empty). IsEmpty x part.now) ⊥ ⊥ part.now result }
    ensures only { (x : Empty) → IsEmpty x part.now → IsOk result }
{
    if part.len() < 68 {
        return Err(BodyFault::Short);
    }
    if get_u16(part, 64) != 4 {
        return Err(BodyFault::Size);
    }
    Ok(Empty)
}

/// Appends the body without a field. For want of memory nothing is changed.
pub fn write_empty(out: &mut Vec<u8>, x: &Empty) -> Result<(), NoMemory>
    ensures { WritesBody 4 (empty_body x.now) [] out.old.items out.new.items result }
{
    let _ = x;
    put_varied(out, 4, &[Field::Any16(0)], &[])
}
