//! TREE_CONNECT (MS-SMB2 2.2.9 and 2.2.10).

ghost use Rattle.std.specs.Prelude.{◌≡◌, [], ◌^◌, ◌<◌, IsOk, length};
ghost use Rattle.smb_le.specs.Numbers.{number_at};
ghost use Rattle.smb_field.specs.Rows.{seen_as};
ghost use Rattle.smb_field.specs.Body.{Strays, Reads, WritesBody};
ghost use Rattle.smb_body_a.specs.Tree.{tree_connect_request, IsTreeConnectRequest, tree_connect_reply, IsTreeConnectReply, tree_connect_request_of, seen_path, tree_connect_reply_of};
ghost use Rattle.smb_body_a.specs.declared.tree.TreeConnectRequest.{TreeConnectRequest};
ghost use Rattle.smb_body_a.specs.declared.tree.TreeConnectReply.{TreeConnectReply};

use smb_base::NoMemory;
use smb_field::{BodyFault, Field, lent, put_varied};
use smb_le::{get_u16, get_u32};

/// The TREE_CONNECT request (MS-SMB2 2.2.9).
#[derive(Drop)]
pub struct TreeConnectRequest<'a> {
    /// The share's name with its server, in UTF-16.
    pub path: &'a [u8],
}

/// The TREE_CONNECT reply (MS-SMB2 2.2.10).
#[derive(Drop)]
pub struct TreeConnectReply {
    /// The kind of share; 1 is a disk.
    pub share_type: u8,
    /// What the share asks of its clients.
    pub share_flags: u32,
    /// What the share can do.
    pub capabilities: u32,
    /// The access that the user may have.
    pub maximal_access: u32,
}

/// Reads the body of a TREE_CONNECT request from a whole message, header and body. The path is lent from the message. What stands
/// in the reserved field is not looked at.
#[tactic(auto, unfolding(crate::specs::Tree::tree_connect_request_of))]
pub fn read_tree_connect_request(part: &[u8]) -> Result<TreeConnectRequest<'_>, BodyFault>
    ensures exact { seen_as seen_path result ≡ tree_connect_request_of part.now }
    ensures reads { Reads 9 (λ (x : TreeConnectRequest). IsTreeConnectRequest x part.now) ⊥
        (Strays 72 (number_at 2 68 part.now) (number_at 2 70 part.now) part.now)
        part.now result }
    ensures only { (x : TreeConnectRequest) → IsTreeConnectRequest x part.now → IsOk result }
{
    if part.len() < 72 {
        return Err(BodyFault::Short);
    }
    if get_u16(part, 64) != 9 {
        return Err(BodyFault::Size);
    }
    let Some(path) = lent(
        part,
        72,
        u32::from(get_u16(part, 68)),
        u32::from(get_u16(part, 70)),
    ) else {
        return Err(BodyFault::Offset);
    };
    Ok(TreeConnectRequest { path })
}

/// Appends the body of a TREE_CONNECT request. For want of memory nothing is changed.
pub fn write_tree_connect_request(
    out: &mut Vec<u8>,
    x: &TreeConnectRequest<'_>,
) -> Result<(), NoMemory>
    requires { length x.now.path.now < 2 ^ 16 }
    ensures { WritesBody 9 (tree_connect_request x.now) x.now.path.now out.old.items out.new.items result }
{
    put_varied(
        out,
        9,
        &[
            Field::Any16(0),
            Field::Offset16,
            Field::U16(x.path.len() as u16),
        ],
        x.path,
    )
}

/// Reads the body of a TREE_CONNECT reply from a whole message, header and body. What stands in the reserved field is not looked
/// at.
#[tactic(auto, unfolding(crate::specs::Tree::tree_connect_reply_of))]
pub fn read_tree_connect_reply(part: &[u8]) -> Result<TreeConnectReply, BodyFault>
    ensures exact { result ≡ tree_connect_reply_of part.now }
    ensures reads { Reads 16 (λ (x : TreeConnectReply). IsTreeConnectReply x part.now) ⊥ ⊥ part.now result }
    ensures only { (x : TreeConnectReply) → IsTreeConnectReply x part.now → IsOk result }
{
    if part.len() < 80 {
        return Err(BodyFault::Short);
    }
    if get_u16(part, 64) != 16 {
        return Err(BodyFault::Size);
    }
    Ok(TreeConnectReply {
        share_type: part[66],
        share_flags: get_u32(part, 68),
        capabilities: get_u32(part, 72),
        maximal_access: get_u32(part, 76),
    })
}

/// Appends the body of a TREE_CONNECT reply. For want of memory nothing is changed.
pub fn write_tree_connect_reply(out: &mut Vec<u8>, x: &TreeConnectReply) -> Result<(), NoMemory>
    ensures { WritesBody 16 (tree_connect_reply x.now) [] out.old.items out.new.items result }
{
    put_varied(
        out,
        16,
        &[
            Field::U8(x.share_type),
            Field::Any8(0),
            Field::U32(x.share_flags),
            Field::U32(x.capabilities),
            Field::U32(x.maximal_access),
        ],
        &[],
    )
}
