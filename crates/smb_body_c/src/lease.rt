//! Lease breaks (MS-SMB2 2.2.23.2, 2.2.24.2 and 2.2.25.2).

ghost use Rattle.std.specs.Prelude.{◌≡◌, [], IsOk};
ghost use Rattle.smb_le.specs.Numbers.{number_at};
ghost use Rattle.smb_field.specs.Body.{Reads, WritesBody};
ghost use Rattle.smb_body_c.specs.Lease.{lease_break, IsLeaseBreak, lease_ack, IsLeaseAck, lease_break_of, lease_ack_of};
ghost use Rattle.smb_body_c.specs.declared.lease.LeaseBreak.{LeaseBreak};
ghost use Rattle.smb_body_c.specs.declared.lease.LeaseAck.{LeaseAck};

use smb_base::{Key, NoMemory};
use smb_field::{BodyFault, Field, put_varied};
use smb_le::{get_u16, get_u32, get_u64};

/// The notification that a lease is broken (MS-SMB2 2.2.23.2).
#[derive(Drop)]
pub struct LeaseBreak {
    /// The count of changes of the lease.
    pub new_epoch: u16,
    /// Whether an acknowledgement is wanted (1).
    pub flags: u32,
    /// The key of the lease.
    pub key: Key,
    /// The state that the lease has.
    pub current: u32,
    /// The state that it is to have.
    pub new: u32,
    /// Always 0 on the wire.
    pub reason: u32,
    /// Always 0 on the wire.
    pub access_hint: u32,
    /// Always 0 on the wire.
    pub share_hint: u32,
}

/// Reads the body of a lease break notification from a whole message, header and body.
#[tactic(auto, unfolding(crate::specs::Lease::lease_break_of))]
pub fn read_lease_break(part: &[u8]) -> Result<LeaseBreak, BodyFault>
    ensures exact { result ≡ lease_break_of part.now }
    ensures reads { Reads 44 (λ (x : LeaseBreak). IsLeaseBreak x part.now) ⊥ ⊥ part.now result }
    ensures only { (x : LeaseBreak) → IsLeaseBreak x part.now → IsOk result }
{
    if part.len() < 108 {
        return Err(BodyFault::Short);
    }
    if get_u16(part, 64) != 44 {
        return Err(BodyFault::Size);
    }
    let mut key = [0u8; 16];
    key.copy_from_slice(&part[72..88]);
    Ok(LeaseBreak {
        new_epoch: get_u16(part, 66),
        flags: get_u32(part, 68),
        key: Key(key),
        current: get_u32(part, 88),
        new: get_u32(part, 92),
        reason: get_u32(part, 96),
        access_hint: get_u32(part, 100),
        share_hint: get_u32(part, 104),
    })
}

/// Appends the body of a lease break notification. For want of memory nothing is changed.
pub fn write_lease_break(out: &mut Vec<u8>, x: &LeaseBreak) -> Result<(), NoMemory>
    ensures { WritesBody 44 (lease_break x.now) [] out.old.items out.new.items result }
{
    put_varied(
        out,
        44,
        &[
            Field::U16(x.new_epoch),
            Field::U32(x.flags),
            Field::Block(x.key.0),
            Field::U32(x.current),
            Field::U32(x.new),
            Field::U32(x.reason),
            Field::U32(x.access_hint),
            Field::U32(x.share_hint),
        ],
        &[],
    )
}

/// The acknowledgement of a lease break, and the reply to it (MS-SMB2 2.2.24.2 and 2.2.25.2).
#[derive(Drop)]
pub struct LeaseAck {
    /// Always 0 on the wire.
    pub flags: u32,
    /// The key of the lease.
    pub key: Key,
    /// The state that the lease has now.
    pub state: u32,
    /// Always 0 on the wire.
    pub duration: u64,
}

/// Reads the body of an acknowledgement of a lease break, or of the reply to it from a whole message, header and body. What
/// stands in a reserved field or in one with a single written value is not looked at.
#[tactic(auto, unfolding(crate::specs::Lease::lease_ack_of))]
pub fn read_lease_ack(part: &[u8]) -> Result<LeaseAck, BodyFault>
    ensures exact { result ≡ lease_ack_of part.now }
    ensures reads { Reads 36 (λ (x : LeaseAck). IsLeaseAck x part.now) ⊥ ⊥ part.now result }
    ensures only { (x : LeaseAck) → IsLeaseAck x part.now → IsOk result }
{
    if part.len() < 100 {
        return Err(BodyFault::Short);
    }
    if get_u16(part, 64) != 36 {
        return Err(BodyFault::Size);
    }
    let mut key = [0u8; 16];
    key.copy_from_slice(&part[72..88]);
    Ok(LeaseAck {
        flags: get_u32(part, 68),
        key: Key(key),
        state: get_u32(part, 88),
        duration: get_u64(part, 92),
    })
}

/// Appends the body of an acknowledgement of a lease break, or of the reply to it. For want of memory nothing is changed.
pub fn write_lease_ack(out: &mut Vec<u8>, x: &LeaseAck) -> Result<(), NoMemory>
    ensures { WritesBody 36 (lease_ack x.now) [] out.old.items out.new.items result }
{
    put_varied(
        out,
        36,
        &[
            Field::Any16(0),
            Field::U32(x.flags),
            Field::Block(x.key.0),
            Field::U32(x.state),
            Field::U64(x.duration),
        ],
        &[],
    )
}
