//! What a lost connection leaves (MS-SMB2 3.3.7.1).

ghost use Rattle.std.specs.Prelude.{◌≡◌, IfOk, OnOk, OnErr, map, filter};
ghost use Rattle.share_state.specs.Cut.{is_broken, ends_with, after_cut};
ghost use Rattle.share_spec.specs.Endings.{ending_of, all_ended};

use crate::close::end;
use share_state::{Lease, Open, OwedList, SentList, Share, Who, is_key_of};
use smb_base::{Bytes, NoMemory};
use std::alloc::Global;

// An open that ends, as far as its end goes by it.
#[derive(Clone, Copy)]
struct OpenEnding {
    number: u64,
    node: u64,
    entry: u64,
    delete: bool,
}

// The lease of an open has a break asked.
fn is_broken(leases: &[Lease], one: &Open) -> bool
    ensures { result ≡ is_broken leases.now one.now }
{
    leases.iter().any(|lease| {
        lease.who.0 == one.who.0 && is_key_of(lease.key, &one.key) && lease.asked.is_some()
    })
}

// An open of the client ends with its connection.
fn ends_with(who: Who, leases: &[Lease], one: &Open) -> bool
    ensures { result ≡ ends_with who leases.now one.now }
{
    one.who.0 == who.0 && (!one.durable || is_broken(leases, one))
}

// What the end of an open goes by.
fn ending_of(one: &Open) -> OpenEnding
    ensures { result ≡ ending_of one.now }
{
    OpenEnding {
        number: one.number,
        node: one.node,
        entry: one.entry,
        delete: one.delete_on_close,
    }
}

// The opens that end.
fn endings(
    alloc: Global,
    who: Who,
    leases: &[Lease],
    opens: &[Open],
) -> Result<Vec<OpenEnding>, NoMemory>
    ensures { IfOk result (λ list. list.items ≡ map ending_of (filter (ends_with who leases.now) opens.now)) }
{
    let mut list = Vec::new(alloc);
    for one in opens {
        if ends_with(who, leases, one) {
            list.push(ending_of(one))?;
        }
    }
    Ok(list)
}

// Ends one open after the other, each as by a Close.
fn end_all(s: &mut Share, list: &[OpenEnding])
    ensures { s.new ≡ all_ended list.now s.old }
{
    for one in list {
        end(s, one.number, one.node, one.entry, one.delete);
    }
}

/// The connection of client 0 is lost, with all that was sent on it and not taken, and owed and not got. Each of its opens ends as by
/// a Close, unless it is durable and no break of its lease is asked; those that are left are disconnected. It fails only for want
/// of memory, and then the share is as it was.
#[tactic(auto, using(crate::proofs::Cuts::all_ended_closes))]
pub fn cut(alloc: Global, s: &mut Share) -> Result<(), NoMemory>
    ensures ok { OnOk result (s.new ≡ after_cut s.old) }
    ensures err { OnErr result (s.new ≡ s.old) }
{
    let client = Who(0);
    let list = endings(alloc, client, s.leases.as_slice(), s.opens.as_slice())?;
    end_all(s, &list);
    s.opens.disconnect(client);
    s.connected = false;
    s.sent = SentList::new(alloc);
    s.owed = OwedList::new(alloc);
    s.held = Bytes::new(alloc);
    Ok(())
}
