//! One request and its reply.

ghost use Rattle.std.specs.Prelude.{◌≡◌, true, IfOk, OnErr, None};
ghost use Rattle.share_state.specs.Built.{is_built};
ghost use Rattle.share_state.specs.Step.{step_of};

use crate::close::close;
use crate::create::create;
use crate::query::query;
use share_data::{flush, lock, read, room, set_basic, set_end, unlock, write};
use share_list::list;
use share_names::{link_to, rename, set_pending};
use share_state::{Rep, Req, Share, Wanted, Who, of_status};
use smb_base::{NoMemory, Status};
use std::alloc::Global;

/// Does a request of a client on the share and gives its reply, after MS-FSA 2.1.5. The request is one that `Req::is_built` tells
/// of. It fails only for want of memory, and then the share is as it was.
pub fn step(alloc: Global, s: &mut Share, who: Who, r: &Req) -> Result<Rep, NoMemory>
    requires built { is_built r.now ≡ true }
    ensures ok { IfOk result (λ rep. step_of None s.old who r.now ≡ (rep, s.new)) }
    ensures err { OnErr result (s.new ≡ s.old) }
{
    match r {
        Req::Create {
            path,
            access,
            share,
            disposition,
            options,
            attributes,
            lease,
            durable,
        } => {
            let wanted = Wanted {
                access: *access,
                share: *share,
                disposition: *disposition,
                options: *options,
                attributes: *attributes,
                lease: *lease,
                durable: *durable,
            };
            create(alloc, s, who, path, wanted)
        }
        Req::Close { fid } => Ok(close(s, who, *fid)),
        Req::Query { fid } => Ok(query(s, who, *fid)),
        Req::Flush { fid } => Ok(flush(s, who, *fid)),
        Req::Room { fid } => Ok(room(s, who, *fid)),
        Req::Read {
            fid,
            offset,
            length,
        } => read(alloc, s, who, *fid, *offset, *length),
        Req::Write { fid, offset, bytes } => {
            write(alloc, s, who, *fid, *offset, bytes.as_slice())
        }
        Req::Lock {
            fid,
            offset,
            length,
            exclusive,
        } => lock(s, who, *fid, *offset, *length, *exclusive),
        Req::Unlock {
            fid,
            offset,
            length,
        } => Ok(unlock(s, who, *fid, *offset, *length)),
        Req::List {
            fid,
            restart,
            length,
        } => list(alloc, s, who, *fid, *restart, *length),
        Req::SetBasic { fid, attributes } => Ok(set_basic(s, who, *fid, *attributes)),
        Req::SetEnd { fid, size } => set_end(alloc, s, who, *fid, *size),
        Req::SetPending { fid, on } => Ok(set_pending(s, who, *fid, *on)),
        Req::Rename { fid, replace, path } => rename(alloc, s, who, *fid, *replace, path),
        Req::LinkTo { fid, replace, path } => link_to(alloc, s, who, *fid, *replace, path),
        _ => Ok(of_status(Status::NOT_SUPPORTED)),
    }
}
