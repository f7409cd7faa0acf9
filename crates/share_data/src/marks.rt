//! The attributes of a file.

ghost use Rattle.std.specs.Prelude.{◌≡◌, option_map};
ghost use Rattle.share_state.specs.Marks.{refusal_of_basic, with_attributes, basic_of};

use share_state::{Open, Rep, Share, Who, has, of_status, open_of};
use smb_base::{Fid, Status};

const READONLY: u32 = 1;

const WRITE_ATTRIBUTES: u32 = 0x100;

// Why new attributes are refused.
fn refusal_of_basic(one: &Open) -> Option<Status>
    ensures { option_map (λ f. f.0) result ≡ refusal_of_basic one.now }
{
    if has(one.access, WRITE_ATTRIBUTES) {
        return None;
    }
    Some(Status::ACCESS_DENIED)
}

// Gives a node these attributes; 0 changes nothing.
fn set_attributes(s: &mut Share, node: u64, attributes: u32)
    ensures { s.new ≡ with_attributes node attributes s.old }
{
    if attributes != 0 {
        s.nodes.set_read_only(node, has(attributes, READONLY));
    }
}

/// Gives the open's file these attributes (MS-FSA 2.1.5.15.2), of which the share keeps READONLY alone; 0 changes nothing. Refused with
/// FILE_CLOSED where the file id names no open of the client, ACCESS_DENIED without WRITE_ATTRIBUTES; the share is then as it was.
pub fn set_basic(s: &mut Share, who: Who, fid: Fid, attributes: u32) -> Rep
    ensures { basic_of s.old who fid attributes ≡ (result, s.new) }
{
    let Some(open) = open_of(s.opens.as_slice(), who, fid) else {
        return of_status(Status::FILE_CLOSED);
    };
    if let Some(status) = refusal_of_basic(open) {
        return of_status(status);
    }
    let node = open.node;
    set_attributes(s, node, attributes);
    of_status(Status::SUCCESS)
}
