//! Names in order.

ghost use Rattle.std.specs.Prelude.{◌≡◌, OnOk};
ghost use Rattle.share_state.specs.Listing.{in_order};

use share_state::ShareName;
use smb_base::NoMemory;

// Puts names into the order of their units.
pub(crate) fn sort(names: &mut Vec<ShareName>) -> Result<(), NoMemory>
    ensures { OnOk result (names.new.items ≡ in_order names.old.items) }
{
    names.sort_by(|one, other| one.name.as_slice().cmp(other.name.as_slice()))?;
    Ok(())
}
