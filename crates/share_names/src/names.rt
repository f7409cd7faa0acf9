//! Names, when two are equal, and the components of a path.

ghost use Rattle.std.specs.Prelude.{◌≡◌, ◌==◌, ◌||◌, nat_lt, IfOk};
ghost use Rattle.std.specs.List.{list_all, list_any};
ghost use Rattle.share_state.specs.Names.{folded, same_name, is_reserved, is_name, components};

use share_state::UnitsList;
use smb_base::{NoMemory, Units};
use std::alloc::Global;

/// What stands between two components of a path.
const BACKSLASH: u16 = 0x5C;

// The unit that decides whether two names are equal.
fn folded(fold: bool, unit: u16) -> u16
    ensures { result ≡ folded fold unit }
{
    if fold && 0x61 <= unit && unit <= 0x7A {
        unit - 0x20
    } else {
        unit
    }
}

/// Whether two names are equal.
pub fn same_name(fold: bool, one: &[u16], other: &[u16]) -> bool
    ensures { result ≡ same_name fold one.now other.now }
{
    match (one.split_first(), other.split_first()) {
        (None, None) => true,
        (Some((x, xs)), Some((y, ys))) => {
            folded(fold, *x) == folded(fold, *y) && same_name(fold, xs, ys)
        }
        _ => false,
    }
}

// Whether no name may have this unit.
fn is_reserved(unit: u16) -> bool
    ensures { result ≡ is_reserved unit }
{
    unit < 0x20
        || unit == 0x22
        || unit == 0x2A
        || unit == 0x2F
        || unit == 0x3A
        || unit == 0x3C
        || unit == 0x3E
        || unit == 0x3F
        || unit == 0x7C
}

// Whether no name may have one of these units.
fn has_reserved(units: &[u16]) -> bool
    ensures { result ≡ list_any is_reserved units.now }
{
    units.iter().any(|unit| is_reserved(*unit))
}

// Whether these units can be a name.
fn is_name(units: &Units) -> bool
    ensures { result ≡ is_name units.now }
{
    1 <= units.len() && units.len() <= 255 && !has_reserved(units.as_slice())
}

/// Whether each of these can be a name.
pub fn are_names(names: &[Units]) -> bool
    ensures { result ≡ list_all is_name names.now }
{
    names.iter().all(|name| is_name(name))
}

/// The components of a path.
#[tactic(auto, unfolding(share_state::specs::Names::components))]
pub fn components(alloc: Global, path: &[u16]) -> Result<UnitsList, NoMemory>
    ensures { IfOk result (λ l. l ≡ components path.now) }
{
    let mut list = UnitsList::new(alloc);
    if path.is_empty() {
        return Ok(list);
    }
    for part in path.split(
        |unit| -> bool
            ensures { result ≡ (unit.now == 0x5C) }
        { *unit == BACKSLASH },
    ) {
        list.push(Units::of(alloc, part)?)?;
    }
    Ok(list)
}
