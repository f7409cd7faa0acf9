//! The words of which there are few.

ghost use Rattle.std.specs.Prelude.{◌≡◌};
ghost use Rattle.fs_script.specs.Choices.{flags_of, exclusive_of};

use crate::line::LineFault;

// The flags of an `open`: `r` 1, `w` 2 or `rw`, then perhaps `c` 4 or `cx` 12, then perhaps `t` 16.
pub(crate) fn flags_of(word: &str) -> Result<u8, LineFault>
    ensures { result ≡ flags_of word.now }
{
    match word {
        "r" => Ok(1),
        "rt" => Ok(17),
        "rc" => Ok(5),
        "rct" => Ok(21),
        "rcx" => Ok(13),
        "rcxt" => Ok(29),
        "w" => Ok(2),
        "wt" => Ok(18),
        "wc" => Ok(6),
        "wct" => Ok(22),
        "wcx" => Ok(14),
        "wcxt" => Ok(30),
        "rw" => Ok(3),
        "rwt" => Ok(19),
        "rwc" => Ok(7),
        "rwct" => Ok(23),
        "rwcx" => Ok(15),
        "rwcxt" => Ok(31),
        _ => Err(LineFault::Word),
    }
}

// Whether a lock is exclusive, `x`, or shared, `s`.
pub(crate) fn exclusive_of(word: &str) -> Result<bool, LineFault>
    ensures { result ≡ exclusive_of word.now }
{
    match word {
        "s" => Ok(false),
        "x" => Ok(true),
        _ => Err(LineFault::Word),
    }
}
