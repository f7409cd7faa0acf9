//! One character and the one that stands for it on the wire.

ghost use Rattle.std.specs.Prelude.{◌≡◌};
ghost use Rattle.smb_names.specs.WireName.{is_never_sent};
ghost use Rattle.smb_names.specs.WireSteps.{sfm_char_at, wire_char, is_refused, original_char, sfm_original, stands_for};

use crate::map::NameMap;

// The character that the map of reserved characters has for `c`, where it ends the component or not.
#[tactic(auto, unfolding(crate::specs::WireSteps::sfm_char_at))]
fn sfm_char_at(c: char, is_last: bool) -> char
    ensures { result ≡ sfm_char_at is_last c }
{
    match c {
        '\u{1}'..='\u{1F}' => char::from_u32(0xF000 + c as u32).unwrap(),
        '"' => '\u{F020}',
        '*' => '\u{F021}',
        ':' => '\u{F022}',
        '<' => '\u{F023}',
        '>' => '\u{F024}',
        '?' => '\u{F025}',
        '\\' => '\u{F026}',
        '|' => '\u{F027}',
        ' ' if is_last => '\u{F028}',
        '.' if is_last => '\u{F029}',
        _ => c,
    }
}

// The character that stands for `c` on the wire.
#[tactic(auto, unfolding(crate::specs::WireSteps::wire_char))]
pub(crate) fn wire_char(c: char, is_last: bool, map: NameMap) -> char
    ensures { result ≡ wire_char map is_last c }
{
    match map {
        NameMap::Sfm => sfm_char_at(c, is_last),
        NameMap::Plain => c,
    }
}

// Whether no name may have `c`.
fn is_never_sent(c: char) -> bool
    ensures { result ≡ is_never_sent c }
{
    matches!(c, '\0' | '/' | '\u{F001}'..='\u{F029}')
}

// Whether `c` may not stand there.
#[tactic(auto, unfolding(crate::specs::WireSteps::is_refused))]
pub(crate) fn is_refused(c: char, is_last: bool, map: NameMap) -> bool
    ensures { result ≡ is_refused map is_last c }
{
    is_never_sent(c)
        || match map {
            NameMap::Sfm => false,
            NameMap::Plain => sfm_char_at(c, is_last) != c,
        }
}

// The character that `c` of a wire name stands for.
#[tactic(auto, unfolding(crate::specs::WireSteps::original_char))]
pub(crate) fn original_char(c: char, map: NameMap) -> char
    ensures { result ≡ original_char map c }
{
    match map {
        NameMap::Sfm => sfm_original(c),
        NameMap::Plain => c,
    }
}

// The character for which `c` stands under the map of reserved characters.
#[tactic(auto, unfolding(crate::specs::WireSteps::sfm_original))]
fn sfm_original(c: char) -> char
    ensures { result ≡ sfm_original c }
{
    match c {
        '\u{F001}'..='\u{F01F}' => char::from_u32(c as u32 - 0xF000).unwrap(),
        '\u{F020}' => '"',
        '\u{F021}' => '*',
        '\u{F022}' => ':',
        '\u{F023}' => '<',
        '\u{F024}' => '>',
        '\u{F025}' => '?',
        '\u{F026}' => '\\',
        '\u{F027}' => '|',
        '\u{F028}' => ' ',
        '\u{F029}' => '.',
        _ => c,
    }
}

// Whether `wire` stands on the wire for `c`.
#[tactic(auto, unfolding(crate::specs::WireSteps::stands_for))]
pub(crate) fn stands_for(wire: char, c: char, is_last: bool, map: NameMap) -> bool
    ensures { result ≡ stands_for map is_last wire c }
{
    !is_refused(c, is_last, map) && wire_char(c, is_last, map) == wire
}
