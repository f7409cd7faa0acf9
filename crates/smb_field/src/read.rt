//! What a message lends.

ghost use Rattle.std.specs.Prelude.{◌≡◌, MatchOption, option_map, length};
ghost use Rattle.smb_field.specs.Body.{Lends, Strays};
ghost use Rattle.smb_field.specs.Rows.{part_in};

/// The part of `size` bytes at `offset` of a message whose fixed part ends at `behind`. None exactly where it is not empty and
/// does not lie in the message behind the fixed part. The offset of an empty part is not looked at.
#[tactic(auto, unfolding(crate::specs::Rows::part_in), using(crate::proofs::Parts::no_bytes))]
pub fn lent(message: &[u8], behind: usize, offset: u32, size: u32) -> Option<&[u8]>
    ensures exact { option_map (λ part. part.now) result ≡ part_in behind offset size message.now }
    ensures found { MatchOption result (Strays behind offset size message.now) (λ part. (length part.now ≡ size) × Lends behind part.now message.now offset) }
{
    if size == 0 {
        return Some(&message[..0]);
    }
    let from = offset as usize;
    let to = from + size as usize;
    if from < behind || message.len() < to {
        return None;
    }
    Some(&message[from..to])
}
