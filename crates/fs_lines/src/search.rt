//! Where a line ends.

ghost use Rattle.std.specs.Prelude.{◌≡◌, ◌≢◌, ◌⊎◌, ◌∷◌, ◌++◌, [], ℕ, List};
ghost use Rattle.std.specs.List.{AllByRecursion};
ghost use Rattle.fs_lines.specs.Line.{first_line, behind, EndsAt};

/// The most bytes that a line may have, its end not counted.
pub const MAX_LINE: usize = 540_000;

/// LF, which ends a line.
pub const LINE_END: u8 = 10;

/// The place of the first LF.
pub fn first_end(bytes: &[u8]) -> Option<usize>
    ensures { EndsAt bytes.now result }
{
    for i in 0..bytes.len() {
        if bytes[i] == LINE_END {
            return Some(i);
        }
    }
    None
}

/// What the definitions of a line mean: bytes are the line, its LF and the bytes behind it, or are the line alone; a line has no LF;
/// and a text with no LF is read off again, before an LF and alone. It does nothing.
pub fn line_law()
    ensures parts { (bytes : List ℕ) → (bytes ≡ first_line bytes ++ 10 ∷ behind bytes) ⊎ ((bytes ≡ first_line bytes) × (behind bytes ≡ [])) }
    ensures no_end { (bytes : List ℕ) → AllByRecursion (λ b. b ≢ 10) (first_line bytes) }
    ensures before { (line rest : List ℕ) → AllByRecursion (λ b. b ≢ 10) line
        → (first_line (line ++ 10 ∷ rest) ≡ line) × (behind (line ++ 10 ∷ rest) ≡ rest) }
    ensures alone { (line : List ℕ) → AllByRecursion (λ b. b ≢ 10) line → (first_line line ≡ line) × (behind line ≡ []) }
{}
