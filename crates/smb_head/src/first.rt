//! The first frame of some bytes.

ghost use Rattle.std.specs.Prelude.{◌≡◌, ◌+◌, ◌^◌, ◌<◌, ◌≤◌, ◌++◌, [], ℕ, List, length, take, drop, IfOk, IfErr, IfSome, IfNone};
ghost use Rattle.smb_head.specs.Stream.{First, Whole, Partial, Bad, first_of, frame_length, lack, lack_of, prefix};

use thiserror::Error;

/// The most bytes that a frame may have, its first four not counted.
pub const MAX_FRAME: usize = 1_114_112;

/// Why a stream is no list of frames, or a frame could not be handed out.
#[derive(Clone, Copy, Debug, PartialEq, Eq, Error)]
pub enum FrameFault {
    /// A byte that is not zero stands where a frame is to begin.
    #[error("a frame begins with {0}")]
    NotZero(u8),
    /// A frame of more than 1,114,112 bytes.
    #[error("a frame of {0} bytes")]
    TooLarge(u32),
    /// Memory ran out. Nothing is changed.
    #[error("out of memory")]
    NoMemory,
}

/// The frame that the bytes begin with, without its first four bytes; `None` where they are less than a whole frame. It takes no
/// memory.
///
/// # Errors
///
/// `NotZero` where the first byte is not zero, `TooLarge` where the length is above [`MAX_FRAME`].
#[tactic(auto, unfolding(crate::specs::Stream::first_of))]
pub fn first_frame(bytes: &[u8]) -> Result<Option<&[u8]>, FrameFault>
    ensures whole { IfOk result (λ frame. IfSome frame (λ m.
        first_of bytes.now ≡ Whole m.now (drop (4 + length m.now) bytes.now))) }
    ensures within { IfOk result (λ frame. IfSome frame (λ m. 4 + length m.now ≤ length bytes.now)) }
    ensures partial { IfOk result (λ frame. IfNone frame (first_of bytes.now ≡ Partial)) }
    ensures bad { IfErr result (λ fault. first_of bytes.now ≡ Bad fault) }
{
    if bytes.is_empty() {
        return Ok(None);
    }
    if bytes[0] != 0 {
        return Err(FrameFault::NotZero(bytes[0]));
    }
    if bytes.len() < 4 {
        return Ok(None);
    }
    let length = length_of(bytes);
    if length > MAX_FRAME {
        return Err(FrameFault::TooLarge(length as u32));
    }
    if bytes.len() < 4 + length {
        return Ok(None);
    }
    Ok(Some(&bytes[4..4 + length]))
}

// The length in bytes 1 to 3.
fn length_of(bytes: &[u8]) -> usize
    requires { 4 ≤ length bytes.now }
    ensures value { result ≡ frame_length bytes.now }
    ensures small { result < 2 ^ 24 }
{
    bytes[1] as usize * 65536 + (bytes[2] as usize * 256 + bytes[3] as usize)
}

/// How many bytes are missing until [`first_frame`] has a frame or a fault to give: 4 less those held while there are fewer than 4,
/// and from then on the rest of the frame. 0 where it has one.
pub fn frame_lacks(bytes: &[u8]) -> usize
    ensures value { result ≡ lack_of bytes.now }

    // From four bytes on, any so many bytes more make it one whole frame.
    ensures completes { first_of bytes.now ≡ Partial → 4 ≤ length bytes.now
        → (more : List ℕ) → length more ≡ result
        → first_of (bytes.now ++ more) ≡ Whole (drop 4 (bytes.now ++ more)) [] }
{
    match first_frame(bytes) {
        Ok(None) => missing(bytes),
        Ok(Some(_)) | Err(_) => 0,
    }
}

#[tactic(auto, unfolding(crate::specs::Stream::first_of))]
fn missing(bytes: &[u8]) -> usize
    requires { first_of bytes.now ≡ Partial }
    ensures { result ≡ lack Partial bytes.now }
{
    if bytes.len() < 4 {
        return 4 - bytes.len();
    }
    4 + length_of(bytes) - bytes.len()
}

/// The four bytes that stand in front of so many bytes to make them a frame.
pub fn frame_start(len: usize) -> [u8; 4]
    requires { len ≤ MAX_FRAME }
    ensures value { result ≡ prefix len }

    // A message with these four in front is less than a frame until its last byte is there.
    ensures begun { (message : List ℕ) (k : ℕ) → length message ≡ len → k < 4 + len
        → first_of (take k (prefix len ++ message)) ≡ Partial }

    // A message with these four in front is taken off a stream again, whatever follows it.
    ensures taken { (message rest : List ℕ) → length message ≡ len
        → first_of (prefix len ++ (message ++ rest)) ≡ Whole message rest }
{
    [
        0,
        (len / 65536 % 256) as u8,
        (len / 256 % 256) as u8,
        (len % 256) as u8,
    ]
}
