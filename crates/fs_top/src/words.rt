//! The words of the command line.

ghost use Rattle.std.specs.Prelude.{◌≡◌, ◌≤◌, ℕ, List, [], ◌∷◌, ◌↔◌, IsTrue, IfSome, IfNone, map, slice_index, string_bytes};
ghost use Rattle.std.specs.Fmt.{decimal};
ghost use Rattle.fs_top.specs.Words.{IsHost, IsPing, IsRun};

/// The host, the port and the share of the words `run HOST PORT SHARE`; `None` where the words are others.
pub fn read_run(words: &Vec<String>) -> Option<(&str, u16, &str)>
    ensures found { IfSome result (λ p. IsRun (map string_bytes words.now.items) p.0.now p.1 p.2.now) }
    ensures none { IfNone result ((host : List ℕ) (port : ℕ) (share : List ℕ) → IsRun (map string_bytes words.now.items) host port share → ⊥) }
{
    match words.as_slice() {
        [name, host, port, share] => {
            run_of(name.as_str(), host.as_str(), port.as_str(), share.as_str())
        }
        _ => None,
    }
}

/// The same of the four words.
fn run_of<'a>(
    name: &str,
    host: &'a str,
    port: &str,
    share: &'a str,
) -> Option<(&'a str, u16, &'a str)>
    ensures found { IfSome result (λ p. (p.0.now ≡ host.now) × (p.2.now ≡ share.now) × IsRun (name.now ∷ host.now ∷ port.now ∷ share.now ∷ []) host.now p.1 share.now) }
    ensures none { IfNone result ((h : List ℕ) (p : ℕ) (s : List ℕ) → IsRun (name.now ∷ host.now ∷ port.now ∷ share.now ∷ []) h p s → ⊥) }
{
    if name != "run" || !is_host(host) || !is_host(share) {
        return None;
    }
    match port_of(port) {
        Some(number) => Some((host, number, share)),
        None => None,
    }
}

/// The host and the port of the words `ping HOST PORT`; `None` where the words are others.
pub fn read_ping(words: &Vec<String>) -> Option<(&str, u16)>
    ensures found { IfSome result (λ p. IsPing (map string_bytes words.now.items) p.0.now p.1) }
    ensures none { IfNone result ((host : List ℕ) (port : ℕ) → IsPing (map string_bytes words.now.items) host port → ⊥) }
{
    match words.as_slice() {
        [name, host, port] => ping_of(name.as_str(), host.as_str(), port.as_str()),
        _ => None,
    }
}

/// The same of the three words.
fn ping_of<'a>(name: &str, host: &'a str, port: &str) -> Option<(&'a str, u16)>
    ensures found { IfSome result (λ p. (p.0.now ≡ host.now) × IsPing (name.now ∷ host.now ∷ port.now ∷ []) host.now p.1) }
    ensures none { IfNone result ((h : List ℕ) (p : ℕ) → IsPing (name.now ∷ host.now ∷ port.now ∷ []) h p → ⊥) }
{
    if name != "ping" || !is_host(host) {
        return None;
    }
    match port_of(port) {
        Some(number) => Some((host, number)),
        None => None,
    }
}

/// A host has 1 to 255 bytes and does not begin with `-`.
fn is_host(host: &str) -> bool
    ensures { IsTrue result ↔ IsHost host.now }
{
    let bytes = host.as_bytes();
    1 <= bytes.len() && bytes.len() <= 255 && bytes[0] != b'-'
}

/// The number of a port: 1 to 65535 in decimal digits, with no sign and no needless zero.
fn port_of(text: &str) -> Option<u16>
    ensures found { IfSome result (λ port. (text.now ≡ decimal port) × (1 ≤ port)) }
    ensures none { IfNone result ((port : ℕ) → text.now ≡ decimal port → 1 ≤ port → port ≤ 65535 → ⊥) }
{
    if !begins_with_digit(text) {
        return None;
    }
    text.parse::<u16>().ok()
}

/// The first byte is one of the digits 1 to 9.
fn begins_with_digit(text: &str) -> bool
    ensures { IsTrue result ↔ ((49 ≤ slice_index text.now 0) × (slice_index text.now 0 ≤ 57)) }
{
    match text.as_bytes().first() {
        Some(byte) => b'1' <= *byte && *byte <= b'9',
        None => false,
    }
}
