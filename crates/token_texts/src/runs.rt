//! Runs of bytes of one class.
ghost use Rattle.std.specs.Prelude.{◌≡◌, ◌≤◌, ℕ, Bool, length};
ghost use Rattle.token_texts.specs.Runs.{run_length, escaped_run_length};

/// A class of bytes.
pub trait ByteClass {
    ghost is_in: { ℕ → Bool };

    /// Whether the class has this byte.
    fn has(byte: u8) -> bool
        ensures { result ≡ is_in byte };
}

/// How many bytes of the class stand at the front.
#[inline]
pub fn run_length<C: ByteClass>(bytes: &[u8]) -> usize
    ensures value { result ≡ run_length C.is_in bytes.now }
    ensures within { result ≤ length bytes.now }
{
    let mut place = 0;
    while place < bytes.len() {
        if !C::has(bytes[place]) {
            break;
        }
        place += 1;
    }
    place
}

/// How many bytes of the class stand at the front, where a backslash takes the next byte with it. A backslash that has none to
/// take ends the run.
#[inline]
pub fn escaped_run_length<C: ByteClass>(bytes: &[u8]) -> usize
    ensures value { result ≡ escaped_run_length C.is_in bytes.now }
    ensures within { result ≤ length bytes.now }
{
    let mut place = 0;
    while place < bytes.len() {
        let byte = bytes[place];
        if byte != b'\\' && C::has(byte) {
            place += 1;
        } else if byte == b'\\' {
            if bytes.len() - place == 1 {
                break;
            }
            place += 2;
        } else {
            break;
        }
    }
    place
}
