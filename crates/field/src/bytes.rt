// Words in bytes, least byte first, from a place in a whole record on, as the head of `number` says.
ghost use Rattle.std.specs.Prelude.{◌≡◌, ◌+◌, ◌≤◌, length};
ghost use Rattle.field.specs.Bytes.{word_at};
ghost use Rattle.field.specs.Inner.Written.{with_word};

// The word whose eight bytes begin at a place.
pub fn word_at(bytes: &[u8], at: usize) -> u64
    requires { at + 8 ≤ length bytes.now }
    ensures { result ≡ word_at bytes.now at }
{
    // Byte by byte, which compiles to one load: `copy_from_slice` into an array leaves a test for overlap.
    u64::from_le_bytes([
        bytes[at],
        bytes[at + 1],
        bytes[at + 2],
        bytes[at + 3],
        bytes[at + 4],
        bytes[at + 5],
        bytes[at + 6],
        bytes[at + 7],
    ])
}

// Writes the eight bytes of a word from a place on.
pub fn put_word(bytes: &mut [u8], at: usize, word: u64)
    requires { at + 8 ≤ length bytes.old }
    ensures { bytes.new ≡ with_word bytes.old at word }
{
    bytes[at..at + 8].copy_from_slice(&word.to_le_bytes());
}
