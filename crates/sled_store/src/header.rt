//! The word that a buffer keeps of its state: five fields in one number (`specs/Words.antt`).
//!
//! From the lowest bits up: 24 bits say where the buffer's bytes end, 7 how many writers it has, one whether it is
//! sealed, one whether it is the last buffer of its segment (maxed), and 31 are a salt that tells its uses apart.
//! Each function changes one field and leaves the others, but for [`bump_salt`].
ghost use Rattle.std.specs.Prelude.{◌≡◌, ◌+◌, ◌-◌, ◌%◌, ◌<◌, ◌^◌, ◌↔◌, IsTrue, true};
ghost use Rattle.sled_store.specs.Words.{Fields, fields_of, offset_of, writers_of, is_sealed_in, is_maxed_in, salt_of};

/// The word itself.
pub type Header = u64;

/// The most writers that a word can count.
pub const MAX_WRITERS: Header = 127;

const OFFSET_END: u64 = 1 << 24;

const SEALED: u64 = 1 << 31;

const MAXED: u64 = 1 << 32;

const SALT: u64 = 1 << 33;

/// Returns whether the buffer is the last one of its segment.
pub fn is_maxed(word: Header) -> bool
    ensures { result ≡ is_maxed_in word }
{
    word / MAXED % 2 == 1
}

/// Returns the word of the same buffer as the last one of its segment.
pub fn mk_maxed(word: Header) -> Header
    ensures { fields_of result ≡ record (fields_of word) { is_maxed = true } }
{
    if is_maxed(word) { word } else { word + MAXED }
}

/// Returns whether the buffer is sealed.
pub fn is_sealed(word: Header) -> bool
    ensures { result ≡ is_sealed_in word }
{
    word / SEALED % 2 == 1
}

/// Returns the word of the same buffer, sealed.
pub fn mk_sealed(word: Header) -> Header
    ensures { fields_of result ≡ record (fields_of word) { is_sealed = true } }
{
    if is_sealed(word) { word } else { word + SEALED }
}

/// Returns how many writers the buffer has.
pub fn n_writers(word: Header) -> u64
    ensures { result ≡ writers_of word }
{
    word / OFFSET_END % 128
}

/// Returns the word with one writer more. There are fewer than [`MAX_WRITERS`].
pub fn incr_writers(word: Header) -> Header
    requires { writers_of word < 127 }
    ensures { fields_of result ≡ record (fields_of word) { writers = writers_of word + 1 } }
{
    word + OFFSET_END
}

/// Returns the word with one writer fewer. There is one.
pub fn decr_writers(word: Header) -> Header
    requires { 0 < writers_of word }
    ensures { fields_of result ≡ record (fields_of word) { writers = writers_of word - 1 } }
{
    word - OFFSET_END
}

/// Returns where the buffer's bytes end.
pub fn offset(word: Header) -> usize
    ensures { result ≡ offset_of word }
{
    (word % OFFSET_END) as usize
}

/// Returns the word of the buffer with so many bytes more. They end below 2^24.
pub fn bump_offset(word: Header, by: usize) -> Header
    requires { offset_of word + by < 2 ^ 24 }
    ensures { fields_of result ≡ record (fields_of word) { offset = offset_of word + by } }
{
    word + by as u64
}

/// Returns the word of the next use of a buffer: the next salt, which begins anew behind the greatest one, and all
/// other fields 0.
pub fn bump_salt(word: Header) -> Header
    ensures { result ≡ (salt_of word + 2 ^ 33) % 2 ^ 64 }
{
    salt(word).wrapping_add(SALT)
}

/// Returns the salt, in its place in the word.
pub fn salt(word: Header) -> Header
    ensures { result ≡ salt_of word }
{
    word / SALT * SALT
}
