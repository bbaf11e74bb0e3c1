//! Hashing response keys.

ghost use Rattle.std.specs.Prelude.{◌≡◌};
ghost use Rattle.collected_fields.specs.KeyHashes.{start_of};

use crate::collected::Collected;
use crate::steps::key_of;
use counted_work::{Work, steps_of_text};
use std::hash::{BuildHasher, DefaultHasher, Hasher};

/// How many bytes of a key are hashed. A document has few keys that are longer, and they are compared.
const START: usize = 4096;

/// SipHash of the starts of what is written.
#[derive(Clone, Copy)]
pub struct StartHasher {
    inner: DefaultHasher,
}

/// The start of some bytes.
fn start_of(bytes: &[u8]) -> &[u8]
    ensures { result.now ≡ start_of bytes.now }
{
    if bytes.len() <= START {
        bytes
    } else {
        &bytes[..START]
    }
}

impl Hasher for StartHasher {
    ghost use Rattle.collected_fields.specs.KeyHashes.{written_on, hash_so_far};

    ghost write = { written_on };

    ghost finish = { hash_so_far };

    fn finish(&self) -> u64 {
        self.inner.finish()
    }

    fn write(&mut self, bytes: &[u8]) {
        self.inner.write(start_of(bytes));
    }
}

/// Hashes the response keys of a position. What a key comes to depends on all keys of the position, so that who writes them
/// can't choose some that collide: the others that he writes, and these themselves, would make them come to something else.
#[derive(Clone, Copy)]
pub struct KeyHashing {
    begun: StartHasher,
}

impl KeyHashing {
    /// For the keys of these fields.
    pub(crate) fn of(work: Work<'_>, fields: &[Collected<'_>]) -> KeyHashing {
        let mut begun = StartHasher {
            inner: DefaultHasher::new(),
        };
        let mut bytes: usize = 0;
        for field in fields {
            let key = key_of(field.field);
            bytes = bytes.wrapping_add(key.len());
            begun.write_usize(key.len());
            begun.write(key.as_bytes());
        }
        work.count(steps_of_text(bytes));
        KeyHashing { begun }
    }
}

impl BuildHasher for KeyHashing {
    type Hasher = StartHasher;

    ghost build_hasher = { λ h. h.begun };

    fn build_hasher(&self) -> StartHasher {
        self.begun
    }
}
