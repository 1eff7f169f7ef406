//! The shared words of an index: where each stands, and what it says.
ghost use Rattle.std.specs.Prelude.{◌≡◌, ◌+◌, ◌*◌, ◌^◌, ◌<◌, ◌≤◌};
ghost use Rattle.pin_core.specs.Prelude.{root_number, current_word, half_at, version_of, exchanged};

use crate::event::Half;

/// The place of the current version's word.
pub const CUR: usize = 0;

/// The place of the first pass's pin; those of the others follow.
pub const FIRST_PIN: usize = 1;

/// The place of the first chunk's status.
pub const FIRST_STATUS: usize = 65;

/// The place of the first cell's big word. Its small word follows, and then the next cell.
pub const FIRST_CELL: usize = 4161;

/// The status of a free chunk.
pub const FREE: u64 = 0;

/// The status of a given chunk.
pub const GIVEN: u64 = 1;

/// How many cells a chunk has.
pub const CHUNK_CELLS: u32 = 1024;

/// How many words the cells of a chunk have.
pub const CHUNK_WORDS: usize = 2048;

/// The pin of an idle pass.
pub const IDLE: u64 = 0;

/// The pin of a pass that is about to look.
pub const ENTERING: u64 = 1;

/// What a pin adds to the word of the version that it names.
pub const PIN_OFFSET: u64 = 2;

/// How many root numbers there are for each version in the words of CUR.
pub const ROOTS: u64 = 0x100_0000;

/// What stands for the root of an empty version.
pub const NO_ROOT: u64 = 0xff_fffd;

/// What CUR says of this version and this root.
pub fn word_of_version(version: u64, root: Option<u32>) -> u64
    requires version { version < 2 ^ 40 }
    requires root { root_number root < 2 ^ 24 }
    ensures { result ≡ current_word version root }
{
    let root = match root {
        Some(reference) => u64::from(reference),
        None => NO_ROOT,
    };
    version * ROOTS + root
}

/// The place of one of a cell's words.
pub fn place_of_half(at: u32, half: Half) -> usize
    ensures { result ≡ half_at at half }
{
    match half {
        Half::Big => FIRST_CELL + 2 * at as usize,
        Half::Small => FIRST_CELL + 2 * at as usize + 1,
    }
}

/// A pin after a compare-exchange from 1 to the pin of this word of CUR.
pub fn pin_after_exchange(pin: u64, word: u64) -> u64
    requires { exchanged pin word < 2 ^ 64 }
    ensures { result ≡ exchanged pin word }
{
    if pin == ENTERING {
        word + PIN_OFFSET
    } else {
        pin
    }
}

/// The version that a pin names.
pub fn version_of_pin(pin: u64) -> u64
    requires { 2 ≤ pin }
    ensures { result ≡ version_of pin }
{
    (pin - PIN_OFFSET) / ROOTS
}
