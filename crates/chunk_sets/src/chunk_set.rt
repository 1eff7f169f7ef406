//! Sets of chunks, a bit for each chunk.

ghost use Rattle.std.specs.Prelude.{◌≡◌, ◌≤◌, ◌<◌, ◌*◌, ◌&&◌, ◌↔◌, ℕ, false, true, not, IfOk, IfSome, IfNone, IsTrue, count_by, length, replicate, slice_index, slice_set};
ghost use Rattle.std.specs.List.{position_or_len};
ghost use Rattle.chunk_sets.specs.ChunkSets.{IsFirstBit, IsFirstFrom, Without, has, has_bit};

use std::alloc::{AllocError, Global};
use std::marker::Model;

/// A set of chunks, at most 4,096: a list that says of each chunk whether it is in the set.
#[derive(Drop)]
pub struct ChunkSet {
    // Bit b of word w is chunk 64 w + b. The bits behind the last chunk are clear.
    words: Vec<u64>,
    chunks: u32,
}

impl Model for ChunkSet {
    ghost use Rattle.std.specs.Prelude.{List, Bool};
    ghost use Rattle.chunk_sets.specs.ChunkSets.{flags_of, AreWords};

    ghost Value = { List Bool };

    ghost view = { λ s. flags_of s.words.items s.chunks };

    ghost invariant = { λ s. AreWords s.words.items s.chunks };
}

impl ChunkSet {
    /// The empty set.
    pub fn new(alloc: Global, chunks: u32) -> Result<ChunkSet, AllocError>
        requires { chunks ≤ 4096 }
        ensures { IfOk result (λ s. s ≡ replicate chunks false) }
    {
        let words = vec![in alloc; 0; chunks.div_ceil(64) as usize]?;
        Ok(ChunkSet { words, chunks })
    }

    /// How many chunks there are, in the set or not.
    #[inline]
    pub fn chunks(&self) -> u32
        ensures { result ≡ length self.now }
    {
        self.chunks
    }

    /// Whether a chunk is in the set.
    #[inline]
    pub fn contains(&self, chunk: u32) -> bool
        ensures { result ≡ has self.now chunk }
    {
        let word = (chunk / 64) as usize;
        word < self.words.len() && (self.words[word] >> (chunk % 64)) & 1 == 1
    }

    /// Puts a chunk in.
    #[inline]
    pub fn insert(&mut self, chunk: u32)
        requires { chunk < length self.old }
        ensures { self.new ≡ slice_set self.old chunk true }
    {
        self.words[(chunk / 64) as usize] |= 1 << (chunk % 64);
    }

    /// Takes a chunk out.
    #[inline]
    pub fn remove(&mut self, chunk: u32)
        requires { chunk < length self.old }
        ensures { self.new ≡ slice_set self.old chunk false }
    {
        self.words[(chunk / 64) as usize] &= !(1 << (chunk % 64));
    }

    /// Takes all chunks out.
    pub fn clear(&mut self)
        ensures { self.new ≡ replicate (length self.old) false }
    {
        self.words.fill(0);
    }

    /// Makes it the same as another set.
    pub fn copy_from(&mut self, other: &ChunkSet)
        requires { length self.old ≡ length other.now }
        ensures { self.new ≡ other.now }
    {
        self.words.copy_from_slice(&other.words);
    }

    /// Takes the chunks of another set out.
    pub fn subtract(&mut self, other: &ChunkSet)
        requires { length self.old ≡ length other.now }
        ensures { Without self.old self.new (has other.now) }
    {
        clear_bits(&mut self.words, &other.words);
    }

    /// Makes it the chunks of one set that aren't in another.
    pub fn set_difference(&mut self, all: &ChunkSet, other: &ChunkSet)
        requires all { length self.old ≡ length all.now }
        requires other { length self.old ≡ length other.now }
        ensures { Without all.now self.new (has other.now) }
    {
        put_difference(&mut self.words, &all.words, &other.words);
    }

    /// The first chunk of the set that isn't before a place.
    #[inline]
    pub fn first_from(&self, from: u32) -> Option<u32>
        ensures found { IfSome result (λ k. IsFirstFrom self.now from k) }
        ensures none { IfNone result ((k : ℕ) → from ≤ k → has self.now k ≡ false) }
    {
        first_bit(&self.words, from)
    }

    /// The first chunk that isn't in the set.
    pub fn first_absent(&self) -> u32
        requires { 0 < count_by not self.now }
        ensures { result ≡ position_or_len not self.now }
    {
        first_clear_bit(&self.words)
    }
}

/// Clears the bits that are set in the other words.
fn clear_bits(words: &mut [u64], others: &[u64])
    requires { length words.old ≡ length others.now }
    ensures len { length words.new ≡ length words.old }
    ensures left { (k : ℕ) → has_bit words.new k ≡ (has_bit words.old k && not (has_bit others.now k)) }
{
    for (position, bits) in others.iter().enumerate() {
        words[position] &= !*bits;
    }
}

/// Puts the bits of all that aren't set in the others.
fn put_difference(words: &mut [u64], all: &[u64], others: &[u64])
    requires all { length words.old ≡ length all.now }
    requires others { length words.old ≡ length others.now }
    ensures len { length words.new ≡ length words.old }
    ensures left { (k : ℕ) → has_bit words.new k ≡ (has_bit all.now k && not (has_bit others.now k)) }
{
    for (position, bits) in others.iter().enumerate() {
        words[position] = all[position] & !*bits;
    }
}

/// The first bit from a place on that is set.
fn first_bit(words: &[u64], from: u32) -> Option<u32>
    requires { length words.now ≤ 64 }
    ensures found { IfSome result (λ k. IsFirstBit words.now from k) }
    ensures none { IfNone result ((k : ℕ) → from ≤ k → has_bit words.now k ≡ false) }
{
    let position = (from / 64) as usize;
    if position >= words.len() {
        return None;
    }
    let left = words[position] >> (from % 64);
    if left != 0 {
        return Some(from + left.trailing_zeros());
    }
    first_bit_of_words(words, position + 1)
}

/// The first bit that is set, from a word on.
fn first_bit_of_words(words: &[u64], from: usize) -> Option<u32>
    requires few { length words.now ≤ 64 }
    requires within { from ≤ length words.now }
    ensures found { IfSome result (λ k. IsFirstBit words.now (64 * from) k) }
    ensures none { IfNone result ((k : ℕ) → 64 * from ≤ k → has_bit words.now k ≡ false) }
{
    for position in after_clear(words, from)..words.len() {
        if words[position] != 0 {
            return Some(64 * position as u32 + words[position].trailing_zeros());
        }
    }
    None
}

/// A word behind none but clear ones, from a word on: they are passed by eights.
fn after_clear(words: &[u64], from: usize) -> usize
    requires { from ≤ length words.now }
    ensures at_or_after { from ≤ result }
    ensures within { result ≤ length words.now }
    ensures clear { (i : ℕ) → from ≤ i → i < result → slice_index words.now i ≡ 0 }
{
    let mut position = from;
    while words.len() - position >= 8 && are_clear(&words[position..position + 8]) {
        position += 8;
    }
    position
}

/// Whether eight words are clear.
#[inline]
fn are_clear(words: &[u64]) -> bool
    requires { length words.now ≡ 8 }
    ensures { IsTrue result ↔ ((i : ℕ) → i < 8 → slice_index words.now i ≡ 0) }
{
    let front = words[0] | words[1] | words[2] | words[3];
    let back = words[4] | words[5] | words[6] | words[7];
    front | back == 0
}

/// The first bit that is clear, or how many bits there are.
fn first_clear_bit(words: &[u64]) -> u32
    requires { length words.now ≤ 64 }
    ensures set_before { (k : ℕ) → k < result → has_bit words.now k ≡ true }
    ensures clear { result < 64 * length words.now → has_bit words.now result ≡ false }
    ensures all { result ≤ 64 * length words.now }
{
    for (position, bits) in words.iter().enumerate() {
        if *bits != u64::MAX {
            return 64 * position as u32 + bits.trailing_ones();
        }
    }
    64 * words.len() as u32
}
