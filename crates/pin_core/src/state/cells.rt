//! The writer's stores: chunks that it gives and frees, cells that it writes, versions that it publishes.
ghost use Rattle.std.specs.Prelude.{◌≡◌, ◌+◌, ◌*◌, ◌<◌, ◌≤◌, length, All, IfOk, OnOk, OnErr};
ghost use Rattle.pin_core.specs.Prelude.{list_all, chunk_of, is_given, given, freed, written, image_of, can_publish, published};

use super::State;
use super::turn::clear_marks;
use crate::event::{Half, Step};
use crate::image::{has_its_root, has_no_duplicate, is_in_kept_image, meets_kept_image};
use crate::kept::{CellAt, Image, Kept};
use crate::version::LAST_VERSION;
use crate::words::{
    CHUNK_CELLS, CUR, FIRST_CELL, FIRST_STATUS, FREE, GIVEN, place_of_half, word_of_version,
};
use std::alloc::{AllocError, Global};

/// These cells with their words.
fn image_of_cells(alloc: Global, words: &[u64], cells: &[u32]) -> Result<Image, AllocError>
    requires { All (λ r. 4162 + 2 * r < length words.now) cells.now }
    ensures { IfOk result (λ image. image ≡ image_of words.now cells.now) }
{
    let mut image = Vec::new(alloc);
    for at in cells {
        let place = FIRST_CELL + 2 * *at as usize;
        image.push(CellAt {
            at: *at,
            big: words[place],
            small: words[place + 1],
        })?;
    }
    Ok(Image { cells: image })
}

impl State {
    fn is_given(&self, chunk: u32) -> bool
        ensures { result ≡ is_given self.now.size self.now.words chunk }
    {
        chunk < self.chunks && self.words[FIRST_STATUS + chunk as usize] == GIVEN
    }

    /// A free chunk is given.
    pub(super) fn give(&mut self, chunk: u32) -> Step
        ensures after { self.new ≡ (given self.old chunk).0 }
        ensures answer { result ≡ (given self.old chunk).1 }
    {
        if chunk < self.chunks && self.words[FIRST_STATUS + chunk as usize] == FREE {
            self.words[FIRST_STATUS + chunk as usize] = GIVEN;
            return Step::Done;
        }
        Step::Refused
    }

    /// A given chunk that no kept image meets is free again.
    pub(super) fn free(&mut self, chunk: u32) -> Step
        ensures after { self.new ≡ (freed self.old chunk).0 }
        ensures answer { result ≡ (freed self.old chunk).1 }
    {
        if !self.is_given(chunk) || meets_kept_image(&self.kept, chunk) {
            return Step::Refused;
        }
        self.words[FIRST_STATUS + chunk as usize] = FREE;
        Step::Done
    }

    /// A word of a cell that lies in a given chunk and in no kept image is written.
    pub(super) fn write(&mut self, at: u32, half: Half, value: u64) -> Step
        ensures after { self.new ≡ (written self.old at half value).0 }
        ensures answer { result ≡ (written self.old at half value).1 }
    {
        if !self.is_given(at / CHUNK_CELLS) || is_in_kept_image(&self.kept, at) {
            return Step::Refused;
        }
        self.words[place_of_half(at, half)] = value;
        Step::Done
    }

    fn are_given(&self, cells: &[u32]) -> bool
        ensures { result ≡ list_all (λ r. is_given self.now.size self.now.words (chunk_of r)) cells.now }
    {
        cells.iter().all(|at| self.is_given(*at / CHUNK_CELLS))
    }

    fn can_publish(&self, root: Option<u32>, cells: &[u32]) -> bool
        ensures { result ≡ can_publish self.now root cells.now }
    {
        self.version < LAST_VERSION
            && has_no_duplicate(cells)
            && self.are_given(cells)
            && has_its_root(root, cells)
    }

    /// The next version, with this root and the image of these cells.
    pub(super) fn publish(
        &mut self,
        alloc: Global,
        root: Option<u32>,
        cells: &[u32],
    ) -> Result<Step, AllocError>
        ensures after { OnOk result (self.new ≡ (published self.old root cells.now).0) }
        ensures answer { IfOk result (λ answer. answer ≡ (published self.old root cells.now).1) }
        ensures err { OnErr result (self.new ≡ self.old) }
    {
        if !self.can_publish(root, cells) {
            return Ok(Step::Refused);
        }
        let version = self.version + 1;
        let word = word_of_version(version, root);
        let image = image_of_cells(alloc, &self.words, cells)?;
        self.kept.push(Kept {
            version,
            root,
            image,
        })?;
        self.version = version;
        self.words[CUR] = word;
        clear_marks(&mut self.marks);
        Ok(Step::Done)
    }
}
