//! Openings.
ghost use Rattle.std.specs.Prelude.{◌≡◌, ◌+◌, ◌*◌, ◌^◌, ◌<◌, ◌≤◌, IfOk, IsTrue, All, replicate, length};
ghost use Rattle.pin_core.specs.Prelude.{fold, size_of, IsSound, can_open, opened, started, with_cell, IsWithinLimits};
ghost use Rattle.pin_core.specs.declared.kept.Stage.TheVariants as stage;
ghost use Rattle.pin_core.specs.declared.kept.Mark.TheVariants as mark;

use super::State;
use crate::kept::{CellAt, Image, Kept, Mark, Stage};
use crate::words::{
    CHUNK_CELLS, CHUNK_WORDS, CUR, FIRST_CELL, FIRST_STATUS, GIVEN, word_of_version,
};
use std::alloc::{AllocError, Global};

fn zeros(alloc: Global, count: usize) -> Result<Vec<u64>, AllocError>
    ensures { IfOk result (λ v. v.items ≡ replicate count 0) }
{
    vec![in alloc; 0; count]
}

fn idle_stages(alloc: Global, passes: u32) -> Result<Vec<Stage>, AllocError>
    ensures { IfOk result (λ v. v.items ≡ replicate passes stage.Idle) }
{
    vec![in alloc; Stage::Idle; passes as usize]
}

fn blank_marks(alloc: Global, passes: u32) -> Result<Vec<Mark>, AllocError>
    ensures { IfOk result (λ v. v.items ≡ replicate passes mark.Blank) }
{
    vec![in alloc; Mark::Blank; passes as usize]
}

/// Gives the chunk of a cell, and writes the cell's words.
fn lay_cell(words: &mut [u64], cell: CellAt)
    requires { 4162 + 2 * cell.at < length words.old }
    ensures { words.new ≡ with_cell words.old cell }
{
    let place = FIRST_CELL + 2 * cell.at as usize;
    words[FIRST_STATUS + (cell.at / CHUNK_CELLS) as usize] = GIVEN;
    words[place] = cell.big;
    words[place + 1] = cell.small;
}

/// Gives the chunks of an image, and writes its words.
fn lay_image(words: &mut [u64], image: &[CellAt])
    requires { All (λ c. 4162 + 2 * c.at < length words.old) image.now }
    ensures { words.new ≡ fold with_cell words.old image.now }
{
    for cell in image {
        lay_cell(words, *cell);
    }
}

impl State {
    /// Version 0 is empty, no chunk is given, and all passes are idle.
    pub fn start(alloc: Global, passes: u32, chunks: u32) -> Result<State, AllocError>
        requires { IsWithinLimits (size_of passes chunks) }
        ensures start { IfOk result (λ state. state ≡ started (size_of passes chunks)) }
        ensures sound { IfOk result IsSound }
    {
        let image = Image {
            cells: Vec::new(alloc),
        };
        State::open(alloc, passes, chunks, None, image)
    }

    /// Version 0 has this root and this image. The chunks of the image are given, and all passes are idle.
    pub fn open(
        alloc: Global,
        passes: u32,
        chunks: u32,
        root: Option<u32>,
        image: Image,
    ) -> Result<State, AllocError>
        requires limits { IsWithinLimits (size_of passes chunks) }
        requires image { IsTrue (can_open (size_of passes chunks) root image) }
        ensures opening { IfOk result (λ state. state ≡ opened (size_of passes chunks) root image) }
        ensures sound { IfOk result IsSound }
    {
        let mut words = zeros(alloc, FIRST_CELL + CHUNK_WORDS * chunks as usize)?;
        words[CUR] = word_of_version(0, root);
        lay_image(&mut words, &image.cells);
        let stages = idle_stages(alloc, passes)?;
        let seen = zeros(alloc, passes as usize)?;
        let marks = blank_marks(alloc, passes)?;
        let mut kept = Vec::new(alloc);
        kept.push(Kept {
            version: 0,
            root,
            image,
        })?;
        Ok(State {
            passes,
            chunks,
            words,
            stages,
            seen,
            version: 0,
            kept,
            marks,
        })
    }
}
