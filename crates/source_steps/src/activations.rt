//! The locals of the live activations.

ghost use Rattle.std.specs.Prelude.{◌≡◌, ◌++◌, [], ◌∷◌, length, take, replicate, slice_set};
ghost use Rattle.std.specs.Prelude.{slice_index, OnOk, IfOk};
ghost use Rattle.source_steps.specs.Locals.{frame_in, with_local_in};

use std::alloc::{AllocError, Global};

/// The locals of each live activation, the outermost first.
#[derive(Drop)]
pub struct Activations {
    frames: Vec<Vec<u64>>,
}

/// Values, and so many zeros after them.
pub fn with_zeros(values: Vec<u64>, count: usize) -> Result<Vec<u64>, AllocError>
    ensures { IfOk result (λ all. all.items ≡ values.items ++ replicate count 0) }
{
    let mut all = values;
    for _i in 0..count {
        all.push(0)?;
    }
    Ok(all)
}

impl Activations {
    ghost use Rattle.source_steps.specs.Activations.{frames_of};

    /// None.
    pub fn new(alloc: Global) -> Activations
        ensures { frames_of result ≡ [] }
    {
        Activations {
            frames: Vec::new(alloc),
        }
    }

    /// How many are live.
    pub fn len(&self) -> usize
        ensures { result ≡ length (frames_of self.now) }
    {
        self.frames.len()
    }

    /// The locals of one, or None where there is none.
    pub fn locals(&self, activation: usize) -> Option<&Vec<u64>>
        ensures { elim result [ Some locals ↦ locals.now.items | None ↦ [] ]
            ≡ frame_in (frames_of self.now) activation }
    {
        match self.frames.get(activation) {
            None => None,
            Some(locals) => Some(locals),
        }
    }

    /// A local's value; 0 where there is none.
    pub fn local(&self, activation: usize, local: u64) -> u64
        ensures { result ≡ slice_index (frame_in (frames_of self.now) activation) local }
    {
        match self.frames.get(activation) {
            None => 0,
            Some(locals) => match locals.get(local as usize) {
                None => 0,
                Some(value) => *value,
            },
        }
    }

    /// Sets a local; nothing where there is none.
    pub fn set_local(&mut self, activation: usize, local: u64, value: u64)
        ensures { frames_of self.new ≡ with_local_in (frames_of self.old) activation local value }
    {
        let local = local as usize;
        if activation >= self.frames.len() {
            return;
        }
        if local >= self.frames[activation].len() {
            return;
        }
        self.frames[activation][local] = value;
    }

    /// One more, with its locals.
    pub fn push(&mut self, locals: Vec<u64>) -> Result<(), AllocError>
        ensures { OnOk result (frames_of self.new ≡ frames_of self.old ++ locals.items ∷ []) }
    {
        self.frames.push(locals)?;
        Ok(())
    }

    /// Only the outermost so many.
    pub fn truncate(&mut self, count: usize)
        ensures { frames_of self.new ≡ take count (frames_of self.old) }
    {
        self.frames.truncate(count);
    }
}
