//! Looks of several lines.
ghost use Rattle.std.specs.Prelude.{◌≡◌, ◌≤◌, ◌+◌, ◌++◌, [], length};
ghost use Rattle.arrayvec.specs.ArrayVec.{array_vec_len};

use crate::step::Step;
use arrayvec::ArrayVec;

/// A look of up to `N` steps, put together line by line. It takes no memory.
#[derive(Drop)]
pub struct Look<const N: usize> {
    steps: ArrayVec<Step, N>,
}

impl<const N: usize> Look<N> {
    /// The look with no step, which is white.
    pub fn new() -> Look<N>
        ensures items { result.steps.items ≡ [] }
        ensures len { array_vec_len result.steps ≡ 0 }
    {
        Look {
            steps: ArrayVec::new(),
        }
    }

    /// The look with further steps.
    pub fn with(self, line: &[Step]) -> Look<N>
        requires { array_vec_len self.steps + length line.now ≤ N }
        ensures items { result.steps.items ≡ self.entry.steps.items ++ line.now }
        ensures len { array_vec_len result.steps ≡ array_vec_len self.entry.steps + length line.now }
    {
        let mut steps = self.steps;
        let added = steps.try_extend_from_slice(line).is_ok();
        prove!(added);
        Look { steps }
    }

    /// Its steps.
    pub fn steps(&self) -> &[Step]
        ensures { result.now ≡ self.now.steps.items }
    {
        self.steps.as_slice()
    }
}
