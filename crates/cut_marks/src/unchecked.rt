// No marks, a gate's mark looked up, and set.
ghost use Rattle.std.specs.Prelude.{◌≡◌, true, false, ◌<◌, get_or, set, replicate};
ghost use Rattle.cut_marks.specs.Marks.{marks_of};

use crate::Marks;

impl Marks {
    // No gate marked.
    #[tactic(auto, using(crate::specs::WordLaws::blank_marks))]
    pub fn none() -> Marks
        ensures { marks_of result ≡ replicate 128 false }
    {
        Marks { bits: 0 }
    }

    // Whether gate g is marked.
    #[tactic(auto, using(crate::specs::WordLaws::mark_at))]
    pub fn has(self, g: usize) -> bool
        requires { g < 128 }
        ensures { result ≡ get_or (marks_of self) g false }
    {
        (self.bits >> g) % 2 == 1
    }

    // The marks with that of gate g.
    #[tactic(auto, using(crate::specs::WordLaws::more_marks))]
    pub fn with(self, g: usize) -> Marks
        requires { g < 128 }
        ensures { marks_of result ≡ set (marks_of self) g true }
    {
        Marks {
            bits: self.bits | (1 << g),
        }
    }
}
