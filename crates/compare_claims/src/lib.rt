// What is claimed of comparing two networks, each theorem as the promise of an empty public function. The promises cite the definitions in specs/.
#![tactic(auto)]

ghost use Rattle.std.specs.Prelude.{List, ℕ};
ghost use Rattle.pmn_format.specs.Format.{Bytes};
ghost use Rattle.journal_calls.specs.Answers.{CompareOn};
ghost use Rattle.compare_networks.specs.declared.Compared.{Compared};
ghost use Rattle.compare_claims.specs.Claims.{CompareClaim};
ghost use Rattle.compare_claims.specs.Files.{FilesCompared};
ghost use Rattle.compare_claims.specs.Example.{ExampleVerdicts};

use journal::Record;

// Every answer to a comparison of two records with any budget: 20, then 19, exactly if they apply; or a verdict. If it is alike, every frame that 10
// does not refuse has the same output bits, the question has no 0/1 solution, as lines and as written, and the count of document 02, No. 13 is 0. If it
// is apart, 10 does not refuse the frame, the output bits on it differ, and the question has a solution. Undecided is never given for at most 20
// inputs, so that there the verdict is exactly what the question asks. The steps are at most the budget.
pub fn verdicts_are_true(first: Record, second: Record, budget: u64)
    ensures { (r : Compared) → CompareOn first second budget r → CompareClaim first second budget r }
{}

// Whatever `pmn_compare` leaves of any two files, for any budget and any lent places: the number of the first read that refuses, 18 for fewer than 3
// places, or 19, and every place as it was; or 0, and in the first three places what a comparison of the two records that were read answers.
pub fn files_are_compared()
    ensures { (first second : List ℕ) → Bytes first → Bytes second → FilesCompared first second }
{}

// Examples by computing alone: of three networks with one input, two are alike, and two are apart on one frame. Whatever the budget, no other verdict
// and no other frame can be given.
pub fn verdicts_of_networks()
    ensures { ExampleVerdicts }
{}
