// How many ways there are to tell two networks apart (document 02, No. 13), each theorem as the promise of an empty public function. The
// promises cite the definitions in specs/.
#![tactic(auto)]

ghost use Rattle.std.specs.Prelude.{List, ℕ};
ghost use Rattle.pmn_format.specs.Format.{Bytes};
ghost use Rattle.pmn_reader.specs.Answers.{loaded};
ghost use Rattle.call_theory.specs.declared.Call.{Call};
ghost use Rattle.journal.specs.Records.{just_read};
ghost use Rattle.guarantees.specs.Files.{Accepted};
ghost use Rattle.question_count.specs.Claims.{SolutionsCounted, MomentClaim};
ghost use Rattle.question_count.specs.Example.{ThreeWays};

use network::Network;

// For any two sound records with equal input and output counts, the number of 0/1 solutions of the question is the sum over all frames of
// 2 to the power t, less 1, where t is the number of outputs that differ on the frame; and every 0/1 setting of the variables is counted
// once, by the lines of the question and by what is written.
pub fn solutions_are_counted(first: Network, second: Network)
    ensures { SolutionsCounted first second }
{}

// From the record of any file that a read accepts, between the moments after the first k and after the first l calls of any list: the two
// have equal counts, the same holds of them, and the sum and the number of solutions are 0.
pub fn no_way_between_moments()
    ensures { (file : List ℕ) → Bytes file → Accepted file
        → (calls : List Call) (k l : ℕ) → MomentClaim (just_read (loaded file).network) calls k l }
{}

// An example by computing alone: two networks with one input and two outputs that name one gate, which both differ on one frame and agree on
// the other. The sum is 3, and 3 of the 32 settings are solutions.
pub fn three_ways()
    ensures { ThreeWays }
{}
