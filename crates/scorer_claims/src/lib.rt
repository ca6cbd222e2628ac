// What is claimed of games, on every network and after every list of calls. Document 02, No. 11.
#![tactic(auto)]

ghost use Rattle.std.specs.Prelude.{◌≡◌, List, map, ℕ};
ghost use Rattle.basics.specs.Refusals.{accepted};
ghost use Rattle.network.specs.Threshold.{Net};
ghost use Rattle.call_theory.specs.declared.Call.{Call};
ghost use Rattle.journal.specs.Records.{just_read};
ghost use Rattle.pmn_format.specs.Format.{Bytes};
ghost use Rattle.pmn_reader.specs.Answers.{loaded};
ghost use Rattle.guarantees.specs.Files.{Accepted};
ghost use Rattle.scorer_theory.specs.NetworkGames.{game};
ghost use Rattle.scorer_theory.specs.Frames.{MadeOfFrames};
ghost use Rattle.scorer_theory.specs.Games.{came_to, games};
ghost use Rattle.scorer_theory.specs.Highest.{Highest};
ghost use Rattle.scorer_claims.specs.Folding.{SameScores};

// Scores before and after folding are equal for every game: from the record of any file that a read accepts, after every list of merges,
// drops, collapses, sweeps, previews and undos with any numbers.
pub fn scores_kept()
    ensures { (file : List ℕ) → Bytes file → Accepted file → (calls : List Call) → SameScores (just_read (loaded file).network) calls }
{}

// The known games: what the rules make of them is what the table says.
pub fn known_games()
    ensures { map (λ known. came_to known.left) games ≡ map (λ known. known.comes) games }
{}

// Every game that is not refused, on any network, is made of frames, by a grammar of the felled pins; only finished frames have a score,
// and all ten have theirs at the game's end.
pub fn games_are_frames()
    ensures { (net : Net) (frames felled : List ℕ) → game net frames ≡ accepted felled → MadeOfFrames net frames felled }
{}

// On any network no running score is above 300, and twelve strikes come to 300.
pub fn highest_is_300()
    ensures { (net : Net) → Highest net }
{}
