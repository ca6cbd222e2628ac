// Worked examples: what the definitions say of literal files, networks, alleys and games is what the papers say. Each claim is one table, or a few
// of one subject, and is computed.
#![tactic(auto)]

ghost use Rattle.worked_examples.specs.Files.{FilesRead};
ghost use Rattle.worked_examples.specs.Alleys.{AlleysListed};
ghost use Rattle.worked_examples.specs.Games.{GamesPlayed};
ghost use Rattle.worked_examples.specs.Networks.{SizesAsSaid, CutAsSaid, EntriesAsSaid};
ghost use Rattle.worked_examples.specs.Folds.{Folded};
ghost use Rattle.worked_examples.specs.Runs.{CallsRead, RunAsSaid};

// Files, byte by byte: the network that each stands for, or the number of its first fault.
pub fn files_by_their_bytes()
    ensures { FilesRead }
{}

// Alley files, byte by byte, and their sheets: none, one lane, one of more than 255 bytes, cut ones and refused ones.
pub fn alleys_by_their_bytes()
    ensures { AlleysListed }
{}

// Games on a network whose output j is input j, and on one with nine outputs: what each comes to, or 27, 10, 28, 29.
pub fn games_on_networks()
    ensures { GamesPlayed }
{}

// The gates, cost and levels of networks.
pub fn sizes_of_networks()
    ensures { SizesAsSaid }
{}

// The cuts of a network, gate by gate, with 8 and 20.
pub fn cuts_of_networks()
    ensures { CutAsSaid }
{}

// Entries of the three-feed table by name: never, always, each feed alone, and, or, majority, none, and one that has no gate.
pub fn entries_by_name()
    ensures { EntriesAsSaid }
{}

// Collapses, each reader merged with its own pair; sweeps, one of which comes out otherwise if the highest gate is taken first; pairs and merges on
// boards whose two margins differ.
pub fn folds_of_networks()
    ensures { Folded }
{}

// Lists of calls by their numbers, five to a call, and lists that are not well formed.
pub fn lists_by_their_numbers()
    ensures { CallsRead }
{}

// Runs of a list of calls on file F, from bytes to bytes: the file put out, its length, and four numbers for each call; 14 and 18.
pub fn runs_by_their_bytes()
    ensures { RunAsSaid }
{}
