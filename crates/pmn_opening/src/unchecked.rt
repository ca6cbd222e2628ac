// What follows the read of a file, with which the functions begin: its refusal, then too few places.
pub mod places;

ghost use Rattle.std.specs.Prelude.{◌≡◌, ℕ, ◌<◌, get_or};
ghost use Rattle.pmn_reader.specs.Answers.{loaded};
ghost use Rattle.pmn_opening.specs.Opening.{Opening};

use pmn_reader::Loaded;

// The refusal of a function that needs so many of the places lent, by what was read of its file: as read, then 18; 0 for none. Only the
// contract speaks of the file. The answer is the number alone: a network handed on would be copied.
pub fn refusal(file: &[u8], read: Loaded, places: usize, needed: usize) -> u8
    requires by_index { (i : ℕ) → get_or file.now i 0 < 256 }
    requires read_value { read ≡ loaded file.now }
    ensures { Opening file.now places needed result read.network }
{
    let code = read.code;
    if code != 0 {
        return code;
    }
    if places < needed {
        return 18;
    }
    0
}

// The same with the read, for a function that has no use for the network.
pub fn read_refusal(file: &[u8], places: usize, needed: usize) -> u8
    ensures { Opening file.now places needed result (loaded file.now).network }
{
    let read = pmn_reader::read(file);
    refusal(file, read, places, needed)
}
