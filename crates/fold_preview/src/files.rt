// The preview on a whole file.
ghost use Rattle.std.specs.Prelude.{◌≡◌};
ghost use Rattle.basics.specs.Refusals.{code_of, stored};
ghost use Rattle.fold_preview.specs.Files.{preview_places};

use crate::unchecked::preview_at;
use pmn_opening::unchecked::places::put_three;
use pmn_opening::unchecked::refusal;

// Gates, cost and levels of the network that a collapse of the gate with a signal would leave go into the first three places of the answer.
// Refusals: as read, 18 for fewer than three places, then the collapse's.
pub fn preview_of_file(file: &[u8], signal: u64, answer: &mut [u64]) -> u8
    ensures value { result ≡ code_of (preview_places file.now signal answer.old) }
    ensures answer_after { answer.new ≡ stored (preview_places file.now signal answer.old) answer.old }
{
    let loaded = pmn_reader::read(file);
    let code = refusal(file, loaded, answer.len(), 3);
    if code != 0 {
        return code;
    }
    let size = preview_at(&loaded.network, signal as usize);
    put_three(
        answer,
        size.code,
        size.gates as u64,
        size.cost,
        size.levels as u64,
    )
}
