// The three numbers of a call of a list that shows no size.
ghost use Rattle.std.specs.Prelude.{◌≡◌};
ghost use Rattle.journal.specs.Parts.{counted};

use call_theory::Figures;

// The number of collapses of a sweep, and 0 and 0.
pub fn collapses_made(collapses: usize) -> Figures
    ensures { result ≡ counted collapses }
{
    Figures {
        first: collapses as u64,
        second: 0,
        third: 0,
    }
}
