// A list of calls, given as numbers, five to a call, run from the record of a network just read.
ghost use Rattle.std.specs.Prelude.{◌≡◌, true, ◌+◌, ◌*◌, ◌≤◌, leb, length};
ghost use Rattle.std.proofs.Math.Seq.{paste};
ghost use Rattle.std.proofs.lemmas.List.Edits.{sets};
ghost use Rattle.network.specs.Record.{net_of, layout};
ghost use Rattle.network.specs.Places.{HoldsSound};
ghost use Rattle.pmn_format.specs.Format.{file_bytes};
ghost use Rattle.call_theory.specs.Steps.{just_opened};
ghost use Rattle.call_theory.specs.Calls.{answer};
ghost use Rattle.journal.specs.Records.{state_of};
ghost use Rattle.journal.specs.Parts.{code_given, figures_given, left_by};
ghost use Rattle.call_numbers.specs.Numbers.{well_formed, calls_in, four_of};
ghost use Rattle.call_numbers.specs.CallPlaces.{call_at};
ghost use Rattle.call_runs.specs.Runs.{answers_of, net_after};
ghost use Rattle.call_runs.specs.Running.{FromRead, Stepped};

use call_apply::unchecked::apply_in;
use call_numbers::unchecked::{call_at, put_four};
use call_theory::Figures;
use journal::unchecked::collapses_made;
use journal::{Record, just_read};
use network::Network;
use pmn_format::LONGEST_FILE;
use refusals::Refusal;

// Call i, on the record of a state that a read and calls lead to.
fn step_in(held: &mut Record, numbers: &[u64], i: usize) -> Result<Figures, Refusal>
    requires from_read { FromRead held.old }
    requires i_in_bounds { 5 * i + 5 ≤ length numbers.now }
    ensures { Stepped (state_of held.old) (answer (state_of held.old) (call_at numbers.now i)) (left_by result held.new) }
{
    apply_in(held, call_at(numbers, i))
}

// What a call gives, put into four places from one on: its code and its three numbers.
fn put_answer(answers: &mut [u64], at: usize, answer: Result<Figures, Refusal>)
    requires { at + 4 ≤ length answers.old }
    ensures { answers.new ≡ sets answers.old at (four_of (code_given answer) (figures_given answer)) }
{
    match answer {
        Ok(figures) => put_four(answers, at, 0, figures),
        Err(refusal) => put_four(answers, at, refusal.number(), collapses_made(0)),
    }
}

// The network after the whole list.
fn run(network: Network, numbers: &[u64]) -> Network
    requires holds_sound { HoldsSound network }
    requires numbers_value { well_formed numbers.now ≡ true }
    ensures { result ≡ layout (net_after (net_of network) (calls_in numbers.now)) }
{
    let mut held = just_read(network);
    for i in 0..numbers.len() / 5 {
        // A call that is refused leaves the record.
        let _ = step_in(&mut held, numbers, i);
    }
    held.network
}

// The length of a network's file. It has a frame of its own.
#[inline(never)]
fn file_length(network: Network) -> usize
    requires { HoldsSound network }
    ensures { result ≡ length (file_bytes (net_of network)) }
{
    let mut room = [0u8; LONGEST_FILE];
    let written = pmn_writer::write(network, &mut room);
    written.length
}

// Whether the file after the whole list is no longer than `room`. Where the longest file fits, the list need not run.
pub fn has_room(network: Network, numbers: &[u64], room: usize) -> bool
    requires holds_sound { HoldsSound network }
    requires numbers_value { well_formed numbers.now ≡ true }
    ensures { result ≡ leb (length (file_bytes (net_after (net_of network) (calls_in numbers.now)))) room }
{
    if room >= LONGEST_FILE {
        return true;
    }
    let after = run(network, numbers);
    file_length(after) <= room
}

// The network after the whole list, with each call's code and three numbers in the places from 1 on.
pub fn run_storing(network: Network, numbers: &[u64], answers: &mut [u64]) -> Network
    requires holds_sound { HoldsSound network }
    requires numbers_value { well_formed numbers.now ≡ true }
    requires numbers_in_bounds { 1 + 4 * length (calls_in numbers.now) ≤ length answers.old }
    ensures value { result ≡ layout (net_after (net_of network) (calls_in numbers.now)) }
    ensures answers_after { answers.new ≡ paste answers.old 1
        (answers_of (just_opened (net_of network)) (calls_in numbers.now))
        (4 * length (calls_in numbers.now)) }
{
    let mut held = just_read(network);
    for i in 0..numbers.len() / 5 {
        let answer = step_in(&mut held, numbers, i);
        put_answer(answers, 1 + 4 * i, answer);
    }
    held.network
}
