//! Laws of the two FIFOs, each on a function that does nothing.
ghost use Rattle.std.specs.Prelude.{◌≡◌, ℕ, Bool, false, not, ◌&&◌, Option, None, List, [], ◌++◌, slice_get, is_some, option_to_list, if◌then◌else◌};
ghost use Rattle.fifo_pair.specs.Fifos.{Fifos, Fits, settled, is_over, is_under, got_word};
ghost use Rattle.fifo_pair.specs.Runs.{Events, MayHappen, after_clock, after_clocks, into_tx, out_of_tx, into_rx, out_of_rx};

/// In a clock, the words of TX with the one that comes in are those that go out and those still there, in order. A
/// word comes in unless it is an overrun.
pub fn tx_loses_only_overruns()
    ensures { (e : Events) (f : Fifos)
        → f.tx ++ (if is_over e.system_word f then [] else option_to_list e.system_word)
        ≡ (if e.take then option_to_list (slice_get f.tx 0) else []) ++ (after_clock e f).tx }
{}

/// In a clock, the words of RX with the one that comes in are those that go out and those still there, in order.
pub fn rx_loses_nothing()
    ensures { (e : Events) (f : Fifos) → f.rx ++ option_to_list e.machine_word
        ≡ option_to_list (got_word e.system_read f) ++ (after_clock e f).rx }
{}

/// The same of any number of clocks: nothing is lost but the overruns, nothing is made, and all stays in order.
pub fn each_word_goes_through_once()
    ensures tx { (es : List Events) (f : Fifos)
        → f.tx ++ into_tx es f ≡ out_of_tx es f ++ (after_clocks es f).tx }
    ensures rx { (es : List Events) (f : Fifos)
        → f.rx ++ into_rx es ≡ out_of_rx es f ++ (after_clocks es f).rx }
{}

/// Neither FIFO gets longer than its room.
pub fn levels_stay_within_rooms()
    ensures { (e : Events) (f : Fifos) → MayHappen e f → Fits f → Fits (after_clock e f) }
{}

/// A read gets a word exactly where it is no underrun.
pub fn a_read_gets_a_word_or_underruns()
    ensures { (read : Bool) (f : Fifos)
        → is_some (got_word read f) ≡ (read && not (is_under read f)) }
{}

/// A clock in which nothing happens changes nothing.
#[tactic(auto, unfolding(crate::specs::Fifos::settled))]
pub fn a_quiet_clock_changes_nothing()
    ensures { (f : Fifos) → settled false None None false f ≡ f }
{}
