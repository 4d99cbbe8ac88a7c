//! Laws of the definitions: what clocks without a line and without a move are, which pin line counts, and that a feed's
//! words stay in order. Each is the contract of a function that does nothing.
ghost use Rattle.std.specs.Prelude.{◌≡◌, ℕ, ◌+◌, ◌<◌, ◌≤◌, List, ◌++◌, false};
ghost use Rattle.std.specs.List.{AllByRecursion};
ghost use Rattle.std.specs.Int.{bit_at};
ghost use Rattle.dreq_pacing.specs.declared.line.Line.{Line};
ghost use Rattle.dreq_pacing.specs.declared.due.Requests.{Requests};
ghost use Rattle.dreq_pacing.specs.Lines.{IsLine};
ghost use Rattle.dreq_pacing.specs.Due.{quiet, with_lines};
ghost use Rattle.dreq_pacing.specs.Transfers.{Transfers, Feeding};
ghost use Rattle.dreq_pacing.specs.Ports.{Ports, acts_in, asked, due_at, due_in, first_ports, transfers_after, transfers_at};
ghost use Rattle.dreq_pacing.specs.Runs.{FeedClock, LeavesTransfers, fed_by, is_set, last_level, level_bit, words_moved};

/// In a clock without a line and without a move the system does nothing, and the transfers stay as they are.
pub fn a_clock_without_acts_does_nothing()
    ensures due { (lines : List Line) (clock : ℕ) (requests : Requests) (t : Transfers)
        → acts_in lines clock requests t ≡ false → due_in lines clock requests t ≡ quiet }
    ensures transfers { (lines : List Line) (clock : ℕ) (requests : Requests) (t : Transfers)
        → acts_in lines clock requests t ≡ false → transfers_after lines clock requests t ≡ t }
{}

/// So clocks without a line and without a move may be left out.
pub fn quiet_clocks_may_be_left_out()
    ensures { (lines : List Line) (requests : ℕ → Requests) (from n : ℕ)
        → ((c : ℕ) → from ≤ c → c < from + n
        → acts_in lines c (requests c) (transfers_at lines requests from) ≡ false)
        → transfers_at lines requests (from + n) ≡ transfers_at lines requests from }
{}

/// Ports that are asked of each clock in which a line is or a transfer moves do what the history of requests says.
pub fn ports_follow_the_history()
    ensures first { (lines : List Line) (requests : ℕ → Requests)
        → LeavesTransfers requests (first_ports lines) }
    ensures due { (p : Ports) (requests : ℕ → Requests) (clock : ℕ) → LeavesTransfers requests p
        → p.next ≤ clock
        → ((c : ℕ) → p.next ≤ c → c < clock → acts_in p.lines c (requests c) p.transfers ≡ false)
        → due_in p.lines clock (requests clock) p.transfers ≡ due_at p.lines requests clock }
    ensures after { (p : Ports) (requests : ℕ → Requests) (clock : ℕ) → LeavesTransfers requests p
        → p.next ≤ clock
        → ((c : ℕ) → p.next ≤ c → c < clock → acts_in p.lines c (requests c) p.transfers ≡ false)
        → LeavesTransfers requests (asked clock (requests clock) p) }
{}

/// Of the lines of a pin in one clock the last counts; a pin without one isn't set, and has no level.
pub fn the_last_pin_line_counts()
    ensures set { (lines : List Line) (pin : ℕ) → AllByRecursion IsLine lines → pin < 32
        → bit_at (with_lines lines quiet).pins pin ≡ is_set (last_level pin lines) }
    ensures level { (lines : List Line) (pin : ℕ) → AllByRecursion IsLine lines → pin < 32
        → bit_at (with_lines lines quiet).values pin ≡ level_bit (last_level pin lines) }
{}

/// In any clocks, the words of a feed are those that it moves, in order, and those that are left.
pub fn a_feed_keeps_its_words_in_order()
    ensures { (clocks : List FeedClock) (feed : Feeding)
        → feed.words ≡ words_moved clocks feed ++ (fed_by clocks feed).words }
{}
