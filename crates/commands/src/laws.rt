//! Laws of what commands write and of the clocks that they work out, on functions that do nothing.
ghost use Rattle.std.specs.Prelude.{◌≡◌, ◌+◌, ◌*◌, ◌^◌, ◌<◌, ◌≤◌, ℕ, List, Ok, Option, length};
ghost use Rattle.pio_edge.specs.Edge.{Files};
ghost use Rattle.pin_matrix.specs.Followed.{followed};
ghost use Rattle.pin_matrix.specs.declared.setup.Setup.{Setup};
ghost use Rattle.pin_matrix.specs.declared.span.Span.{Span};
ghost use Rattle.block_core.specs.Block.{first_run};
ghost use Rattle.span_bounds.specs.declared.row.Row.{Row};
ghost use Rattle.span_bounds.specs.Answers.{IsGoodLeast};
ghost use Rattle.span_bounds.specs.Tables.{IsClosed, IsGood};
ghost use Rattle.span_texts.specs.Reading.{table_of};
ghost use Rattle.span_texts.specs.Rows.{table_text};
ghost use Rattle.serial_receiver.specs.FrameText.{frames_text};
ghost use Rattle.pio_uart.specs.Feeding.{fed};
ghost use Rattle.pio_uart.specs.Transmitter.{IsTransmitter};
ghost use Rattle.commands.specs.Tasks.{received_text, sent_text};
ghost use Rattle.commands.specs.Whole.{all_frames};
ghost use Rattle.commands.specs.Worked.{most_worked};
ghost use Rattle.command_line.specs.Words.{Asked, clocks_asked};

use idle_engine::few_clocks_are_worked_out;
use pio_uart::a_transmitter_sends_in_time;
use span_texts::{a_least_table_is_told, a_table_is_read_back};

/// What `table` writes of a span is a table file whose table is closed and good, as `recheck` asks of it.
pub fn a_written_table_is_a_proof()
    ensures { (u : Setup) (sp : Span) (rows : List Row)
        → (followed sp).x < 2 ^ 16 → (followed sp).y < 2 ^ 16 → IsGoodLeast u sp rows
        → (table_of (followed sp) (table_text rows) ≡ Ok rows) × (IsClosed u sp rows × IsGood u sp rows) }
{
    a_least_table_is_told();
    a_table_is_read_back();
}

/// The text that is written of some bytes is that of the frames that a serial receiver hears on pin 0 of every
/// transmitter with this divider that is fed them.
#[tactic(auto, unfolding(crate::specs::Tasks::received_text, crate::specs::Tasks::sent_text))]
pub fn a_transmitter_sends_this_text()
    ensures { (divider clocks : ℕ) (u : Setup) (bytes : List ℕ) → 1 ≤ divider → IsTransmitter divider u
        → received_text (first_run u) 0 (8 * divider) (fed bytes) clocks ≡ sent_text divider bytes clocks }
{
    a_transmitter_sends_in_time();
}

/// Where the clocks are enough for the stop bit of the last byte, the text has a line for each byte, in order.
pub fn clocks_enough_send_all()
    ensures { (divider clocks : ℕ) (bytes : List ℕ) → divider * (80 * length bytes + 5) < clocks
        → sent_text divider bytes clocks ≡ frames_text (all_frames divider 0 bytes) }
{}

/// A command works out no more clocks than it is asked for, whether its files are known or not.
pub fn no_more_clocks_are_worked_out_than_asked()
    ensures { (files : Option Files) (a : Asked) → most_worked files a ≤ clocks_asked a }
{
    few_clocks_are_worked_out();
}
