//! One clock of one FIFO, at either end of a state machine. All levels are those at the clock's start.
ghost use Rattle.std.specs.Prelude.{◌≡◌, ◌<◌, ◌==◌, false, None, not, ◌&&◌, length, slice_get, nat_lt, IsTrue, IsSome, if◌then◌else◌};
ghost use Rattle.fifo_pair.specs.Fifos.{queued, less_front, if_room, is_dropped};

use crate::fifo::Fifo;

/// The machine takes the oldest word or doesn't, and the system writes the word, if any. True where the word is
/// dropped, since TX was full.
pub fn settle_tx<F: Fifo>(tx: &mut F, take: bool, system_word: Option<u32>) -> bool
    requires { IsTrue take → 0 < length (F.items tx.old) }
    ensures items { F.items tx.new ≡ queued (if_room (F.room tx.old) (F.items tx.old) system_word)
        (less_front take (F.items tx.old)) }
    ensures room { F.room tx.new ≡ F.room tx.old }
    ensures over { result ≡ is_dropped (F.room tx.old) (F.items tx.old) system_word }
{
    let has_room = tx.level() < tx.capacity();
    if take {
        tx.pop();
    }
    match system_word {
        Some(word) if has_room => {
            tx.push(word);
            false
        }
        Some(_) => true,
        None => false,
    }
}

/// The system reads or doesn't, and the machine gives the word, if any. The result is the word that the system gets.
pub fn settle_rx<F: Fifo>(rx: &mut F, machine_word: Option<u32>, system_read: bool) -> Option<u32>
    requires { IsSome machine_word → length (F.items rx.old) < F.room rx.old }
    ensures items { F.items rx.new ≡ queued machine_word (less_front system_read (F.items rx.old)) }
    ensures room { F.room rx.new ≡ F.room rx.old }
    ensures got { result ≡ (if system_read then slice_get (F.items rx.old) 0 else None) }
{
    let got = if system_read { rx.pop() } else { None };
    if let Some(word) = machine_word {
        rx.push(word);
    }
    got
}
