//! How one state machine is set up: what its registers say that a program doesn't change.
ghost use Rattle.std.specs.Prelude.{◌≡◌, ◌<◌, ◌≤◌, ◌==◌, ◌||◌, ◌&&◌, not, IsTrue};

use crate::mapping::Mapping;
use pio_encode::SideRule;

/// A machine's setup at the start of a run (RP2040 Datasheet, section 3.7, SMx_CLKDIV, EXECCTRL, SHIFTCTRL, PINCTRL).
#[derive(Clone, Copy)]
pub struct MachineSetup {
    /// Its number: 0 to 3.
    pub id: u8,
    /// The address of its first instruction: 0 to 31.
    pub start: u8,
    /// X at the start.
    pub x: u32,
    /// Y at the start.
    pub y: u32,
    /// The ISR at the start.
    pub isr: u32,
    /// The OSR at the start.
    pub osr: u32,
    /// How many bits count as shifted into the ISR at the start: 0 to 32.
    pub isr_count: u8,
    /// How many bits count as shifted out of the OSR at the start: 0 to 32, with 32 for an empty one.
    pub osr_count: u8,
    /// The word that it executes first, as after a write of SMx_INSTR before it is enabled.
    pub pending: Option<u16>,
    /// The divider's whole part; 0 means 65,536.
    pub int: u16,
    /// The divider's fraction in 1/256; 0 where the whole part is 0.
    pub frac: u8,
    /// How its words share bits between side-set and delay.
    pub side_rule: SideRule,
    /// The address that follows `wrap_top`: 0 to 31.
    pub wrap_bottom: u8,
    /// The address after which the program wraps: 0 to 31.
    pub wrap_top: u8,
    /// The pin that `in pins` and `wait pin` count from: 0 to 31.
    pub in_base: u8,
    /// The pin of `jmp pin`: 0 to 31.
    pub jmp_pin: u8,
    /// The pins of OUT and of MOV to PINS.
    pub out: Mapping,
    /// The pins of SET: up to 5.
    pub set: Mapping,
    /// The pins of side-set. Its count decides how many are written, whatever the rule's bits.
    pub side: Mapping,
    /// Whether IN shifts right.
    pub in_right: bool,
    /// Whether OUT shifts right.
    pub out_right: bool,
    /// Whether IN pushes at the threshold.
    pub autopush: bool,
    /// Whether the OSR is refilled at the threshold.
    pub autopull: bool,
    /// In bits: 1 to 32.
    pub push_threshold: u8,
    /// In bits: 1 to 32.
    pub pull_threshold: u8,
    /// TX has the words of RX too, which is disabled.
    pub join_tx: bool,
    /// RX has the words of TX too, which is disabled.
    pub join_rx: bool,
    /// Whether STATUS looks at RX in place of TX.
    pub status_rx: bool,
    /// STATUS is all ones where the level is below this: 0 to 15.
    pub status_n: u8,
    pub ghost id_in_block: { id < 4 },
    pub ghost start_in_memory: { start < 32 },
    pub ghost isr_has_bits: { isr_count ≤ 32 },
    pub ghost osr_has_bits: { osr_count ≤ 32 },
    pub ghost divides: { IsTrue (not (int == 0) || frac == 0) },
    pub ghost wrap_bottom_in_memory: { wrap_bottom < 32 },
    pub ghost wrap_top_in_memory: { wrap_top < 32 },
    pub ghost in_base_is_a_pin: { in_base < 32 },
    pub ghost jmp_pin_is_a_pin: { jmp_pin < 32 },
    pub ghost sets_five_at_most: { set.count ≤ 5 },
    pub ghost pushes_some: { 1 ≤ push_threshold },
    pub ghost pushes_a_word: { push_threshold ≤ 32 },
    pub ghost pulls_some: { 1 ≤ pull_threshold },
    pub ghost pulls_a_word: { pull_threshold ≤ 32 },
    pub ghost joins_one_way: { IsTrue (not (join_tx && join_rx)) },
    pub ghost status_in_field: { status_n < 16 },
}

impl MachineSetup {
    ghost use Rattle.pin_matrix.specs.Setups.{IsDefault};

    /// A machine of this number and side-set rule with all else at its default: every clock a tick, the program from address
    /// 0 on and wrapped at 31 to 0, no word pending, an empty OSR, SET to pins 0 to 4, side-set to as many pins from 0 on as
    /// the rule has bits, shifts to the right and whole words.
    pub fn of(id: u8, side_rule: SideRule) -> MachineSetup
        requires { id < 4 }
        ensures { IsDefault id side_rule result }
    {
        MachineSetup {
            id,
            start: 0,
            x: 0,
            y: 0,
            isr: 0,
            osr: 0,
            isr_count: 0,
            osr_count: 32,
            pending: None,
            int: 1,
            frac: 0,
            side_rule,
            wrap_bottom: 0,
            wrap_top: 31,
            in_base: 0,
            jmp_pin: 0,
            out: Mapping { base: 0, count: 0 },
            set: Mapping { base: 0, count: 5 },
            side: Mapping {
                base: 0,
                count: side_rule.bits,
            },
            in_right: true,
            out_right: true,
            autopush: false,
            autopull: false,
            push_threshold: 32,
            pull_threshold: 32,
            join_tx: false,
            join_rx: false,
            status_rx: false,
            status_n: 0,
        }
    }
}
