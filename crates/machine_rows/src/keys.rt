//! What a row says of a machine.
ghost use Rattle.std.specs.Prelude.{◌≤◌};

use crate::lines::{number, truth, up_to};
use pin_matrix::{MachineSetup, Mapping};
use pio_encode::SideRule;

/// The keys of a machine, by their names in a configuration. A mapping is its base and its count.
#[derive(Clone, Copy)]
pub struct Keys {
    pub id: u8,
    start: u8,
    x: u32,
    y: u32,
    isr: u32,
    osr: u32,
    isr_count: u8,
    osr_count: u8,
    pending: Option<u16>,
    divider: u16,
    fraction: u8,
    side_bits: u8,
    side_opt: bool,
    pindirs: bool,
    wrap_bottom: u8,
    wrap_top: Option<u8>,
    in_base: u8,
    jmp_pin: u8,
    out: (u8, u8),
    set: (u8, u8),
    side: (u8, u8),
    in_right: bool,
    out_right: bool,
    autopush: bool,
    autopull: bool,
    push_threshold: u8,
    pull_threshold: u8,
    join_tx: bool,
    join_rx: bool,
    status_rx: bool,
    status_n: u8,
}

impl Keys {
    /// The keys of a machine where no line says another thing: SET on pins 0 to 4, words of 32 bits to the right,
    /// nothing automatic, a tick in each clock, an empty OSR, no word pending.
    pub fn new(id: u8) -> Keys {
        Keys {
            id,
            start: 0,
            x: 0,
            y: 0,
            isr: 0,
            osr: 0,
            isr_count: 0,
            osr_count: 32,
            pending: None,
            divider: 1,
            fraction: 0,
            side_bits: 0,
            side_opt: false,
            pindirs: false,
            wrap_bottom: 0,
            wrap_top: None,
            in_base: 0,
            jmp_pin: 0,
            out: (0, 0),
            set: (0, 5),
            side: (0, 0),
            in_right: true,
            out_right: true,
            autopush: false,
            autopull: false,
            push_threshold: 32,
            pull_threshold: 32,
            join_tx: false,
            join_rx: false,
            status_rx: false,
            status_n: 0,
        }
    }

    /// The keys of a line: a number, or a number and keys, as `0: x 5, autopull true`.
    pub fn of(line: &str) -> Option<Keys> {
        let Some((id, list)) = line.split_once(": ") else {
            return Some(Keys::new(up_to(3, line)?));
        };
        let mut keys = Keys::new(up_to(3, id)?);
        for each in list.split(", ") {
            let (name, value) = each.split_once(' ')?;
            keys.set(name, value)?;
        }
        keys.are_together()?;
        Some(keys)
    }

    /// A divider of 65,536 has no fraction, and FIFOs are joined one way.
    fn are_together(&self) -> Option<()> {
        if self.divider == 0 && self.fraction > 0 || self.join_tx && self.join_rx {
            return None;
        }
        Some(())
    }

    fn set(&mut self, name: &str, value: &str) -> Option<()> {
        if name == "side_set" {
            return self.set_side(value);
        }
        match truth(value) {
            Some(is_on) => self.switch(name, is_on),
            None => self.set_number(name, value),
        }
    }

    /// Side-set as in pioasm: its bits, then `opt` and `pindirs` where they are.
    fn set_side(&mut self, value: &str) -> Option<()> {
        let mut words = value.split(' ');
        let bits = up_to(4, words.next()?)?;
        self.side_bits = bits;
        self.side.1 = bits;
        for word in words {
            match word {
                "opt" => self.side_opt = true,
                "pindirs" => self.pindirs = true,
                _ => return None,
            }
        }
        Some(())
    }

    fn switch(&mut self, name: &str, is_on: bool) -> Option<()> {
        match name {
            "in_right" => self.in_right = is_on,
            "out_right" => self.out_right = is_on,
            "autopush" => self.autopush = is_on,
            "autopull" => self.autopull = is_on,
            "join_tx" => self.join_tx = is_on,
            "join_rx" => self.join_rx = is_on,
            "status_rx" => self.status_rx = is_on,
            _ => return None,
        }
        Some(())
    }

    fn set_number(&mut self, name: &str, value: &str) -> Option<()> {
        match name {
            "x" => self.x = number(value)?,
            "y" => self.y = number(value)?,
            "divider" => self.divider = value.parse().ok()?,
            "fraction" => self.fraction = value.parse().ok()?,
            "start" => self.start = up_to(31, value)?,
            "wrap_bottom" => self.wrap_bottom = up_to(31, value)?,
            "wrap_top" => self.wrap_top = Some(up_to(31, value)?),
            "push_threshold" => self.push_threshold = up_to(32, value)?,
            "pull_threshold" => self.pull_threshold = up_to(32, value)?,
            "status_n" => self.status_n = up_to(15, value)?,
            "isr" | "osr" | "isr_count" | "osr_count" | "pending" => {
                return self.set_first(name, value);
            }
            _ => return self.set_pins(name, value),
        }
        Some(())
    }

    fn set_first(&mut self, name: &str, value: &str) -> Option<()> {
        match name {
            "isr" => self.isr = number(value)?,
            "osr" => self.osr = number(value)?,
            "isr_count" => self.isr_count = up_to(32, value)?,
            "osr_count" => self.osr_count = up_to(32, value)?,
            "pending" => self.pending = Some(u16::try_from(number(value)?).ok()?),
            _ => return None,
        }
        Some(())
    }

    fn set_pins(&mut self, name: &str, value: &str) -> Option<()> {
        match name {
            "in_base" => self.in_base = up_to(31, value)?,
            "jmp_pin" => self.jmp_pin = up_to(31, value)?,
            "out_base" => self.out.0 = up_to(31, value)?,
            "out_count" => self.out.1 = up_to(32, value)?,
            "set_base" => self.set.0 = up_to(31, value)?,
            "set_count" => self.set.1 = up_to(5, value)?,
            "side_base" => self.side.0 = up_to(31, value)?,
            "side_count" => self.side.1 = up_to(32, value)?,
            _ => return None,
        }
        Some(())
    }

    /// How the machine's words share bits between side-set and delay.
    pub fn rule(&self) -> SideRule {
        SideRule {
            bits: self.side_bits.min(4),
            opt: self.side_opt,
            pindirs: self.pindirs,
        }
    }

    /// The machine's setup. Without a key for it the program wraps after this address.
    pub fn setup(&self, last: u8) -> MachineSetup {
        MachineSetup {
            id: self.id.min(3),
            start: self.start.min(31),
            x: self.x,
            y: self.y,
            isr: self.isr,
            osr: self.osr,
            isr_count: self.isr_count.min(32),
            osr_count: self.osr_count.min(32),
            pending: self.pending,
            int: self.divider,
            frac: if self.divider == 0 { 0 } else { self.fraction },
            side_rule: self.rule(),
            wrap_bottom: self.wrap_bottom.min(31),
            wrap_top: self.wrap_top.unwrap_or(last).min(31),
            in_base: self.in_base.min(31),
            jmp_pin: self.jmp_pin.min(31),
            out: mapping_of(self.out),
            set: set_mapping_of(self.set),
            side: mapping_of(self.side),
            in_right: self.in_right,
            out_right: self.out_right,
            autopush: self.autopush,
            autopull: self.autopull,
            push_threshold: self.push_threshold.min(32).max(1),
            pull_threshold: self.pull_threshold.min(32).max(1),
            join_tx: self.join_tx,
            join_rx: self.join_rx && !self.join_tx,
            status_rx: self.status_rx,
            status_n: self.status_n.min(15),
        }
    }
}

fn mapping_of((base, count): (u8, u8)) -> Mapping {
    Mapping {
        base: base.min(31),
        count: count.min(32),
    }
}

fn set_mapping_of(pins: (u8, u8)) -> Mapping
    ensures { result.count ≤ 5 }
{
    let (base, count) = pins;
    Mapping {
        base: base.min(31),
        count: count.min(5),
    }
}
