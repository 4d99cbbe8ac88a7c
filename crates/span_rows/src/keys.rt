//! What a row says of a machine and of its span, by the names that a configuration has for it.
use pin_matrix::{PinSignal, SpanUnit};
use pio_encode::SideRule;
use row_tables::side_rule_of;

/// An event of a span: an edge of a pin, or the end of an instruction where there is no signal.
#[derive(Clone, Copy)]
pub struct Event<'a> {
    pub signal: Option<PinSignal>,
    pub rise: bool,
    /// The addresses of `from_at` or `to_at`, or those of `from_done` or `to_done`.
    pub at: &'a str,
}

impl<'a> Event<'a> {
    /// An edge of a level that any instruction makes.
    fn of_level(rise: bool) -> Event<'a> {
        Event {
            signal: Some(PinSignal::Level),
            rise,
            at: "",
        }
    }

    /// Takes an edge.
    fn take_edge(&mut self, value: &str) -> Option<()> {
        let (signal, rise) = edge_of(value)?;
        self.signal = Some(signal);
        self.rise = rise;
        Some(())
    }

    /// Takes the instructions whose end it is.
    fn take_done(&mut self, value: &'a str) {
        self.signal = None;
        self.rise = false;
        self.at = value;
    }
}

/// The keys of a row's machine and span. Those that it doesn't name are as they are here.
#[derive(Clone, Copy)]
pub struct Keys<'a> {
    pub side_rule: SideRule,
    pub start: u8,
    pub wrap_top: u8,
    pub x: u32,
    pub y: u32,
    pub pending: Option<u16>,
    pub divider: u16,
    pub fraction: u8,
    pub autopush: bool,
    pub autopull: bool,
    pub out_base: u8,
    pub out_count: u8,
    pub set_base: u8,
    pub set_count: u8,
    pub side_base: u8,
    pub side_count: u8,
    pub from: Event<'a>,
    pub to_pin: u8,
    pub to: Event<'a>,
    pub unit: SpanUnit,
    pub min: u32,
    pub max: Option<u32>,
    pub stalls: &'a str,
    pub prompt: bool,
    pub without: &'a str,
    /// Assumptions with a semicolon and a blank between: `1 x 3..5 y 0..9; 4 x 0..0`.
    pub assume: &'a str,
}

/// No side-set.
const NO_SIDE_SET: SideRule = SideRule {
    bits: 0,
    opt: false,
    pindirs: false,
};

impl<'a> Keys<'a> {
    /// Each clock a tick, SET on pins 0 to 4, no other mapping; a span in ticks from a rise of pin 0 to its fall.
    pub fn new() -> Keys<'a> {
        Keys {
            side_rule: NO_SIDE_SET,
            start: 0,
            wrap_top: 31,
            x: 0,
            y: 0,
            pending: None,
            divider: 1,
            fraction: 0,
            autopush: false,
            autopull: false,
            out_base: 0,
            out_count: 0,
            set_base: 0,
            set_count: 5,
            side_base: 0,
            side_count: 0,
            from: Event::of_level(true),
            to_pin: 0,
            to: Event::of_level(false),
            unit: SpanUnit::Ticks,
            min: 0,
            max: Some(0),
            stalls: "",
            prompt: false,
            without: "",
            assume: "",
        }
    }

    /// Takes a list of keys, with a comma and a blank between: `divider 2, fraction 128`. None where a key isn't known,
    /// or its value isn't one of it.
    pub fn take(&mut self, list: &'a str) -> Option<()> {
        for part in list.split(", ") {
            let (key, value) = part.split_once(' ')?;
            if !self.take_of_machine(key, value)? && !self.take_of_span(key, value)? {
                return None;
            }
        }
        Some(())
    }

    /// Takes a key of the machine: whether it is one.
    fn take_of_machine(&mut self, key: &str, value: &str) -> Option<bool> {
        match key {
            "side_set" => self.take_side_set(value)?,
            "start" => self.start = value.parse().ok()?,
            "pending" => self.pending = Some(value.parse().ok()?),
            "wrap_top" => self.wrap_top = value.parse().ok()?,
            "divider" => self.divider = value.parse().ok()?,
            "fraction" => self.fraction = value.parse().ok()?,
            "autopush" => self.autopush = truth(value)?,
            "autopull" => self.autopull = truth(value)?,
            _ => return self.take_of_pins(key, value),
        }
        Some(true)
    }

    /// Takes a key of the machine's pins: whether it is one.
    fn take_of_pins(&mut self, key: &str, value: &str) -> Option<bool> {
        match key {
            "out_base" => self.out_base = value.parse().ok()?,
            "out_count" => self.out_count = value.parse().ok()?,
            "set_base" => self.set_base = value.parse().ok()?,
            "set_count" => self.set_count = value.parse().ok()?,
            "side_base" => self.side_base = value.parse().ok()?,
            "side_count" => self.side_count = value.parse().ok()?,
            _ => return Some(false),
        }
        Some(true)
    }

    /// Takes a rule of side-set, which has so many pins as it has bits.
    fn take_side_set(&mut self, value: &str) -> Option<()> {
        self.side_rule = side_rule_of(value)?;
        self.side_count = self.side_rule.bits;
        Some(())
    }

    /// Takes a key of the span: whether it is one.
    fn take_of_span(&mut self, key: &str, value: &'a str) -> Option<bool> {
        match key {
            "to_pin" => self.to_pin = value.parse().ok()?,
            "unit" => self.unit = unit_of(value)?,
            "min" => self.min = value.parse().ok()?,
            "max" => self.max = most_of(value)?,
            _ => return self.take_of_events(key, value),
        }
        Some(true)
    }

    /// Takes a key of an event: whether it is one.
    fn take_of_events(&mut self, key: &str, value: &'a str) -> Option<bool> {
        match key {
            "from_edge" => self.from.take_edge(value)?,
            "from_at" => self.from.at = value,
            "from_done" => self.from.take_done(value),
            "to_edge" => self.to.take_edge(value)?,
            "to_at" => self.to.at = value,
            "to_done" => self.to.take_done(value),
            _ => return self.take_of_waits(key, value),
        }
        Some(true)
    }

    /// Takes a key of what the span leaves out or assumes: whether it is one.
    fn take_of_waits(&mut self, key: &str, value: &'a str) -> Option<bool> {
        match key {
            "stalls" => self.stalls = value,
            "prompt" => self.prompt = truth(value)?,
            "without" => self.without = value,
            "assume" => self.assume = value,
            _ => return Some(false),
        }
        Some(true)
    }
}

/// A number, or `inf` for no greatest bound.
pub fn most_of(value: &str) -> Option<Option<u32>> {
    if value == "inf" {
        Some(None)
    } else {
        Some(Some(value.parse().ok()?))
    }
}

fn truth(value: &str) -> Option<bool> {
    match value {
        "true" => Some(true),
        "false" => Some(false),
        _ => None,
    }
}

/// What of the pin changes, and whether it rises or becomes out.
fn edge_of(value: &str) -> Option<(PinSignal, bool)> {
    match value {
        "rise" => Some((PinSignal::Level, true)),
        "fall" => Some((PinSignal::Level, false)),
        "out" => Some((PinSignal::Direction, true)),
        "in" => Some((PinSignal::Direction, false)),
        _ => None,
    }
}

fn unit_of(value: &str) -> Option<SpanUnit> {
    match value {
        "ticks" => Some(SpanUnit::Ticks),
        "clocks" => Some(SpanUnit::Clocks),
        _ => None,
    }
}
