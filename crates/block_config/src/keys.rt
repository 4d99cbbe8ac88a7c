//! The keys of a configuration: their names, and what a number or a flag has to be. All else takes a key's name from here.
ghost use Rattle.std.specs.Prelude.{◌≤◌, unwrap_or};

/// A key whose value is a whole number.
#[derive(Clone, Copy)]
pub struct NumberKey {
    pub name: &'static str,
    /// The least value.
    pub low: u32,
    /// The greatest value.
    pub high: u32,
    /// The value where the key is absent; `None` where it is required.
    pub default: Option<u32>,
    pub ghost low_default: { low ≤ unwrap_or default low },
    pub ghost high_default: { unwrap_or default low ≤ high },
}

/// A key whose value is `true` or `false`.
#[derive(Clone, Copy)]
pub struct FlagKey {
    pub name: &'static str,
    /// The value where the key is absent.
    pub default: bool,
}

// The sections.
pub const LOAD: &str = "load";

pub const MACHINE: &str = "machine";

pub const PINS: &str = "pins";

pub const SPAN: &str = "span";

/// All sections.
pub const SECTIONS: [&str; 4] = [LOAD, MACHINE, PINS, SPAN];

// A load.
pub const PROGRAM: &str = "program";

pub const AT: &str = "at";

/// All keys of a load.
pub const LOAD_KEYS: [&str; 2] = [PROGRAM, AT];

// A machine, whose program has the key that a load's program has.
pub const ID: &str = "id";

pub const START: &str = "start";

pub const DIVIDER: &str = "divider";

pub const FRACTION: &str = "fraction";

pub const IN_BASE: &str = "in_base";

pub const OUT_BASE: &str = "out_base";

pub const SET_BASE: &str = "set_base";

pub const SIDE_BASE: &str = "side_base";

pub const JMP_PIN: &str = "jmp_pin";

pub const OUT_COUNT: &str = "out_count";

pub const SET_COUNT: &str = "set_count";

pub const IN_RIGHT: &str = "in_right";

pub const OUT_RIGHT: &str = "out_right";

pub const AUTOPUSH: &str = "autopush";

pub const AUTOPULL: &str = "autopull";

pub const JOIN_TX: &str = "join_tx";

pub const JOIN_RX: &str = "join_rx";

pub const STATUS_RX: &str = "status_rx";

pub const PUSH_THRESHOLD: &str = "push_threshold";

pub const PULL_THRESHOLD: &str = "pull_threshold";

pub const STATUS_N: &str = "status_n";

pub const X: &str = "x";

pub const Y: &str = "y";

pub const ISR: &str = "isr";

pub const OSR: &str = "osr";

pub const ISR_COUNT: &str = "isr_count";

pub const OSR_COUNT: &str = "osr_count";

pub const PENDING: &str = "pending";

/// All keys of a machine.
pub const MACHINE_KEYS: [&str; 29] = [
    ID,
    PROGRAM,
    START,
    DIVIDER,
    FRACTION,
    IN_BASE,
    OUT_BASE,
    SET_BASE,
    SIDE_BASE,
    JMP_PIN,
    OUT_COUNT,
    SET_COUNT,
    IN_RIGHT,
    OUT_RIGHT,
    AUTOPUSH,
    AUTOPULL,
    JOIN_TX,
    JOIN_RX,
    STATUS_RX,
    PUSH_THRESHOLD,
    PULL_THRESHOLD,
    STATUS_N,
    X,
    Y,
    ISR,
    OSR,
    ISR_COUNT,
    OSR_COUNT,
    PENDING,
];

/// A machine's number.
pub const ID_KEY: NumberKey = NumberKey {
    name: ID,
    low: 0,
    high: 3,
    default: None,
};

/// A machine's divider.
pub const CLOCK_KEYS: [NumberKey; 2] = [
    NumberKey {
        name: DIVIDER,
        low: 0,
        high: 65_535,
        default: Some(1),
    },
    NumberKey {
        name: FRACTION,
        low: 0,
        high: 255,
        default: Some(0),
    },
];

/// A machine's pins.
pub const PIN_KEYS: [NumberKey; 7] = [
    NumberKey {
        name: IN_BASE,
        low: 0,
        high: 31,
        default: Some(0),
    },
    NumberKey {
        name: OUT_BASE,
        low: 0,
        high: 31,
        default: Some(0),
    },
    NumberKey {
        name: SET_BASE,
        low: 0,
        high: 31,
        default: Some(0),
    },
    NumberKey {
        name: SIDE_BASE,
        low: 0,
        high: 31,
        default: Some(0),
    },
    NumberKey {
        name: JMP_PIN,
        low: 0,
        high: 31,
        default: Some(0),
    },
    NumberKey {
        name: OUT_COUNT,
        low: 0,
        high: 32,
        default: Some(0),
    },
    NumberKey {
        name: SET_COUNT,
        low: 0,
        high: 5,
        default: Some(5),
    },
];

/// A machine's flags before `status_rx`.
pub const FLAG_KEYS: [FlagKey; 6] = [
    FlagKey {
        name: IN_RIGHT,
        default: true,
    },
    FlagKey {
        name: OUT_RIGHT,
        default: true,
    },
    FlagKey {
        name: AUTOPUSH,
        default: false,
    },
    FlagKey {
        name: AUTOPULL,
        default: false,
    },
    FlagKey {
        name: JOIN_TX,
        default: false,
    },
    FlagKey {
        name: JOIN_RX,
        default: false,
    },
];

/// A machine's last flag.
pub const STATUS_KEY: FlagKey = FlagKey {
    name: STATUS_RX,
    default: false,
};

/// A machine's thresholds, X and Y.
pub const COUNT_KEYS: [NumberKey; 5] = [
    NumberKey {
        name: PUSH_THRESHOLD,
        low: 1,
        high: 32,
        default: Some(32),
    },
    NumberKey {
        name: PULL_THRESHOLD,
        low: 1,
        high: 32,
        default: Some(32),
    },
    NumberKey {
        name: STATUS_N,
        low: 0,
        high: 15,
        default: Some(0),
    },
    NumberKey {
        name: X,
        low: 0,
        high: 4_294_967_295,
        default: Some(0),
    },
    NumberKey {
        name: Y,
        low: 0,
        high: 4_294_967_295,
        default: Some(0),
    },
];

/// A machine's shift registers at the start. `PENDING`, which has no default, comes after them.
pub const SHIFT_KEYS: [NumberKey; 4] = [
    NumberKey {
        name: ISR,
        low: 0,
        high: 4_294_967_295,
        default: Some(0),
    },
    NumberKey {
        name: OSR,
        low: 0,
        high: 4_294_967_295,
        default: Some(0),
    },
    NumberKey {
        name: ISR_COUNT,
        low: 0,
        high: 32,
        default: Some(0),
    },
    NumberKey {
        name: OSR_COUNT,
        low: 0,
        high: 32,
        default: Some(32),
    },
];

// The pins.
pub const HIGH: &str = "high";

pub const LEVEL: &str = "level";

pub const OUT: &str = "out";

pub const BYPASS: &str = "bypass";

pub const OWN: &str = "own";

/// All keys of the pins of the only block, or of the first of two.
pub const FIRST_PINS: [&str; 4] = [HIGH, LEVEL, OUT, BYPASS];

/// All keys of the pins of a second block.
pub const SECOND_PINS: [&str; 4] = [LEVEL, OUT, BYPASS, OWN];

// A span, whose machine has the key that the section of machines has.
pub const NAME: &str = "name";

pub const FROM_PIN: &str = "from_pin";

pub const TO_PIN: &str = "to_pin";

pub const FROM_EDGE: &str = "from_edge";

pub const TO_EDGE: &str = "to_edge";

pub const UNIT: &str = "unit";

pub const MIN: &str = "min";

pub const MAX: &str = "max";

pub const STALLS: &str = "stalls";

pub const PROMPT: &str = "prompt";

pub const WITHOUT: &str = "without";

pub const FROM_AT: &str = "from_at";

pub const TO_AT: &str = "to_at";

pub const FROM_DONE: &str = "from_done";

pub const TO_DONE: &str = "to_done";

pub const ASSUME: &str = "assume";

/// All keys of a span.
pub const SPAN_KEYS: [&str; 17] = [
    NAME, MACHINE, FROM_PIN, TO_PIN, FROM_EDGE, TO_EDGE, UNIT, MIN, MAX, STALLS, PROMPT, WITHOUT,
    FROM_AT, TO_AT, FROM_DONE, TO_DONE, ASSUME,
];

// An assumption of a span, whose registers have the keys that the section of machines has.
pub const AFTER: &str = "after";

/// All keys of an assumption.
pub const ASSUME_KEYS: [&str; 3] = [AFTER, X, Y];

/// The keys of an event of a span.
#[derive(Clone, Copy)]
pub struct EventKeys {
    pub pin: &'static str,
    pub edge: &'static str,
    /// The instructions that alone make the edge.
    pub at: &'static str,
    /// In place of all these, the instructions whose end is the event.
    pub done: &'static str,
}

/// The keys of a span's from-event.
pub const FROM_EVENT: EventKeys = EventKeys {
    pin: FROM_PIN,
    edge: FROM_EDGE,
    at: FROM_AT,
    done: FROM_DONE,
};

/// The keys of a span's to-event.
pub const TO_EVENT: EventKeys = EventKeys {
    pin: TO_PIN,
    edge: TO_EDGE,
    at: TO_AT,
    done: TO_DONE,
};

/// A span's machine.
pub const SPAN_MACHINE: NumberKey = NumberKey {
    name: MACHINE,
    low: 0,
    high: 3,
    default: None,
};

/// A span's least bound.
pub const SPAN_MIN: NumberKey = NumberKey {
    name: MIN,
    low: 0,
    high: 16_777_215,
    default: None,
};

/// Whether a span speaks only of from-edges after which its machine doesn't wait.
pub const SPAN_PROMPT: FlagKey = FlagKey {
    name: PROMPT,
    default: false,
};
