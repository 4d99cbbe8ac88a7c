//! What the checker knows of a machine between two instructions.
use std::marker::Model;

/// What is known before an instruction. The type keeps the address below 32.
#[derive(Clone, Copy, Default)]
pub struct Context {
    /// Where the instruction lies.
    pub address: u8,
    /// X, or `None` where it may be anything.
    pub x: Option<u16>,
    /// Y, or `None` where it may be anything.
    pub y: Option<u16>,
    /// Whether the watched signal of the span's from-pin is high: its level, or its direction where that is out.
    pub from: bool,
    /// Whether that of the to-pin is.
    pub to: bool,
}

impl Model for Context {
    ghost use Rattle.std.specs.Prelude.{◌<◌};
    ghost use Rattle.span_step.specs.Contexts as spec;

    ghost Value = { spec.Context };

    ghost view = { λ k. record {
      address = k.address;
      x = k.x;
      y = k.y;
      from = k.from;
      to = k.to;
    } };

    ghost invariant = { λ k. k.address < 32 };

    ghost inverse = { λ k. record {
      address = k.address;
      x = k.x;
      y = k.y;
      from = k.from;
      to = k.to;
    } };
}
