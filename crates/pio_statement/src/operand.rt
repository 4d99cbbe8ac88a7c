//! The operands that are words.
ghost use Rattle.pio_statement.specs.Cursor.{ReadsValue};
ghost use Rattle.pio_statement.specs.Operands as spec;

use crate::StatementFault;
use crate::cursor::Cursor;
use pio_encode::{InSource, MovDestination, MovSource, OutDestination, SetDestination, WaitSource};
use pio_lex::Keyword;

impl<'a> Cursor<'a> {
    /// What a WAIT looks at: `gpio pin irq`.
    #[tactic(auto, unfolding(crate::specs::Operands::wait_source_at))]
    pub fn wait_source(&mut self) -> Result<WaitSource, StatementFault>
        ensures { ReadsValue result self.old self.new (spec.wait_source_at self.old.tokens self.old.at) }
    {
        match self.keyword()? {
            Keyword::Gpio => Ok(WaitSource::Gpio),
            Keyword::Pin => Ok(WaitSource::Pin),
            Keyword::Irq => Ok(WaitSource::Irq),
            _ => Err(StatementFault::SYNTAX),
        }
    }

    /// What an IN reads: `pins x y null isr osr`.
    #[tactic(auto, unfolding(crate::specs::Operands::in_source_at))]
    pub fn in_source(&mut self) -> Result<InSource, StatementFault>
        ensures { ReadsValue result self.old self.new (spec.in_source_at self.old.tokens self.old.at) }
    {
        match self.keyword()? {
            Keyword::Pins => Ok(InSource::Pins),
            Keyword::X => Ok(InSource::X),
            Keyword::Y => Ok(InSource::Y),
            Keyword::Null => Ok(InSource::Null),
            Keyword::Isr => Ok(InSource::Isr),
            Keyword::Osr => Ok(InSource::Osr),
            _ => Err(StatementFault::SYNTAX),
        }
    }

    /// Where an OUT writes: `pins x y null pindirs pc isr exec`.
    #[tactic(auto, unfolding(crate::specs::Operands::out_destination_at))]
    pub fn out_destination(&mut self) -> Result<OutDestination, StatementFault>
        ensures { ReadsValue result self.old self.new (spec.out_destination_at self.old.tokens self.old.at) }
    {
        match self.keyword()? {
            Keyword::Pins => Ok(OutDestination::Pins),
            Keyword::X => Ok(OutDestination::X),
            Keyword::Y => Ok(OutDestination::Y),
            Keyword::Null => Ok(OutDestination::Null),
            Keyword::Pindirs => Ok(OutDestination::Pindirs),
            Keyword::Pc => Ok(OutDestination::Pc),
            Keyword::Isr => Ok(OutDestination::Isr),
            Keyword::Exec => Ok(OutDestination::Exec),
            _ => Err(StatementFault::SYNTAX),
        }
    }

    /// Where a MOV writes: `pins x y exec pc isr osr`.
    #[tactic(auto, unfolding(crate::specs::Operands::mov_destination_at))]
    pub fn mov_destination(&mut self) -> Result<MovDestination, StatementFault>
        ensures { ReadsValue result self.old self.new (spec.mov_destination_at self.old.tokens self.old.at) }
    {
        match self.keyword()? {
            Keyword::Pins => Ok(MovDestination::Pins),
            Keyword::X => Ok(MovDestination::X),
            Keyword::Y => Ok(MovDestination::Y),
            Keyword::Exec => Ok(MovDestination::Exec),
            Keyword::Pc => Ok(MovDestination::Pc),
            Keyword::Isr => Ok(MovDestination::Isr),
            Keyword::Osr => Ok(MovDestination::Osr),
            _ => Err(StatementFault::SYNTAX),
        }
    }

    /// What a MOV reads: `pins x y null status isr osr`.
    #[tactic(auto, unfolding(crate::specs::Operands::mov_source_at))]
    pub fn mov_source(&mut self) -> Result<MovSource, StatementFault>
        ensures { ReadsValue result self.old self.new (spec.mov_source_at self.old.tokens self.old.at) }
    {
        match self.keyword()? {
            Keyword::Pins => Ok(MovSource::Pins),
            Keyword::X => Ok(MovSource::X),
            Keyword::Y => Ok(MovSource::Y),
            Keyword::Null => Ok(MovSource::Null),
            Keyword::Status => Ok(MovSource::Status),
            Keyword::Isr => Ok(MovSource::Isr),
            Keyword::Osr => Ok(MovSource::Osr),
            _ => Err(StatementFault::SYNTAX),
        }
    }

    /// Where a SET writes: `pins x y pindirs`.
    #[tactic(auto, unfolding(crate::specs::Operands::set_destination_at))]
    pub fn set_destination(&mut self) -> Result<SetDestination, StatementFault>
        ensures { ReadsValue result self.old self.new (spec.set_destination_at self.old.tokens self.old.at) }
    {
        match self.keyword()? {
            Keyword::Pins => Ok(SetDestination::Pins),
            Keyword::X => Ok(SetDestination::X),
            Keyword::Y => Ok(SetDestination::Y),
            Keyword::Pindirs => Ok(SetDestination::Pindirs),
            _ => Err(StatementFault::SYNTAX),
        }
    }
}
