//! The forms of the instructions, after their first word. E is an expression.
ghost use Rattle.pio_statement.specs.Cursor.{ReadsValue, ReadsOptional};
ghost use Rattle.pio_statement.specs.Forms as spec;

use crate::cursor::Cursor;
use crate::{Form, StatementFault};
use pio_encode::WaitSource;
use pio_lex::Keyword;

impl<'a> Cursor<'a> {
    /// An instruction without its side-set and its delay.
    #[tactic(auto, unfolding(crate::specs::Forms::form_at))]
    pub fn form(&mut self) -> Result<Form, StatementFault>
        ensures { ReadsValue result self.old self.new (spec.form_at self.old.source self.old.tokens self.old.at) }
    {
        match self.keyword()? {
            Keyword::Nop => Ok(Form::Nop),
            Keyword::Jmp => self.jmp(),
            Keyword::Wait => self.wait(),
            Keyword::In => self.in_bits(),
            Keyword::Out => self.out_bits(),
            Keyword::Push => Ok(self.push()),
            Keyword::Pull => Ok(self.pull()),
            Keyword::Mov => self.mov(),
            Keyword::Irq => self.irq(),
            Keyword::Set => self.set(),
            _ => Err(StatementFault::SYNTAX),
        }
    }

    /// `jmp [cond,] E`
    #[tactic(auto, unfolding(crate::specs::Forms::jmp_at))]
    fn jmp(&mut self) -> Result<Form, StatementFault>
        ensures { ReadsValue result self.old self.new (spec.jmp_at self.old.source self.old.tokens self.old.at) }
    {
        let condition = self.condition()?;
        self.condition_comma(condition);
        let target = self.expression()?;
        Ok(Form::Jmp { condition, target })
    }

    /// `wait E gpio, E`, `wait E pin, E`, `wait E irq, E [rel]`
    #[tactic(auto, unfolding(crate::specs::Forms::wait_at))]
    fn wait(&mut self) -> Result<Form, StatementFault>
        ensures { ReadsValue result self.old self.new (spec.wait_at self.old.source self.old.tokens self.old.at) }
    {
        let polarity = self.expression()?;
        let source = self.wait_source()?;
        self.comma();
        let index = self.expression()?;
        let relative = self.wait_relative(source);
        Ok(Form::Wait {
            polarity,
            source,
            index,
            relative,
        })
    }

    /// `[rel]`, after an IRQ flag alone.
    fn wait_relative(&mut self, source: WaitSource) -> bool
        ensures { ReadsOptional result self.old self.new (spec.wait_relative self.old.tokens source self.old.at) }
    {
        match source {
            WaitSource::Irq => self.relative(),
            _ => false,
        }
    }

    /// `in src, E`
    #[tactic(auto, unfolding(crate::specs::Forms::in_at))]
    fn in_bits(&mut self) -> Result<Form, StatementFault>
        ensures { ReadsValue result self.old self.new (spec.in_at self.old.source self.old.tokens self.old.at) }
    {
        let source = self.in_source()?;
        self.comma();
        let count = self.expression()?;
        Ok(Form::In { source, count })
    }

    /// `out dst, E`
    #[tactic(auto, unfolding(crate::specs::Forms::out_at))]
    fn out_bits(&mut self) -> Result<Form, StatementFault>
        ensures { ReadsValue result self.old self.new (spec.out_at self.old.source self.old.tokens self.old.at) }
    {
        let destination = self.out_destination()?;
        self.comma();
        let count = self.expression()?;
        Ok(Form::Out { destination, count })
    }

    /// `push [iffull] [block or noblock]`
    #[tactic(auto, unfolding(crate::specs::Forms::push_at))]
    fn push(&mut self) -> Form
        ensures { ReadsOptional result self.old self.new (spec.push_at self.old.tokens self.old.at) }
    {
        let if_full = self.if_full();
        let block = self.blocking();
        Form::Push { if_full, block }
    }

    /// `pull [ifempty] [block or noblock]`
    #[tactic(auto, unfolding(crate::specs::Forms::pull_at))]
    fn pull(&mut self) -> Form
        ensures { ReadsOptional result self.old self.new (spec.pull_at self.old.tokens self.old.at) }
    {
        let if_empty = self.if_empty();
        let block = self.blocking();
        Form::Pull { if_empty, block }
    }

    /// `mov dst, [! or ~ or ::] src`
    #[tactic(auto, unfolding(crate::specs::Forms::mov_at))]
    fn mov(&mut self) -> Result<Form, StatementFault>
        ensures { ReadsValue result self.old self.new (spec.mov_at self.old.tokens self.old.at) }
    {
        let destination = self.mov_destination()?;
        self.comma();
        let operation = self.operation();
        let source = self.mov_source()?;
        Ok(Form::Mov {
            destination,
            operation,
            source,
        })
    }

    /// `irq [set or nowait or wait or clear] E [rel]`
    #[tactic(auto, unfolding(crate::specs::Forms::irq_at))]
    fn irq(&mut self) -> Result<Form, StatementFault>
        ensures { ReadsValue result self.old self.new (spec.irq_at self.old.source self.old.tokens self.old.at) }
    {
        let mode = self.irq_mode();
        let index = self.expression()?;
        let relative = self.relative();
        Ok(Form::Irq {
            mode,
            index,
            relative,
        })
    }

    /// `set dst, E`
    #[tactic(auto, unfolding(crate::specs::Forms::set_at))]
    fn set(&mut self) -> Result<Form, StatementFault>
        ensures { ReadsValue result self.old self.new (spec.set_at self.old.source self.old.tokens self.old.at) }
    {
        let destination = self.set_destination()?;
        self.comma();
        let value = self.expression()?;
        Ok(Form::Set { destination, value })
    }
}
