//! Laws above clap's definition of a parse: what words as the usage has them ask for, and where what any words ask for stands among
//! them. The functions do nothing.
ghost use Rattle.command_line.specs.Given.{TakenWords};
ghost use Rattle.command_line.specs.Laws.{AsmWords, CheckWords, DisWords, GenWords, InspectWords, MeasureWords, PairWords, ReceiveWords, RecheckWords, RunWords, SharesWords, TableWords, UartWords};

/// `asm -- FILE` asks for the listing of FILE.
pub fn asm_words()
    ensures { AsmWords }
{}

/// `run --source=S [--config=C] [--stimulus=T] --clocks=N` asks for N clocks of S under C and T exactly where N is a whole
/// number in range.
pub fn run_words()
    ensures { RunWords }
{}

/// `check --source=S [--config=C]` asks for the verdicts on the spans of C over S.
pub fn check_words()
    ensures { CheckWords }
{}

/// `table --source=S [--config=C] --span=NAME` asks for the table of the span NAME of C over S.
pub fn table_words()
    ensures { TableWords }
{}

/// `recheck --source=S [--config=C] --span=NAME --table=F` asks whether the table in F proves the span NAME of C over S.
pub fn recheck_words()
    ensures { RecheckWords }
{}

/// `shares --source=S [--config=C]` asks what the machines of C over S share.
pub fn shares_words()
    ensures { SharesWords }
{}

/// `gen --seed=K --clocks=N` asks for N clocks of the load that K draws exactly where both are whole numbers in range.
pub fn gen_words()
    ensures { GenWords }
{}

/// `dis --side=n [--opt] -- FILE` asks for the text of FILE exactly where n leaves room for `--opt`.
pub fn dis_words()
    ensures { DisWords }
{}

/// `measure --source=S [--config=C] [--stimulus=T] --clocks=N` asks for what N clocks show of the spans of C over S exactly where
/// N is a whole number in range.
pub fn measure_words()
    ensures { MeasureWords }
{}

/// `receive --source=S [--config=C] [--stimulus=T] --clocks=N --pin=P --bit=B` asks for the bytes on pin P at B clocks a bit
/// exactly where N, P and B are whole numbers in range.
pub fn receive_words()
    ensures { ReceiveWords }
{}

/// `uart --send=F --divider=I --clocks=N` asks for what the transmitter sends of F in N clocks with a tick every I clocks exactly where
/// I and N are whole numbers in range.
pub fn uart_words()
    ensures { UartWords }
{}

/// `pair --source=S --config=A --second=B [--stimulus=T] --clocks=N` asks for N clocks of two blocks exactly where N is a whole number in
/// range.
pub fn pair_words()
    ensures { PairWords }
{}

/// `inspect --source=S [--config=C] [--stimulus=T] --clocks=N` asks for what is inside the block in N clocks of S under C and T
/// exactly where N is a whole number in range.
pub fn inspect_words()
    ensures { InspectWords }
{}

/// Whatever words are taken, each text that they ask for is one that they give, as `--name=text`, as `--name` and the
/// text, or as a file's word alone; and each number is that of such a text, a whole number in range.
pub fn taken_words_give_all()
    ensures { TakenWords }
{}
