//! All tables of machines, each at the place of its number: the keys of one in order, and the machine that they set up.
ghost use Rattle.std.specs.Prelude.{◌≡◌, ◌≤◌, ◌<◌, ◌==◌, ◌||◌, ◌&&◌, not, IsTrue, IfOk, map, option_map};
ghost use Rattle.pin_matrix.specs.Placing.{HasRestOf};
ghost use Rattle.toml.specs.View.{items_view, table_view, view};
ghost use Rattle.answers.specs.Answers.{Gives};
ghost use Rattle.setup_keys.specs.Block.{keys_of_machine};
ghost use Rattle.block_config.specs.Answer.{told};
ghost use Rattle.block_config.specs.Loads.{loaded_of};
ghost use Rattle.block_config.specs.Machines as spec;
ghost use Rattle.block_config.specs.Tables.{and_then, section_at, seen};
ghost use Rattle.block_config.specs.Values.{map_ok, text_of};

use crate::fault::{ConfigFault, ConfigKind};
use crate::keys;
use crate::path::{Section, fault_at, fault_of_key, fault_of_section};
use crate::programs::{LoadedProgram, label_of};
use crate::table::{Lack, are_known, flag_at, flags_at, number_at, numbers_at, value_at};
use crate::value::{text_of, word_of};
use pin_matrix::{MachineSetup, Mapping, Setup};
use std::alloc::Global;
use toml::{Table, Value};

/// Configures the machines of all tables.
pub fn place_machines(
    alloc: Global,
    loads: &[LoadedProgram],
    values: &[Value],
    setup: &mut Setup,
) -> Result<(), ConfigFault>
    ensures value { Gives told (λ _. map (option_map keys_of_machine) setup.new.machines) result
        (spec.machines_from 0 (map (option_map keys_of_machine) setup.old.machines)
        (map loaded_of loads.now) (items_view values.now)) }
    ensures rest { HasRestOf setup.new setup.old }
{
    for place in 0..values.len() {
        let machine = machine_in(alloc, place, &setup.machines, loads, &values[place])?;
        setup.place(machine);
    }
    Ok(())
}

/// The machine of one table.
fn machine_in(
    alloc: Global,
    place: usize,
    machines: &[Option<MachineSetup>; 4],
    loads: &[LoadedProgram],
    value: &Value,
) -> Result<MachineSetup, ConfigFault>
    ensures { Gives told keys_of_machine result
        (spec.machine_in place (map (option_map keys_of_machine) machines.now)
        (map loaded_of loads.now) (view value.now)) }
{
    match value.as_table() {
        Some(table) => machine_at(alloc, Section::Machine(place), machines, loads, table),
        None => Err(fault_at(alloc, keys::MACHINE, ConfigKind::WrongType)),
    }
}

/// The machine of a table.
fn machine_at(
    alloc: Global,
    section: Section,
    machines: &[Option<MachineSetup>; 4],
    loads: &[LoadedProgram],
    table: &Table,
) -> Result<MachineSetup, ConfigFault>
    ensures { Gives told keys_of_machine result
        (section_at section spec.machine_names (table_view table.now)
        (spec.machine_of_table (map (option_map keys_of_machine) machines.now) (map loaded_of loads.now) (table_view table.now))) }
{
    if !are_known(table, &keys::MACHINE_KEYS) {
        return Err(fault_of_section(alloc, section, ConfigKind::UnknownKey));
    }
    match machine_of(table, loads, machines) {
        Ok(machine) => Ok(machine),
        Err(lack) => Err(fault_of_key(alloc, section, lack.key, lack.kind)),
    }
}

/// The machine of a table whose keys are known, after the machines of the tables before it.
fn machine_of(
    table: &Table,
    loads: &[LoadedProgram],
    machines: &[Option<MachineSetup>; 4],
) -> Result<MachineSetup, Lack>
    ensures { seen keys_of_machine result
        ≡ spec.machine_of_table (map (option_map keys_of_machine) machines.now)
        (map loaded_of loads.now) (table_view table.now) }
{
    let run = MachineRun::read(table, loads, machines)?;
    run.machine(table)
}

/// A machine's number, its program and the address of its first instruction.
#[derive(Clone, Copy)]
pub struct MachineRun<'a> {
    pub id: u8,
    pub load: LoadedProgram<'a>,
    pub start: u8,
    pub ghost id_in_block: { id < 4 },
    pub ghost start_in_memory: { start < 32 },
}

impl<'a> MachineRun<'a> {
    ghost use Rattle.block_config.specs.MachineView.{clock_view, counts_view, first_view, flags_view, pins_view, run_view};

    /// The first keys of a machine's table.
    fn read(
        table: &Table,
        loads: &[LoadedProgram<'a>],
        machines: &[Option<MachineSetup>; 4],
    ) -> Result<Self, Lack>
        ensures { seen run_view result
            ≡ spec.run_at (map (option_map keys_of_machine) machines.now) (map loaded_of loads.now)
            (table_view table.now) }
    {
        let id = Self::id(table, machines)?;
        let load = Self::load(table, loads)?;
        let start = Self::start(table, &load)?;
        Ok(MachineRun { id, load, start })
    }

    /// The machine's number, which no table before has.
    fn id(table: &Table, machines: &[Option<MachineSetup>; 4]) -> Result<u8, Lack>
        ensures value { seen (λ n. n) result
            ≡ spec.id_at (map (option_map keys_of_machine) machines.now) (table_view table.now) }
        ensures in_block { IfOk result (λ n. n < 4) }
    {
        let id = number_at(table, &keys::ID_KEY)? as u8;
        if machines[usize::from(id)].is_some() {
            return Err(Lack {
                key: keys::ID,
                kind: ConfigKind::MachineTwice,
            });
        }
        Ok(id)
    }

    /// The load of the program that it runs.
    fn load(table: &Table, loads: &[LoadedProgram<'a>]) -> Result<LoadedProgram<'a>, Lack>
        ensures { seen loaded_of result
            ≡ spec.load_at (map loaded_of loads.now) (table_view table.now) }
    {
        let loaded = Self::named(loads, value_at(table, keys::PROGRAM));
        loaded.map_err(|kind| Lack {
            key: keys::PROGRAM,
            kind,
        })
    }

    /// The load that a value names.
    fn named(
        loads: &[LoadedProgram<'a>],
        value: Option<&Value>,
    ) -> Result<LoadedProgram<'a>, ConfigKind>
        ensures { map_ok loaded_of result
            ≡ and_then (text_of (option_map (λ v. view v.now) value.entry))
            (spec.named_load (map loaded_of loads.now)) }
    {
        let Some(name) = text_of(value)? else {
            return Err(ConfigKind::Missing);
        };
        match LoadedProgram::find(loads, name.as_bytes()) {
            Some(load) => Ok(load),
            None => Err(ConfigKind::NoProgram),
        }
    }

    /// The address of its first instruction.
    fn start(table: &Table, load: &LoadedProgram<'a>) -> Result<u8, Lack>
        ensures value { seen (λ n. n) result
            ≡ spec.start_at (loaded_of load.now) (table_view table.now) }
        ensures in_memory { IfOk result (λ n. n < 32) }
    {
        let place = match text_of(value_at(table, keys::START)) {
            Ok(Some(name)) => label_of(load.program, name.as_bytes()),
            Ok(None) => Some(0),
            Err(kind) => {
                return Err(Lack {
                    key: keys::START,
                    kind,
                });
            }
        };
        match place {
            Some(place) => Ok(load.address + place),
            None => Err(Lack {
                key: keys::START,
                kind: ConfigKind::NoLabel,
            }),
        }
    }

    /// The machine of a table, which runs there.
    fn machine(&self, table: &Table) -> Result<MachineSetup, Lack>
        ensures { seen keys_of_machine result
            ≡ spec.machine_running (table_view table.now) (run_view self.now) }
    {
        let clock = ClockValues::read(table)?;
        let pins = PinValues::read(table)?;
        self.with_pins(table, &clock, &pins)
    }

    /// The machine of a table, with this divider and these pins.
    fn with_pins(
        &self,
        table: &Table,
        clock: &ClockValues,
        pins: &PinValues,
    ) -> Result<MachineSetup, Lack>
        ensures { seen keys_of_machine result
            ≡ spec.machine_with_pins (table_view table.now) (run_view self.now)
            (clock_view clock.now) (pins_view pins.now) }
    {
        let flags = FlagValues::read(table)?;
        let counts = CountValues::read(table)?;
        let first = FirstValues::read(table)?;
        Ok(self.setup(clock, pins, &flags, &counts, &first))
    }

    /// A machine of its parts.
    fn setup(
        &self,
        clock: &ClockValues,
        pins: &PinValues,
        flags: &FlagValues,
        counts: &CountValues,
        first: &FirstValues,
    ) -> MachineSetup
        ensures { keys_of_machine result
            ≡ spec.machine_keys_of (run_view self.now) (clock_view clock.now) (pins_view pins.now)
            (flags_view flags.now) (counts_view counts.now) (first_view first.now) }
    {
        let address = self.load.address;
        let program = self.load.program;
        MachineSetup {
            id: self.id,
            start: self.start,
            x: counts.x,
            y: counts.y,
            isr: first.isr,
            osr: first.osr,
            isr_count: first.isr_count,
            osr_count: first.osr_count,
            pending: first.pending,
            int: clock.int,
            frac: clock.frac,
            side_rule: program.side,
            wrap_bottom: address + program.wrap_bottom,
            wrap_top: address + program.wrap_top,
            in_base: pins.in_base,
            jmp_pin: pins.jmp_pin,
            out: Mapping {
                base: pins.out_base,
                count: pins.out_count,
            },
            set: Mapping {
                base: pins.set_base,
                count: pins.set_count,
            },
            side: Mapping {
                base: pins.side_base,
                count: program.side.bits,
            },
            in_right: flags.in_right,
            out_right: flags.out_right,
            autopush: flags.autopush,
            autopull: flags.autopull,
            push_threshold: counts.push_threshold,
            pull_threshold: counts.pull_threshold,
            join_tx: flags.join_tx,
            join_rx: flags.join_rx,
            status_rx: flags.status_rx,
            status_n: counts.status_n,
        }
    }
}

/// The divider of a machine.
#[derive(Clone, Copy)]
pub struct ClockValues {
    pub int: u16,
    pub frac: u8,
    pub ghost divides: { IsTrue (not (int == 0) || frac == 0) },
}

impl ClockValues {
    ghost use Rattle.block_config.specs.MachineView.{clock_view};

    /// The divider of a machine's table.
    #[tactic(auto, unfolding(crate::specs::Tables::each_at))]
    fn read(table: &Table) -> Result<Self, Lack>
        ensures { seen clock_view result ≡ spec.clock_at (table_view table.now) }
    {
        let numbers = numbers_at(table, &keys::CLOCK_KEYS)?;
        let clock = numbers.as_slice();
        let int = clock[0] as u16;
        let frac = clock[1] as u8;
        if int == 0 && frac != 0 {
            return Err(Lack {
                key: keys::FRACTION,
                kind: ConfigKind::Divider,
            });
        }
        Ok(ClockValues { int, frac })
    }
}

/// The pins of a machine.
#[derive(Clone, Copy)]
pub struct PinValues {
    pub in_base: u8,
    pub out_base: u8,
    pub set_base: u8,
    pub side_base: u8,
    pub jmp_pin: u8,
    pub out_count: u8,
    pub set_count: u8,
    pub ghost in_base_is_a_pin: { in_base < 32 },
    pub ghost out_base_is_a_pin: { out_base < 32 },
    pub ghost set_base_is_a_pin: { set_base < 32 },
    pub ghost side_base_is_a_pin: { side_base < 32 },
    pub ghost jmp_pin_is_a_pin: { jmp_pin < 32 },
    pub ghost out_count_fits: { out_count ≤ 32 },
    pub ghost set_count_fits: { set_count ≤ 5 },
}

impl PinValues {
    ghost use Rattle.block_config.specs.MachineView.{pins_view};

    /// The pins of a machine's table.
    fn read(table: &Table) -> Result<Self, Lack>
        ensures { seen pins_view result ≡ spec.pins_at (table_view table.now) }
    {
        let numbers = numbers_at(table, &keys::PIN_KEYS)?;
        let pins = numbers.as_slice();
        Ok(PinValues {
            in_base: pins[0] as u8,
            out_base: pins[1] as u8,
            set_base: pins[2] as u8,
            side_base: pins[3] as u8,
            jmp_pin: pins[4] as u8,
            out_count: pins[5] as u8,
            set_count: pins[6] as u8,
        })
    }
}

/// The flags of a machine.
#[derive(Clone, Copy)]
pub struct FlagValues {
    pub in_right: bool,
    pub out_right: bool,
    pub autopush: bool,
    pub autopull: bool,
    pub join_tx: bool,
    pub join_rx: bool,
    pub status_rx: bool,
    pub ghost joins_one_way: { IsTrue (not (join_tx && join_rx)) },
}

impl FlagValues {
    ghost use Rattle.block_config.specs.MachineView.{flags_view};

    /// The flags of a machine's table.
    #[tactic(auto, unfolding(crate::specs::Tables::each_at))]
    fn read(table: &Table) -> Result<Self, Lack>
        ensures { seen flags_view result ≡ spec.flags_at (table_view table.now) }
    {
        let values = flags_at(table, &keys::FLAG_KEYS)?;
        let flags = values.as_slice();
        if flags[4] && flags[5] {
            return Err(Lack {
                key: keys::JOIN_RX,
                kind: ConfigKind::BothJoins,
            });
        }
        let status_rx = flag_at(table, &keys::STATUS_KEY)?;
        Ok(FlagValues {
            in_right: flags[0],
            out_right: flags[1],
            autopush: flags[2],
            autopull: flags[3],
            join_tx: flags[4],
            join_rx: flags[5],
            status_rx,
        })
    }
}

/// The thresholds of a machine, X and Y.
#[derive(Clone, Copy)]
pub struct CountValues {
    pub push_threshold: u8,
    pub pull_threshold: u8,
    pub status_n: u8,
    pub x: u32,
    pub y: u32,
    pub ghost pushes_some: { 1 ≤ push_threshold },
    pub ghost pushes_a_word: { push_threshold ≤ 32 },
    pub ghost pulls_some: { 1 ≤ pull_threshold },
    pub ghost pulls_a_word: { pull_threshold ≤ 32 },
    pub ghost status_in_field: { status_n < 16 },
}

impl CountValues {
    ghost use Rattle.block_config.specs.MachineView.{counts_view};

    /// The thresholds of a machine's table, X and Y.
    #[tactic(auto, unfolding(crate::specs::Tables::each_at))]
    fn read(table: &Table) -> Result<Self, Lack>
        ensures { seen counts_view result ≡ spec.counts_at (table_view table.now) }
    {
        let numbers = numbers_at(table, &keys::COUNT_KEYS)?;
        let counts = numbers.as_slice();
        Ok(CountValues {
            push_threshold: counts[0] as u8,
            pull_threshold: counts[1] as u8,
            status_n: counts[2] as u8,
            x: counts[3],
            y: counts[4],
        })
    }
}

/// The shift registers of a machine at the start, and the word that it executes first.
#[derive(Clone, Copy)]
pub struct FirstValues {
    pub isr: u32,
    pub osr: u32,
    pub isr_count: u8,
    pub osr_count: u8,
    pub pending: Option<u16>,
    pub ghost isr_has_bits: { isr_count ≤ 32 },
    pub ghost osr_has_bits: { osr_count ≤ 32 },
}

impl FirstValues {
    ghost use Rattle.block_config.specs.MachineView.{first_view};

    /// The shift registers of a machine's table, and the word that it executes first.
    #[tactic(auto, unfolding(crate::specs::Tables::each_at))]
    fn read(table: &Table) -> Result<Self, Lack>
        ensures { seen first_view result ≡ spec.first_at (table_view table.now) }
    {
        let numbers = numbers_at(table, &keys::SHIFT_KEYS)?;
        let shifts = numbers.as_slice();
        let pending = Self::pending(table)?;
        Ok(FirstValues {
            isr: shifts[0],
            osr: shifts[1],
            isr_count: shifts[2] as u8,
            osr_count: shifts[3] as u8,
            pending,
        })
    }

    /// The word of a table that the machine executes first.
    fn pending(table: &Table) -> Result<Option<u16>, Lack>
        ensures { seen (λ w. w) result ≡ spec.pending_at (table_view table.now) }
    {
        let word = word_of(value_at(table, keys::PENDING));
        word.map_err(|kind| Lack {
            key: keys::PENDING,
            kind,
        })
    }
}
