//! All tables of spans: the keys of one in order, and the span that they name.
ghost use Rattle.std.specs.Prelude.{◌≡◌, ◌≤◌, ◌<◌, ◌^◌, Ok, Some, [], length, map, option_map, IfOk, IfSome, IsTrue};
ghost use Rattle.std.specs.Option.{ForSome};
ghost use Rattle.pin_matrix.specs.Spans.{are_addresses, is_span_name};
ghost use Rattle.toml.specs.View.{items_view, table_view, view};
ghost use Rattle.answers.specs.Answers.{Gives};
ghost use Rattle.setup_keys.specs.Block.{keys_of_machine, keys_of_span};
ghost use Rattle.block_config.specs.Answer.{told};
ghost use Rattle.block_config.specs.Assume as assume;
ghost use Rattle.block_config.specs.Loads.{loaded_of};
ghost use Rattle.block_config.specs.Spans as spec;
ghost use Rattle.block_config.specs.Tables.{and_then, seen};
ghost use Rattle.block_config.specs.Values.{map_ok, text_of};

use crate::assume::assume_at;
use crate::edges::{Edge, edge_at, enders_at, makers_at, pin_at};
use crate::fault::{ConfigFault, ConfigKind};
use crate::keys;
use crate::labels::labels_at;
use crate::path::{Section, fault_at, fault_of_key, fault_of_section};
use crate::programs::LoadedProgram;
use crate::table::{Lack, are_known, flag_at, number_at, value_at};
use crate::value::{number_in, text_of};
use arrayvec::ArrayVec;
use pin_matrix::{Addresses, Assumptions, MachineSetup, Span, SpanUnit, Spans, is_span_name};
use pio_encode::Name;
use std::alloc::Global;
use toml::{Table, Value};

/// The spans of all tables.
pub fn read_spans(
    alloc: Global,
    machines: &[Option<MachineSetup>; 4],
    loads: &[LoadedProgram],
    values: &[Value],
) -> Result<Vec<Span>, ConfigFault>
    ensures { Gives told (λ v. map keys_of_span v.items) result
        (spec.all_spans (map (option_map keys_of_machine) machines.now) (map loaded_of loads.now)
        (items_view values.now)) }
{
    let mut spans = Vec::new(alloc);
    for place in 0..values.len() {
        let span = span_in(alloc, place, machines, loads, &values[place])?;
        spans.push(span)?;
    }
    Ok(spans)
}

/// The spans, which are 64 at most.
pub fn few_spans(alloc: Global, spans: Vec<Span>) -> Spans
    requires { length spans.items ≤ 64 }
    ensures { result ≡ spans.items }
{
    match Spans::new(spans) {
        Some(spans) => spans,
        None => Spans::empty(alloc),
    }
}

/// The span of one table.
fn span_in(
    alloc: Global,
    place: usize,
    machines: &[Option<MachineSetup>; 4],
    loads: &[LoadedProgram],
    value: &Value,
) -> Result<Span, ConfigFault>
    ensures { Gives told keys_of_span result
        (spec.span_in (map (option_map keys_of_machine) machines.now) (map loaded_of loads.now)
        place [] (view value.now)) }
{
    match value.as_table() {
        Some(table) => span_at(alloc, place, machines, loads, table),
        None => Err(fault_at(alloc, keys::SPAN, ConfigKind::WrongType)),
    }
}

/// The span of a table.
#[tactic(auto, using(crate::proofs::SpansInRange::named))]
fn span_at(
    alloc: Global,
    place: usize,
    machines: &[Option<MachineSetup>; 4],
    loads: &[LoadedProgram],
    table: &Table,
) -> Result<Span, ConfigFault>
    ensures { Gives told keys_of_span result
        (spec.span_at place (map (option_map keys_of_machine) machines.now) (map loaded_of loads.now)
        (table_view table.now)) }
{
    let section = Section::Span(place);
    if !are_known(table, &keys::SPAN_KEYS) {
        return Err(fault_of_section(alloc, section, ConfigKind::UnknownKey));
    }
    let name = match name_at(table) {
        Ok(name) => name,
        Err(lack) => return Err(fault_of_key(alloc, section, lack.key, lack.kind)),
    };
    match SpanValues::read(table, machines, loads) {
        Ok(values) => {
            let load = SpanValues::load_for(loads, machines, values.ends.machine);
            values.assuming(alloc, name, place, table, load)
        }
        Err(lack) => Err(fault_of_key(alloc, section, lack.key, lack.kind)),
    }
}

/// The name of a table: 1 to 32 letters, digits, `_` or `-`.
fn name_at<'t>(table: &'t Table) -> Result<&'t str, Lack>
    ensures { seen (λ n. n.now) result ≡ spec.name_at (table_view table.entry.now) }
{
    match name_of(value_at(table, keys::NAME)) {
        Ok(name) => Ok(name),
        Err(kind) => Err(Lack {
            key: keys::NAME,
            kind,
        }),
    }
}

/// The name that a value is.
fn name_of<'t>(value: Option<&'t Value>) -> Result<&'t str, ConfigKind>
    ensures { map_ok (λ n. n.now) result
        ≡ and_then (text_of (option_map (λ v. view v.now) value.entry)) spec.name_of }
{
    match text_of(value)? {
        Some(name) if is_span_name(name.as_bytes()) => Ok(name),
        Some(_) => Err(ConfigKind::Range),
        None => Err(ConfigKind::Missing),
    }
}

/// What a span says after its name.
#[derive(Drop)]
pub struct SpanValues {
    pub ends: EndValues,
    pub bounds: BoundValues,
    pub exempt: ExemptValues,
    pub events: EventValues,
    pub ghost few_stalls: { length exempt.stalls.items ≤ spec.most_stalls bounds.unit },
}

impl SpanValues {
    ghost use Rattle.block_config.specs.SpanView.{values_view};

    /// The load of the program that a machine runs.
    fn load_of<'a>(
        loads: &[LoadedProgram<'a>],
        machine: &Option<MachineSetup>,
    ) -> Option<LoadedProgram<'a>>
        ensures { option_map loaded_of result
            ≡ spec.load_of_machine (map loaded_of loads.now)
            (option_map keys_of_machine machine.now) }
    {
        match machine {
            Some(machine) => LoadedProgram::at(loads, machine.start),
            None => None,
        }
    }

    /// The load of the program that the machine of a number runs.
    fn load_for<'a>(
        loads: &[LoadedProgram<'a>],
        machines: &[Option<MachineSetup>; 4],
        machine: u8,
    ) -> Option<LoadedProgram<'a>>
        requires { machine < 4 }
        ensures { option_map loaded_of result
            ≡ spec.load_of_span (map (option_map keys_of_machine) machines.now) (map loaded_of loads.now) machine }
    {
        Self::load_of(loads, &machines[usize::from(machine)])
    }

    /// The values of a table whose keys are known.
    fn read(
        table: &Table,
        machines: &[Option<MachineSetup>; 4],
        loads: &[LoadedProgram],
    ) -> Result<Self, Lack>
        ensures { seen values_view result
            ≡ spec.values_at (map (option_map keys_of_machine) machines.now)
            (map loaded_of loads.now) (table_view table.now) }
    {
        let ends = EndValues::read(table, machines)?;
        let bounds = BoundValues::read(table)?;
        let load = Self::load_for(loads, machines, ends.machine);
        let exempt = ExemptValues::read(table, bounds.unit, load)?;
        let events = EventValues::read(table, load)?;
        Ok(SpanValues {
            ends,
            bounds,
            exempt,
            events,
        })
    }

    /// The span of this name, with what the table at a place assumes.
    fn assuming(
        &self,
        alloc: Global,
        name: &str,
        place: usize,
        table: &Table,
        load: Option<LoadedProgram>,
    ) -> Result<Span, ConfigFault>
        requires { IsTrue (is_span_name name.now) }
        ensures { Gives told keys_of_span result
            (and_then (assume.assume_at place (option_map loaded_of load.entry) (table_view table.now))
            (λ all. Ok (spec.span_keys_of name.now (values_view self.now) all))) }
    {
        let assume = assume_at(alloc, place, table, load)?;
        self.span(alloc, name, assume)
    }

    /// The span of this name; none only where memory runs out.
    #[tactic(auto, using(crate::proofs::SpansInRange::few_in_ticks))]
    fn span(&self, alloc: Global, name: &str, assume: Assumptions) -> Result<Span, ConfigFault>
        requires { IsTrue (is_span_name name.now) }
        ensures { Gives told keys_of_span result (Ok (spec.span_keys_of name.now (values_view self.now) assume)) }
    {
        let text = name.to_string(alloc)?;
        let stalls = addresses_of(alloc, &self.exempt.stalls)?;
        let without = addresses_of(alloc, &self.exempt.without)?;
        let from_at = addresses_of(alloc, &self.events.from_at)?;
        let to_at = addresses_of(alloc, &self.events.to_at)?;
        Ok(Span {
            name: Name::new(text),
            machine: self.ends.machine,
            from_pin: self.ends.from_pin,
            from_signal: self.ends.from_edge.signal,
            from_rise: self.ends.from_edge.rise,
            to_pin: self.ends.to_pin,
            to_signal: self.ends.to_edge.signal,
            to_rise: self.ends.to_edge.rise,
            unit: self.bounds.unit,
            min: self.bounds.min,
            max: self.bounds.max,
            stalls,
            prompt: self.exempt.prompt,
            without,
            from_at,
            to_at,
            assume,
        })
    }
}

/// The addresses of labels.
fn addresses_of(alloc: Global, labels: &ArrayVec<u8, 16>) -> Result<Addresses, ConfigFault>
    requires { IsTrue (are_addresses labels.now.items) }
    ensures { Gives told (λ a. a) result (Ok labels.now.items) }
{
    let addresses = labels.as_slice().to_vec(alloc)?;
    match Addresses::new(addresses) {
        Some(addresses) => Ok(addresses),
        None => Ok(Addresses::empty(alloc)),
    }
}

/// From where to where a span goes.
#[derive(Clone, Copy)]
pub struct EndValues {
    pub machine: u8,
    pub from_pin: u8,
    pub to_pin: u8,
    pub from_edge: Edge,
    pub to_edge: Edge,
    pub ghost machine_in_block: { machine < 4 },
    pub ghost from_pin_is_a_pin: { from_pin < 32 },
    pub ghost to_pin_is_a_pin: { to_pin < 32 },
}

impl EndValues {
    ghost use Rattle.block_config.specs.SpanView.{ends_view};

    /// The machine, which has to be configured.
    fn machine(table: &Table, machines: &[Option<MachineSetup>; 4]) -> Result<u8, Lack>
        ensures value { seen (λ n. n) result
            ≡ spec.machine_at (map (option_map keys_of_machine) machines.now)
            (table_view table.now) }
        ensures in_block { IfOk result (λ n. n < 4) }
    {
        let id = number_at(table, &keys::SPAN_MACHINE)? as u8;
        if machines[usize::from(id)].is_some() {
            Ok(id)
        } else {
            Err(Lack {
                key: keys::MACHINE,
                kind: ConfigKind::NoProgram,
            })
        }
    }

    /// The machine, the pins and the edges of a table, or no pin and no edge of an event that needs none.
    fn read(table: &Table, machines: &[Option<MachineSetup>; 4]) -> Result<Self, Lack>
        ensures { seen ends_view result
            ≡ spec.ends_at (map (option_map keys_of_machine) machines.now) (table_view table.now) }
    {
        let machine = Self::machine(table, machines)?;
        let from_pin = pin_at(table, &keys::FROM_EVENT)?;
        let to_pin = pin_at(table, &keys::TO_EVENT)?;
        let from_edge = edge_at(table, &keys::FROM_EVENT)?;
        let to_edge = edge_at(table, &keys::TO_EVENT)?;
        Ok(EndValues {
            machine,
            from_pin,
            to_pin,
            from_edge,
            to_edge,
        })
    }
}

/// How long a span lasts.
#[derive(Clone, Copy)]
pub struct BoundValues {
    pub unit: SpanUnit,
    pub min: u32,
    /// `None` where there is no greatest bound.
    pub max: Option<u32>,
    pub ghost ordered: { ForSome max (λ m. min ≤ m) },
    pub ghost min_fits: { min < 2 ^ 24 },
    pub ghost bounded: { ForSome max (λ m. m < 2 ^ 24) },
}

impl BoundValues {
    ghost use Rattle.block_config.specs.SpanView.{bounds_view};

    /// What the bounds count.
    fn unit(table: &Table) -> Result<SpanUnit, Lack>
        ensures { seen (λ u. u) result ≡ spec.unit_at (table_view table.now) }
    {
        match Self::unit_of(value_at(table, keys::UNIT)) {
            Ok(unit) => Ok(unit),
            Err(kind) => Err(Lack {
                key: keys::UNIT,
                kind,
            }),
        }
    }

    /// The unit that a value names.
    fn unit_of(value: Option<&Value>) -> Result<SpanUnit, ConfigKind>
        ensures { result
            ≡ and_then (text_of (option_map (λ v. view v.now) value.entry)) spec.unit_of }
    {
        let Some(word) = text_of(value)? else {
            return Ok(SpanUnit::Ticks);
        };
        if word == "ticks" {
            Ok(SpanUnit::Ticks)
        } else if word == "clocks" {
            Ok(SpanUnit::Clocks)
        } else {
            Err(ConfigKind::Range)
        }
    }

    /// The greatest bound of a table, if there is one.
    fn most(table: &Table) -> Result<Option<u32>, Lack>
        ensures value { seen (λ m. m) result ≡ spec.most_at (table_view table.now) }
        ensures high { IfOk result (λ most. IfSome most (λ m. m ≤ 16777215)) }
    {
        match Self::most_of(value_at(table, keys::MAX)) {
            Ok(most) => Ok(most),
            Err(kind) => Err(Lack {
                key: keys::MAX,
                kind,
            }),
        }
    }

    /// The greatest bound that a value is: a number, or `inf` for none.
    fn most_of(value: Option<&Value>) -> Result<Option<u32>, ConfigKind>
        ensures value { result ≡ spec.most_of (option_map (λ v. view v.now) value.entry) }
        ensures high { IfOk result (λ most. IfSome most (λ m. m ≤ 16777215)) }
    {
        match value {
            None => Err(ConfigKind::Missing),
            Some(value) if is_endless(value.as_float()) => Ok(None),
            Some(value) => Ok(Some(number_in(0, 16_777_215, value)?)),
        }
    }

    /// The unit and the bounds of a table.
    fn read(table: &Table) -> Result<Self, Lack>
        ensures { seen bounds_view result ≡ spec.bounds_at (table_view table.now) }
    {
        let unit = Self::unit(table)?;
        let min = number_at(table, &keys::SPAN_MIN)?;
        match Self::most(table)? {
            None => Ok(BoundValues {
                unit,
                min,
                max: None,
            }),
            Some(max) => Self::in_order(unit, min, max),
        }
    }

    /// Both bounds, of which the greatest isn't below the least.
    fn in_order(unit: SpanUnit, min: u32, max: u32) -> Result<Self, Lack>
        requires { max ≤ 16777215 }
        ensures { seen bounds_view result ≡ spec.ordered (record { unit = unit; least = min; most = Some max }) }
    {
        if max < min {
            return Err(Lack {
                key: keys::MAX,
                kind: ConfigKind::Range,
            });
        }
        Ok(BoundValues {
            unit,
            min,
            max: Some(max),
        })
    }
}

/// Which stalls don't count, and of which from-edges nothing is said.
#[derive(Drop)]
pub struct ExemptValues {
    pub stalls: ArrayVec<u8, 16>,
    pub prompt: bool,
    pub without: ArrayVec<u8, 16>,
    pub ghost stalls_in_memory: { IsTrue (are_addresses stalls.items) },
    pub ghost without_in_memory: { IsTrue (are_addresses without.items) },
}

impl ExemptValues {
    ghost use Rattle.block_config.specs.SpanView.{exempt_view};

    /// What of a table is exempt, at labels of the program that is loaded so.
    fn read(table: &Table, unit: SpanUnit, load: Option<LoadedProgram>) -> Result<Self, Lack>
        ensures value { seen exempt_view result
            ≡ spec.exempt_at unit (option_map loaded_of load.entry) (table_view table.now) }
        ensures few_stalls { IfOk result (λ e. length e.stalls.items ≤ spec.most_stalls unit) }
    {
        let stalls = labels_at(table, keys::STALLS, 0, most_stalls(unit), load)?;
        let prompt = flag_at(table, &keys::SPAN_PROMPT)?;
        let without = labels_at(table, keys::WITHOUT, 0, 16, load)?;
        Ok(ExemptValues {
            stalls,
            prompt,
            without,
        })
    }
}

/// How many stalls a span may name.
fn most_stalls(unit: SpanUnit) -> usize
    ensures { result ≡ spec.most_stalls unit }
{
    match unit {
        SpanUnit::Ticks => 16,
        SpanUnit::Clocks => 0,
    }
}

/// The instructions that the two events name.
#[derive(Drop)]
pub struct EventValues {
    pub from_at: ArrayVec<u8, 16>,
    pub to_at: ArrayVec<u8, 16>,
    pub ghost from_in_memory: { IsTrue (are_addresses from_at.items) },
    pub ghost to_in_memory: { IsTrue (are_addresses to_at.items) },
}

impl EventValues {
    ghost use Rattle.block_config.specs.SpanView.{events_view};

    /// The instructions of a table's events, at labels of the program that is loaded so.
    fn read(table: &Table, load: Option<LoadedProgram>) -> Result<Self, Lack>
        ensures { seen events_view result
            ≡ spec.events_at (option_map loaded_of load.entry) (table_view table.now) }
    {
        let from_makers = makers_at(table, &keys::FROM_EVENT, load)?;
        let to_makers = makers_at(table, &keys::TO_EVENT, load)?;
        let from_enders = enders_at(table, &keys::FROM_EVENT, load)?;
        let to_enders = enders_at(table, &keys::TO_EVENT, load)?;
        Ok(EventValues {
            from_at: named_by(from_makers, from_enders),
            to_at: named_by(to_makers, to_enders),
        })
    }
}

/// The instructions of an event, of which one list is empty.
fn named_by(makers: ArrayVec<u8, 16>, enders: ArrayVec<u8, 16>) -> ArrayVec<u8, 16>
    requires makers { IsTrue (are_addresses makers.items) }
    requires enders { IsTrue (are_addresses enders.items) }
    ensures value { result.items ≡ spec.named_by makers.items enders.items }
    ensures in_memory { IsTrue (are_addresses result.items) }
{
    if enders.is_empty() { makers } else { enders }
}

/// Whether a float is TOML's `inf`.
fn is_endless(float: Option<f64>) -> bool
    ensures { result ≡ spec.is_endless float }
{
    match float {
        Some(float) => float.is_infinite() && float.is_sign_positive(),
        None => false,
    }
}
