//! The values of what is inside a block, by their names in a row: `pads`, all together, and `sm0.pc` and its kin of a
//! machine.
use crate::lines::up_to;
use block_core::{Inside, MachineInside};

/// The value of a name; none where it is of nothing, or of a machine that isn't configured.
pub fn value_inside(name: &str, inside: &Inside) -> Option<u32> {
    if name == "pads" {
        return Some(inside.pads);
    }
    let (place, value) = name.strip_prefix("sm")?.split_once('.')?;
    let machine = *inside.machines.get(usize::from(up_to(3, place)?))?;
    value_of_inside(value, &machine?)
}

fn value_of_inside(name: &str, machine: &MachineInside) -> Option<u32> {
    match name {
        "pc" => Some(u32::from(machine.pc)),
        "instruction" => Some(u32::from(machine.instruction)),
        "x" => Some(machine.x),
        "y" => Some(machine.y),
        "isr" => Some(machine.isr),
        "osr" => Some(machine.osr),
        "isr_count" => Some(u32::from(machine.isr_count)),
        "osr_count" => Some(u32::from(machine.osr_count)),
        "waits" => Some(u32::from(machine.waits)),
        "enabled" => Some(u32::from(machine.enabled)),
        _ => None,
    }
}
