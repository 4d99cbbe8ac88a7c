//! A file of a command, fetched whole.
ghost use Rattle.std.specs.Prelude.{◌≡◌, ◌≤◌, IfOk, vec_len};
ghost use Rattle.stages.specs.Judged.{limit};
ghost use Rattle.stages.specs.Stages.{KeepsPlan, file_plan};

use fault_lines::{Fault, File};
use pio_edge::{Fetch, Shelf};
use std::alloc::Global;

/// The bytes of a file, if it is within its limit. One byte more than the limit is asked for, so that a longer
/// file is known by its length alone.
pub fn fetch_file<F: Shelf>(
    alloc: Global,
    shelf: &mut F,
    role: File,
    name: &str,
) -> Result<Vec<u8>, Fault>
    ensures plan { KeepsPlan F.Shelf (file_plan role name.now)
        (λ bytes. bytes.items) shelf.old shelf.new result }
    ensures within { IfOk result (λ bytes. vec_len bytes ≤ limit role) }
{
    let most = limit_of(role);
    match shelf.fetch(alloc, name, most + 1) {
        Ok(bytes) if bytes.len() > most => Err(Fault::TooLong(role)),
        Ok(bytes) => Ok(bytes),
        Err(Fetch::Failed) => Err(Fault::Shelf(role)),
        Err(Fetch::Memory) => Err(Fault::Memory),
    }
}

/// How many bytes a file may have.
pub fn limit_of(role: File) -> usize
    ensures value { result ≡ limit role }
    ensures small { result ≤ 33554432 }
{
    match role {
        File::Source | File::Words | File::Config | File::Second => 262_144,
        File::Stimulus => 33_554_432,
        File::Table => 8_388_608,
        File::Send => 65_536,
    }
}
