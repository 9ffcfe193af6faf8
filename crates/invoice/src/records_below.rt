// The records as they stand in the memory below a window.
use anyhow::{Context, bail};
use memory::{Fault, Memory};
use records::{read_prices, readable, total};
use units::LINE;

// The total of the first records, read one by one.
pub(crate) fn records_total<M: Memory>(
    rt: &HostRuntime,
    memory: &mut M,
    count: u32,
) -> anyhow::Result<u128>
    requires { M.coherent memory.old }
    ensures { M.coherent memory.new }
{
    let readings = read_prices(rt.alloc(), memory, count)?;
    total(&readings).context("the records were not read")
}

// All bytes of a record.
pub(crate) fn read_record<M: Memory>(memory: &mut M, record: u32) -> anyhow::Result<[u8; 128]>
    requires { M.coherent memory.old }
    ensures { M.coherent memory.new }
{
    let mut bytes = [0; LINE as usize];
    memory
        .read(u64::from(record) * LINE, &mut bytes)
        .context("the record was not read")?;
    Ok(bytes)
}

// Shows that the column has no total, since a record is refused just so, and how many still read. Any other answer is an error.
pub(crate) fn show_refused_total<M: Memory>(
    rt: &HostRuntime,
    memory: &mut M,
    count: u32,
    due: Fault,
) -> anyhow::Result<()>
    requires { M.coherent memory.old }
    ensures { M.coherent memory.new }
{
    let readings = read_prices(rt.alloc(), memory, count)?;
    let good = readable(&readings);
    match total(&readings) {
        Err(fault) if fault == due => {
            println!(rt; "  the records: no total: {fault}; {good} of {count} still read")?;
        }
        Err(other) => bail!("the column was refused otherwise: {other}"),
        Ok(_) => bail!("the column was not refused"),
    }
    Ok(())
}
