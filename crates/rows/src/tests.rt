// What each row needs to be tried.

ghost use Rattle.std.specs.Prelude.{◌≡◌, ◌<◌, ℕ, false};
ghost use Rattle.io_model.specs.Sides.{sides_out};

use crate::row::{Given, Row};
use crate::{broken, faults, loading, making, opening, running, serving};
use clv_commands::run;
use disk_memory::{MemoryDisk, MemoryHouse};
use io_model::{House, MemorySink, MemorySource, NoPace};
use std::alloc::{AllocError, Global};
use std::sync::Wait;
use std::thread::Threads;

const ROOM: usize = 65536;

// What each side of a shard holds.
fn bytes_of(
    alloc: Global,
    house: &MemoryHouse,
    shard: u32,
    side: u32,
    given: Given,
) -> Result<Vec<u8>, AllocError>
    requires { shard < 16 }
{
    match given {
        Given::Bytes(bytes) if side == 0 => bytes.to_vec(alloc),
        Given::Bytes(_) => Ok(Vec::new(alloc)),
        Given::Both(bytes, _) if side == 0 => bytes.to_vec(alloc),
        Given::Both(_, bytes) => bytes.to_vec(alloc),
        Given::Image(choice) => match house.disk(shard, side) {
            Some(disk) => disk.image(alloc, choice),
            None => Err(AllocError),
        },
    }
}

// A disk of these bytes.
fn disk_of(alloc: Global, bytes: &[u8], failing: &[u64]) -> Result<MemoryDisk, AllocError> {
    if bytes.len() > ROOM {
        return Err(AllocError);
    }
    MemoryDisk::new(alloc, bytes, failing, u64::MAX, ROOM as u64)
}

// Puts both sides of a shard into their places.
fn put_both(house: &mut MemoryHouse, shard: u32, first: MemoryDisk, second: MemoryDisk)
    requires shard { shard < 16 }
    requires inside { (n : ℕ) → n < 16 → sides_out (⟦<MemoryHouse as House>⟧.is_out house.old) n ≡ (false, false) }
    ensures inside { (n : ℕ) → n < 16 → sides_out (⟦<MemoryHouse as House>⟧.is_out house.new) n ≡ (false, false) }
{
    house.put(shard, 0, first);
    house.put(shard, 1, second);
}

// The same, of what is given.
fn put(
    alloc: Global,
    house: &mut MemoryHouse,
    shard: u32,
    given: Given,
    failing: &[u64],
) -> Result<(), AllocError>
    requires { (n : ℕ) → n < 16 → sides_out (⟦<MemoryHouse as House>⟧.is_out house.old) n ≡ (false, false) }
    ensures { (n : ℕ) → n < 16 → sides_out (⟦<MemoryHouse as House>⟧.is_out house.new) n ≡ (false, false) }
{
    if shard < 16 {
        let first = disk_of(alloc, &bytes_of(alloc, house, shard, 0, given)?, failing)?;
        let second = disk_of(alloc, &bytes_of(alloc, house, shard, 1, given)?, &[])?;
        put_both(house, shard, first, second);
    }
    Ok(())
}

// Puts all sides of the row into their places.
fn put_all(alloc: Global, row: &Row, house: &mut MemoryHouse) -> Result<(), AllocError>
    requires { (n : ℕ) → n < 16 → sides_out (⟦<MemoryHouse as House>⟧.is_out house.old) n ≡ (false, false) }
    ensures { (n : ℕ) → n < 16 → sides_out (⟦<MemoryHouse as House>⟧.is_out house.new) n ≡ (false, false) }
{
    for (shard, given) in row.disks {
        put(alloc, house, *shard, *given, row.failing[0])?;
    }
    Ok(())
}

// The lines of one live session in an output, each without its first byte.
fn lines_of(alloc: Global, output: &[u8], session: u8) -> Result<Vec<u8>, AllocError> {
    let mut lines = Vec::new(alloc);
    let mut begun = 0u8;
    let mut is_its = false;
    for byte in output {
        if begun == 1 {
            is_its = *byte == session;
        }
        if begun > 0 && is_its {
            lines.push(*byte)?;
        }
        begun = match (*byte, begun) {
            (b'\n', _) => 0,
            (_, 0) => 1,
            _ => 2,
        };
    }
    Ok(lines)
}

// Whether it wrote what the row says.
fn is_written(alloc: Global, row: &Row, output: &[u8]) -> Result<bool, AllocError> {
    if row.meeting.is_empty() {
        return Ok(output == row.text);
    }
    for session in row.meeting {
        let found = lines_of(alloc, output, *session)?;
        let wanted = lines_of(alloc, row.text, *session)?;
        if found.as_slice() != wanted.as_slice() {
            return Ok(false);
        }
    }
    Ok(output.len() == row.text.len())
}

// Whether the run ends as the row says, and writes what it says.
fn ends<R: Threads + Wait + Sync>(
    rt: &R,
    alloc: Global,
    row: &Row,
    house: &mut MemoryHouse,
) -> Result<bool, AllocError>
    requires { (n : ℕ) → n < 16 → sides_out (⟦<MemoryHouse as House>⟧.is_out house.old) n ≡ (false, false) }
    ensures { (n : ℕ) → n < 16 → sides_out (⟦<MemoryHouse as House>⟧.is_out house.new) n ≡ (false, false) }
{
    let mut source = MemorySource::new(alloc, row.script, 7, row.failing[1])?;
    let mut sink = MemorySink::new(alloc, ROOM, 5, row.failing[2])?;
    let status = run(rt, alloc, row.words, &mut source, &mut sink, house, &NoPace).status;
    Ok(status == row.status && is_written(alloc, row, sink.taken())?)
}

// Whether the first sides are as the row says.
fn is_left(row: &Row, house: &MemoryHouse) -> bool {
    let mut shard = 0u32;
    for len in row.lengths {
        if shard >= 16
            || !house
                .disk(shard, 0)
                .is_some_and(|disk| disk.bytes().len() == *len)
        {
            return false;
        }
        shard += 1;
    }
    row.bytes.is_empty()
        || house
            .disk(0, 0)
            .is_some_and(|disk| disk.bytes() == row.bytes)
}

// Tries a row.
fn try_row<R: Threads + Wait + Sync>(
    rt: &R,
    alloc: Global,
    row: &Row,
    house: &mut MemoryHouse,
) -> Result<bool, AllocError>
    requires { (n : ℕ) → n < 16 → sides_out (⟦<MemoryHouse as House>⟧.is_out house.old) n ≡ (false, false) }
    ensures { (n : ℕ) → n < 16 → sides_out (⟦<MemoryHouse as House>⟧.is_out house.new) n ≡ (false, false) }
{
    put_all(alloc, row, house)?;
    Ok(ends(rt, alloc, row, house)? && is_left(row, house))
}

// What the first row of the table shows that isn't so.
fn try_all<R: Threads + Wait + Sync>(
    rt: &R,
    alloc: Global,
    rows: &[Row],
) -> Result<(), &'static str> {
    let Ok(mut house) = MemoryHouse::new(alloc) else {
        return Err("no memory");
    };
    for row in rows {
        match try_row(rt, alloc, row, &mut house) {
            Ok(true) => {}
            _ => return Err(row.shows),
        }
    }
    Ok(())
}

#[test]
fn each_row_is_so(rt: HostRuntime) -> Result<(), &'static str> {
    let tables = [
        making::rows(),
        running::rows(),
        broken::rows(),
        opening::rows(),
        faults::rows(),
        loading::rows(),
        serving::rows(),
    ];
    for rows in tables {
        try_all(&rt, rt.alloc(), rows)?;
    }
    Ok(())
}
