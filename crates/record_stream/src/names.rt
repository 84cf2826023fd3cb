// Names of transactions of which the bytes may end too early.

ghost use Rattle.std.specs.Prelude.{◌≡◌, ◌≤◌, ◌<◌, ◌^◌, ◌-◌, IfOk};
ghost use Rattle.record_stream.specs.Naming.{IsName, IsBetween, rank};
ghost use Rattle.record_stream.specs.Scanning.{Gives, skipped, any_name_at as any_at, first_name, last_name as greatest, least_serial as serial_from, least_session as session_from, most_serial as serial_to, most_session as session_to, name_at as name_between_at, next_name as name_after};

use crate::numbers::number_at;
use crate::stop::Stop;
use clv_base::names::TxId;

// The least name of a transaction.
const FIRST: TxId = TxId {
    run: 1,
    session: 1,
    serial: 1,
};

/// The least name of a transaction.
pub fn first_name() -> TxId
    ensures { result ≡ first_name }
{
    FIRST
}

/// The greatest name with so many above it.
pub fn last_name(above: u32) -> TxId
    requires { above < 2 ^ 32 }
    ensures { result ≡ greatest above }
{
    TxId {
        run: u32::MAX,
        session: 64,
        serial: u64::MAX - above as u64,
    }
}

/// The next name above one that isn't the greatest.
pub fn next_name(tx: TxId) -> TxId
    requires name { IsName tx }
    requires below { rank tx < rank (greatest 0) }
    ensures { result ≡ name_after tx }
{
    let TxId {
        run,
        session,
        serial,
    } = tx;
    if serial < u64::MAX {
        return TxId {
            run,
            session,
            serial: serial + 1,
        };
    }
    if session < 64 {
        return TxId {
            run,
            session: session + 1,
            serial: 1,
        };
    }
    TxId {
        run: run + 1,
        session: 1,
        serial: 1,
    }
}

fn least_session(run: u32, least: TxId) -> u32
    ensures { result ≡ session_from run least }
{
    if run == least.run { least.session } else { 1 }
}

fn most_session(run: u32, most: TxId) -> u32
    ensures { result ≡ session_to run most }
{
    if run == most.run { most.session } else { 64 }
}

fn least_serial(run: u32, session: u32, least: TxId) -> u64
    ensures { result ≡ serial_from run session least }
{
    if run == least.run && session == least.session {
        least.serial
    } else {
        1
    }
}

fn most_serial(run: u32, session: u32, most: TxId) -> u64
    ensures { result ≡ serial_to run session most }
{
    if run == most.run && session == most.session {
        most.serial
    } else {
        u64::MAX
    }
}

/// A name from least to most.
#[tactic(auto, unfolding(crate::specs::Scanning::name_at))]
pub fn name_at(bytes: &[u8], least: TxId, most: TxId) -> Result<(TxId, &[u8]), Stop>
    requires least { IsName least }
    requires most { IsName most }
    requires bounds { rank least ≤ rank most }
    ensures is { Gives (λ x. (x.0, x.1.now)) result (name_between_at least most bytes.now) }
    ensures within { IfOk result (λ x. IsBetween least most x.0) }
{
    let (run, rest) = number_at(bytes, 4, least.run as u64, most.run as u64)?;
    let run = run as u32;
    let from = least_session(run, least);
    let to = most_session(run, most);
    let (session, rest) = number_at(rest, 4, from as u64, to as u64)?;
    let session = session as u32;
    let from = least_serial(run, session, least);
    let to = most_serial(run, session, most);
    let (serial, rest) = number_at(rest, 8, from, to)?;
    let tx = TxId {
        run,
        session,
        serial,
    };
    Ok((tx, rest))
}

/// The bytes after any name.
#[tactic(auto, unfolding(crate::specs::Scanning::any_name_at))]
pub fn any_name_at(bytes: &[u8]) -> Result<&[u8], Stop>
    ensures { Gives (λ rest. skipped rest.now) result (any_at bytes.now) }
{
    let (_, rest) = name_at(bytes, FIRST, last_name(0))?;
    Ok(rest)
}
