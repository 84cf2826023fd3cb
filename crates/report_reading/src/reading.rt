// A whole report.

ghost use Rattle.std.specs.Prelude.{◌≡◌, ◌<◌, ◌++◌, ◌∷◌, [], ℕ, true, length, IfOk, IfErr};
ghost use Rattle.clv_base.specs.Folding.{IsRising};
ghost use Rattle.report_reading.specs.Texts.{Line as LineType, CanBeReported, IsReport, can_stand, lines_of};
ghost use Rattle.report_reading.specs.Faults.{IsFault, cut};
ghost use Rattle.report_reading.specs.Reading.{CanStand, Comes, HasPlace, IsLast, Tells, is_above, lines_so_far, so_far};

use crate::Memory;
use crate::lines::line_in;
use crate::told::{Line, Reported, ReportedTx, Taken, Transactions};
use clv_base::lists::Pairs;
use clv_base::values::Value;
use script_lang::{MOST_BYTES, parted};
use session_books::counts::Counts;
use std::alloc::Global;
use std::marker::Model;

/// Why bytes aren't the text of a report.
#[derive(Clone, Copy, PartialEq, Eq)]
pub enum ReadError {
    /// This line, counted from 1, is the first after which no report goes on; 0 where there are too many bytes.
    Text { line: u64 },
    /// There was no memory.
    Memory,
}

// What the lines so far tell.
#[derive(Drop)]
struct SoFar {
    pairs: Vec<(u64, Value)>,
    txs: Vec<ReportedTx>,
}

impl Model for SoFar {
    ghost use Rattle.report_reading.specs.Reading.{SoFar, CanStand, so_far};

    ghost Value = { SoFar };

    ghost view = { λ s. so_far s.pairs.items s.txs.items };

    ghost invariant = { λ s. CanStand (so_far s.pairs.items s.txs.items) };
}

// What a line tells, with its line feed.
fn told_by(alloc: Global, line: &[u8]) -> Result<Option<Line>, Memory>
    ensures { IfOk result (λ found. Tells line.now found) }
{
    match line {
        [text @ .., b'\n'] => line_in(alloc, text),
        _ => Ok(None),
    }
}

// The first line of what isn't empty, and what is behind it.
fn cut_line(bytes: &[u8]) -> (&[u8], &[u8])
    requires { 0 < length bytes.now }
    ensures cut { cut bytes.now ≡ result.0.now ∷ cut result.1.now }
    ensures shorter { length result.1.now < length bytes.now }
{
    match parted(bytes, b'\n') {
        Some((line, behind)) => (&bytes[..line.len() + 1], behind),
        None => (bytes, &[]),
    }
}

// Whether a key is above those of all pairs, which rise.
fn rises_to(pairs: &[(u64, Value)], key: u64) -> bool
    requires { IsRising pairs.now }
    ensures { result ≡ is_above key pairs.now }
{
    match pairs.last() {
        Some(last) => last.0 < key,
        None => true,
    }
}

impl SoFar {
    fn new(alloc: Global) -> SoFar
        ensures { result ≡ so_far [] [] }
    {
        SoFar {
            pairs: Vec::new(alloc),
            txs: Vec::new(alloc),
        }
    }

    // One more pair stands before all transactions, and has the greatest key.
    fn add_pair(&mut self, key: u64, value: Value) -> Result<Taken, Memory>
        requires { can_stand (LineType.Pair key value) ≡ true }
        ensures { IfOk result (λ taken. HasPlace self.old self.new (LineType.Pair key value) taken) }
    {
        if !self.txs.is_empty() {
            return Ok(Taken::Nowhere);
        }
        if !rises_to(&self.pairs, key) {
            return Ok(Taken::Nowhere);
        }
        self.pairs.push((key, value))?;
        Ok(Taken::Goes)
    }

    fn add_tx(&mut self, tx: ReportedTx) -> Result<Taken, Memory>
        requires { can_stand (LineType.Tx tx) ≡ true }
        ensures { IfOk result (λ taken. HasPlace self.old self.new (LineType.Tx tx) taken) }
    {
        self.txs.push(tx)?;
        Ok(Taken::Goes)
    }

    // The counts come last, where they count these transactions.
    fn end(&self, counts: Counts) -> Taken
        requires { can_stand (LineType.Sums counts) ≡ true }
        ensures { HasPlace self.now self.now (LineType.Sums counts) result }
    {
        if counts.acknowledged == self.txs.len() as u64 {
            Taken::Ends(counts)
        } else {
            Taken::Nowhere
        }
    }

    fn take(&mut self, line: Line) -> Result<Taken, Memory>
        requires { can_stand line ≡ true }
        ensures { IfOk result (λ taken. HasPlace self.old self.new line taken) }
    {
        match line {
            Line::Pair(key, value) => self.add_pair(key, value),
            Line::Tx(tx) => self.add_tx(tx),
            Line::Sums(counts) => Ok(self.end(counts)),
        }
    }

    // A line, with its line feed.
    fn read(&mut self, alloc: Global, line: &[u8]) -> Result<Taken, Memory>
        ensures { IfOk result (λ taken. Comes self.old self.new line.now taken) }
    {
        self.stands();
        match told_by(alloc, line)? {
            Some(told) => self.take(told),
            None => Ok(Taken::Nowhere),
        }
    }

    // A law: these lines may stand.
    fn stands(&self)
        ensures { CanStand self.now }
    {
        let _ = &self.pairs;
    }

    // The report that ends with these counts.
    fn ended(self, counts: Counts) -> Reported
        requires { IsLast self counts }
        ensures lines { lines_of result ≡ lines_so_far self ++ LineType.Sums counts ∷ [] }
        ensures can { CanBeReported result }
    {
        let SoFar { pairs, txs } = self;
        Reported {
            pairs: Pairs::new(pairs),
            txs: Transactions::new(txs),
            unsettled: counts.unsettled,
            aborted: counts.aborted,
        }
    }
}

/// What a report tells, or the first line after which no report goes on. Takes time linear in the bytes.
pub fn read_report(alloc: Global, bytes: &[u8]) -> Result<Reported, ReadError>
    ensures report { IfOk result (λ r. IsReport bytes.now r) }
    ensures fault { IfErr result (λ error. (line : ℕ) → error ≡ ReadError.Text line → IsFault bytes.now line) }
{
    if bytes.len() > MOST_BYTES {
        return Err(ReadError::Text { line: 0 });
    }
    let mut told = SoFar::new(alloc);
    let mut rest = bytes;
    let mut number: u64 = 0;
    while !rest.is_empty() {
        let (line, behind) = cut_line(rest);
        number += 1;
        told.stands();
        match told.read(alloc, line) {
            Ok(Taken::Goes) => {}
            Ok(Taken::Ends(counts)) => {
                if behind.is_empty() {
                    return Ok(told.ended(counts));
                }
                return Err(ReadError::Text { line: number + 1 });
            }
            Ok(Taken::Nowhere) => return Err(ReadError::Text { line: number }),
            Err(_) => return Err(ReadError::Memory),
        }
        rest = behind;
    }
    told.stands();
    Err(ReadError::Text { line: number + 1 })
}
