// The UPDATEs and ADDs that stand, linked by transaction, and what they leave at each key.

ghost use Rattle.std.specs.Prelude.{◌≡◌, ℕ, IfOk, OnOk, if◌then◌else◌, ◌==◌};
ghost use Rattle.log_rules.specs.Writes.{lsn_in, row_in, written_as, write_in, step_of};

use crate::shares::{Crowd, Share, of_one};
use clv_base::changes::{Change, minus, plus};
use clv_base::kept::Kept;
use clv_base::logs::LogRecord;
use clv_base::names::TxId;
use clv_base::values::copy_of;
use std::alloc::{AllocError, Global};
use std::collections::HashMap;
use tx_table::TxTable;

// An UPDATE or ADD, and what stood when it was written.
#[derive(Drop)]
pub struct Write {
    pub lsn: u64,
    pub tx: TxId,
    pub key: u64,
    pub change: Change,
    // Of an UPDATE: the UPDATE below it at its key, and how many ADDs stand between the two. Of an ADD: none.
    pub below: Option<u64>,
    pub adds: u64,
    // The write of its transaction before it.
    pub earlier: Option<u64>,
}

// The links of a write. An LSN is kept as the number above it, 0 for none. There is a row for each record of the log, and options
// would take twice the room.
#[derive(Clone, Copy)]
pub struct Links {
    pub below: u64,
    pub adds: u64,
    pub earlier: u64,
}

// What is kept of a record at its place: of an UPDATE or ADD its links, since all else stands in the record.
#[derive(Clone, Copy)]
pub enum Row {
    Empty,
    Linked(Links),
}

// A write, for those who walk back over a transaction's.
#[derive(Clone, Copy)]
pub struct Step {
    pub key: u64,
    pub is_setting: bool,
    pub earlier: Option<u64>,
}

// What stands at a key: the newest UPDATE, how many ADDs above it, the value that all leave, and whose they are. An ADD stands over an
// UPDATE, and under an UPDATE nothing is undone; so all that an undo may take is the UPDATE on top, or an ADD above it.
#[derive(Drop)]
pub struct Top {
    pub update: Option<u64>,
    pub adds: u64,
    pub value: Kept,
    pub crowd: Crowd,
}

// The writes of a log: the links of each at the place that is its LSN, what stands at each key, and the newest that stands of each
// transaction.
#[derive(Drop)]
pub struct Writes<'a> {
    pub records: &'a [LogRecord],
    pub rows: Vec<Row>,
    pub tops: HashMap<u64, Top>,
    pub newest: TxTable<Option<u64>>,
}

// The LSN that a link names, and the link that names it.
fn lsn_of(link: u64) -> Option<u64>
    ensures { result ≡ lsn_in link }
{
    if link == 0 { None } else { Some(link - 1) }
}

fn link_to(lsn: Option<u64>) -> Result<u64, AllocError>
    ensures { IfOk result (λ link. lsn_in link ≡ lsn) }
{
    match lsn {
        None => Ok(0),
        Some(n) => n.checked_add(1).ok_or(AllocError),
    }
}

// The write of these fields, with its links.
fn linked(lsn: u64, tx: TxId, key: u64, change: Change, links: Links) -> Write
    ensures { result ≡ written_as lsn tx key change links }
{
    Write {
        lsn,
        tx,
        key,
        change,
        below: lsn_of(links.below),
        adds: links.adds,
        earlier: lsn_of(links.earlier),
    }
}

// The write that the record at this LSN is, by its row.
fn read_row(lsn: u64, row: Row, record: &LogRecord) -> Option<Write>
    ensures { result ≡ write_in lsn row record.now }
{
    let Row::Linked(links) = row else {
        return None;
    };
    match record {
        LogRecord::Update {
            tx,
            key,
            before,
            after,
        } => {
            let change = Change::Sets(copy_of(before), copy_of(after));
            Some(linked(lsn, *tx, *key, change, links))
        }
        LogRecord::Add { tx, key, by } => Some(linked(lsn, *tx, *key, Change::Adds(*by), links)),
        _ => None,
    }
}

// So its step.
fn read_step(lsn: u64, row: Row, record: &LogRecord) -> Option<Step>
    ensures { result ≡ step_of (write_in lsn row record.now) }
{
    let Row::Linked(links) = row else {
        return None;
    };
    let earlier = lsn_of(links.earlier);
    match record {
        LogRecord::Update { key, .. } => Some(Step {
            key: *key,
            is_setting: true,
            earlier,
        }),
        LogRecord::Add { key, .. } => Some(Step {
            key: *key,
            is_setting: false,
            earlier,
        }),
        _ => None,
    }
}

// The row at a place.
fn row_at(rows: &[Row], at: usize) -> Row
    ensures { result ≡ row_in rows.now at }
{
    if at < rows.len() {
        rows[at]
    } else {
        Row::Empty
    }
}

// A row at a place, and no write at those before it that weren't there yet.
fn put_row(rows: &mut Vec<Row>, at: usize, row: Row) -> Result<(), AllocError>
    ensures { OnOk result ((k : ℕ) → row_in rows.new.items k ≡ (if at == k then row else row_in rows.old.items k)) }
{
    let Some(end) = at.checked_add(1) else {
        return Err(AllocError);
    };
    if rows.len() < end {
        rows.resize(end, Row::Empty)?;
    }
    rows[at] = row;
    Ok(())
}

impl Top {
    ghost use Rattle.std.specs.Prelude.{◌≡◌, [], None, OnOk};
    ghost use Rattle.clv_base.specs.Logs.{changed, unchanged, is_setting as sets};
    ghost use Rattle.log_rules.specs.Shares.{crowd_of, with_share, without_share};
    ghost use Rattle.log_rules.specs.Writes.{top_after, adds_after, top_before, adds_before};

    // Of a key's first write.
    fn of_first(lsn: u64, tx: TxId, change: &Change) -> Top
        ensures update { result.update ≡ top_after change.now lsn None }
        ensures adds { result.adds ≡ adds_after change.now 0 }
        ensures value { result.value ≡ changed change.now None }
        ensures crowd { crowd_of result.crowd ≡ with_share tx (sets change.now) [] }
    {
        match change {
            Change::Sets(_, after) => Top {
                update: Some(lsn),
                adds: 0,
                value: Kept::new(copy_of(after)),
                crowd: Crowd::One(of_one(tx, true)),
            },
            Change::Adds(_) => Top {
                update: None,
                adds: 1,
                value: Kept::new(None),
                crowd: Crowd::One(of_one(tx, false)),
            },
        }
    }

    // With one write more.
    fn push(&mut self, alloc: Global, lsn: u64, tx: TxId, change: &Change) -> Result<(), AllocError>
        ensures update { OnOk result (self.new.update ≡ top_after change.now lsn self.old.update) }
        ensures adds { OnOk result (self.new.adds ≡ adds_after change.now self.old.adds) }
        ensures value { OnOk result (self.new.value ≡ changed change.now self.old.value) }
        ensures crowd { OnOk result (crowd_of self.new.crowd ≡ with_share tx (sets change.now) (crowd_of self.old.crowd)) }
    {
        match change {
            Change::Sets(_, after) => {
                self.update = Some(lsn);
                self.adds = 0;
                self.value = Kept::new(copy_of(after));
                self.crowd.add(alloc, tx, true)
            }
            Change::Adds(by) => {
                self.adds = self.adds.checked_add(1).ok_or(AllocError)?;
                self.value = Kept::new(plus(&self.value.value(), *by));
                self.crowd.add(alloc, tx, false)
            }
        }
    }

    // Without a write of the transaction: the UPDATE on top, or an ADD above it.
    fn pop(&mut self, tx: TxId, write: &Write)
        ensures update { self.new.update ≡ top_before write.now write.now.change self.old.update }
        ensures adds { self.new.adds ≡ adds_before write.now write.now.change self.old.adds }
        ensures value { self.new.value ≡ unchanged write.now.change self.old.value }
        ensures crowd { crowd_of self.new.crowd ≡ without_share tx (sets write.now.change) (crowd_of self.old.crowd) }
    {
        match &write.change {
            Change::Sets(before, _) => {
                self.update = write.below;
                self.adds = write.adds;
                self.value = Kept::new(copy_of(before));
                self.crowd.take(tx, true);
            }
            Change::Adds(by) => {
                self.adds = self.adds.saturating_sub(1);
                self.value = Kept::new(minus(&self.value.value(), *by));
                self.crowd.take(tx, false);
            }
        }
    }
}

impl<'a> Writes<'a> {
    ghost use Rattle.std.specs.Prelude.{◌≡◌, ℕ, true, None, Some, [], IfOk, OnOk, if◌then◌else◌, ◌==◌};
    ghost use Rattle.clv_base.specs.declared.names.TxId.{TxId as Tx};
    ghost use Rattle.clv_base.specs.Orders.{tx_same};
    ghost use Rattle.clv_base.specs.Logs.{changed, unchanged, is_setting as sets};
    ghost use Rattle.log_rules.specs.Shares.{with_share, without_share, without};
    ghost use Rattle.log_rules.specs.Writes.{write_at, step_at, top_at, adds_at, value_at, shares_at, is_there, newest_by, row_in, written_as, linked_over, top_after, adds_after, top_before, adds_before, PushesAt, Pops, Settles};

    // Of no write, with room for those of this log.
    pub fn new(alloc: Global, records: &'a [LogRecord]) -> Result<Self, AllocError>
        ensures records { IfOk result (λ w. w.records.now ≡ records.now) }
        ensures rows { IfOk result (λ w. (k : ℕ) → write_at w (Some k) ≡ None) }
        ensures tops { IfOk result (λ w. (k : ℕ) → (top_at w k ≡ None) × (adds_at w k ≡ 0) × (value_at w k ≡ None) × (shares_at w k ≡ [])) }
        ensures newest { IfOk result (λ w. (t : Tx) → newest_by w t ≡ None) }
    {
        Ok(Writes {
            records,
            rows: Vec::with_capacity(alloc, records.len())?,
            tops: HashMap::new(alloc),
            newest: TxTable::new(alloc),
        })
    }

    pub fn at(&self, lsn: Option<u64>) -> Option<Write>
        ensures { result ≡ write_at self.now lsn }
    {
        let lsn = lsn?;
        let record = self.records.get(lsn as usize)?;
        read_row(lsn, row_at(&self.rows, lsn as usize), record)
    }

    pub fn step(&self, lsn: Option<u64>) -> Option<Step>
        ensures { result ≡ step_at self.now lsn }
    {
        let lsn = lsn?;
        let record = self.records.get(lsn as usize)?;
        read_step(lsn, row_at(&self.rows, lsn as usize), record)
    }

    // The LSN of the newest UPDATE that stands at a key.
    pub fn top(&self, key: u64) -> Option<u64>
        ensures { result ≡ top_at self.now key }
    {
        match self.tops.get(&key) {
            Some(top) => top.update,
            None => None,
        }
    }

    // How many ADDs stand above it.
    pub fn adds(&self, key: u64) -> u64
        ensures { result ≡ adds_at self.now key }
    {
        match self.tops.get(&key) {
            Some(top) => top.adds,
            None => 0,
        }
    }

    // The shares at a key.
    pub fn shares(&self, key: u64) -> &[Share]
        ensures { result.now ≡ shares_at self.now key }
    {
        match self.tops.get(&key) {
            Some(top) => top.crowd.as_slice(),
            None => &[],
        }
    }

    // The LSN of the newest write of a transaction that stands.
    pub fn newest_of(&self, tx: TxId) -> Option<u64>
        ensures { result ≡ newest_by self.now tx }
    {
        self.newest.get(tx).unwrap_or(None)
    }

    fn set_row(&mut self, lsn: u64, row: Row) -> Result<(), AllocError>
        ensures rows { OnOk result ((k : ℕ) → row_in self.new.rows.items k ≡ (if lsn == k then row else row_in self.old.rows.items k)) }
        ensures records { self.new.records ≡ self.old.records }
        ensures tops { self.new.tops ≡ self.old.tops }
        ensures newest { self.new.newest ≡ self.old.newest }
    {
        put_row(&mut self.rows, lsn as usize, row)
    }

    fn set_newest(&mut self, tx: TxId, at: Option<u64>) -> Result<(), AllocError>
        ensures newest { OnOk result ((t : Tx) → newest_by self.new t ≡ (if tx_same tx t then at else newest_by self.old t)) }
        ensures records { self.new.records ≡ self.old.records }
        ensures rows { self.new.rows ≡ self.old.rows }
        ensures tops { self.new.tops ≡ self.old.tops }
    {
        if self.newest.room() == 0 {
            self.newest.reserve(1)?;
        }
        self.newest.set(tx, at);
        Ok(())
    }

    // The links of a write that is written now.
    fn links_over(&self, tx: TxId, key: u64, change: &Change) -> Result<Links, AllocError>
        ensures { IfOk result (λ l. (lsn : ℕ) → written_as lsn tx key change.now l ≡ linked_over self.now lsn tx key change.now) }
    {
        let earlier = link_to(self.newest_of(tx))?;
        let Change::Sets(_, _) = change else {
            return Ok(Links {
                below: 0,
                adds: 0,
                earlier,
            });
        };
        match self.tops.get(&key) {
            Some(top) => Ok(Links {
                below: link_to(top.update)?,
                adds: top.adds,
                earlier,
            }),
            None => Ok(Links {
                below: 0,
                adds: 0,
                earlier,
            }),
        }
    }

    // The write stands at its key.
    fn stack(
        &mut self,
        alloc: Global,
        lsn: u64,
        tx: TxId,
        key: u64,
        change: &Change,
    ) -> Result<(), AllocError>
        ensures tops { OnOk result ((k : ℕ) → top_at self.new k ≡ (if key == k then top_after change.now lsn (top_at self.old key) else top_at self.old k)) }
        ensures adds { OnOk result ((k : ℕ) → adds_at self.new k ≡ (if key == k then adds_after change.now (adds_at self.old key) else adds_at self.old k)) }
        ensures values { OnOk result ((k : ℕ) → value_at self.new k ≡ (if key == k then changed change.now (value_at self.old key) else value_at self.old k)) }
        ensures shares { OnOk result ((k : ℕ) → shares_at self.new k ≡ (if key == k then with_share tx (sets change.now) (shares_at self.old key) else shares_at self.old k)) }
        ensures records { self.new.records ≡ self.old.records }
        ensures rows { self.new.rows ≡ self.old.rows }
        ensures newest { self.new.newest ≡ self.old.newest }
    {
        if let Some(top) = self.tops.get_mut(&key) {
            return top.push(alloc, lsn, tx, change);
        }
        self.tops.insert(key, Top::of_first(lsn, tx, change))?;
        Ok(())
    }

    // The transaction's write stands there no more.
    fn unstack(&mut self, tx: TxId, write: &Write)
        ensures tops { is_there self.old write.now.key ≡ true → (k : ℕ) → top_at self.new k ≡ (if write.now.key == k then top_before write.now write.now.change (top_at self.old write.now.key) else top_at self.old k) }
        ensures adds { is_there self.old write.now.key ≡ true → (k : ℕ) → adds_at self.new k ≡ (if write.now.key == k then adds_before write.now write.now.change (adds_at self.old write.now.key) else adds_at self.old k) }
        ensures values { is_there self.old write.now.key ≡ true → (k : ℕ) → value_at self.new k ≡ (if write.now.key == k then unchanged write.now.change (value_at self.old write.now.key) else value_at self.old k) }
        ensures shares { is_there self.old write.now.key ≡ true → (k : ℕ) → shares_at self.new k ≡ (if write.now.key == k then without_share tx (sets write.now.change) (shares_at self.old write.now.key) else shares_at self.old k) }
        ensures records { self.new.records ≡ self.old.records }
        ensures rows { self.new.rows ≡ self.old.rows }
        ensures newest { self.new.newest ≡ self.old.newest }
    {
        if let Some(top) = self.tops.get_mut(&write.key) {
            top.pop(tx, write);
        }
    }

    // The write that is the record at this LSN, on top of those of its key. Its transaction isn't committed.
    pub fn push(
        &mut self,
        alloc: Global,
        lsn: u64,
        tx: TxId,
        key: u64,
        change: &Change,
    ) -> Result<(), AllocError>
        ensures writes { OnOk result (PushesAt self.old self.new lsn tx key change.now) }
        ensures records { self.new.records ≡ self.old.records }
    {
        let links = self.links_over(tx, key, change)?;
        self.set_row(lsn, Row::Linked(links))?;
        self.stack(alloc, lsn, tx, key, change)?;
        self.set_newest(tx, Some(lsn))
    }

    // The transaction's newest write stands no more: the UPDATE that is the newest write of its key, or an ADD above that.
    pub fn pop(&mut self, tx: TxId) -> Result<(), AllocError>
        ensures writes { OnOk result (Pops self.old self.new tx (write_at self.old (newest_by self.old tx))) }
        ensures records { self.new.records ≡ self.old.records }
    {
        let Some(write) = self.at(self.newest_of(tx)) else {
            return Ok(());
        };
        self.unstack(tx, &write);
        self.set_newest(tx, write.earlier)
    }

    // A share goes.
    fn settle_at(&mut self, key: u64, tx: TxId)
        ensures tops { (k : ℕ) → top_at self.new k ≡ top_at self.old k }
        ensures adds { (k : ℕ) → adds_at self.new k ≡ adds_at self.old k }
        ensures values { (k : ℕ) → value_at self.new k ≡ value_at self.old k }
        ensures shares { (k : ℕ) → shares_at self.new k ≡ (if key == k then without tx (shares_at self.old k) else shares_at self.old k) }
        ensures records { self.new.records ≡ self.old.records }
        ensures rows { self.new.rows ≡ self.old.rows }
        ensures newest { self.new.newest ≡ self.old.newest }
    {
        if let Some(top) = self.tops.get_mut(&key) {
            top.crowd.settle(tx);
        }
    }

    // The transaction is committed. Its writes all stand below this LSN.
    pub fn settle(&mut self, lsn: usize, tx: TxId)
        ensures { Settles self.old self.new lsn tx }
    {
        let mut at = self.newest_of(tx);
        for _step in 0..lsn {
            let Some(write) = self.step(at) else {
                return;
            };
            self.settle_at(write.key, tx);
            at = write.earlier;
        }
    }
}
