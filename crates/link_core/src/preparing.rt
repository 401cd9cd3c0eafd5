// Two files ready to be compared.
ghost use Rattle.std.specs.Prelude.{◌≡◌, ◌≤◌, All, IfOk, Ok, length};
ghost use Rattle.link_base.specs.Fault.{Gives, IsAnswer};
ghost use Rattle.link_base.specs.Standard.{ids_alone};
ghost use Rattle.link_core.specs.Prepared.{files_of, IsOneOfBoth, kinds_of, pooled, prepared, sides_in, unreadable_of, with_fault, with_room};
ghost use Rattle.standard_files.specs.Ready.{AreInRange, ArePooled, IsRowFor};
ghost use Rattle.standard_files.specs.Sides.{pooled_values};
ghost use Rattle.link_core.specs.Rules.{IsPreparedFor};
ghost use Rattle.pair_walk.specs.Rows.{all_rows};
ghost use Rattle.link_plan.specs.Ranges.{KeepsRanges};
ghost use Rattle.standard_files.specs.Files.{AreOfPlan};

use comparators::IdTable;
use link_base::{Fault, FileRole, NoMemory, StdFile, Text};
use link_limits::{MOST_FIELDS, MOST_POOL_LIMIT};
use link_plan::Plan;
use pair_walk::Blocks;
use standard_files::{PooledValues, StandardFile, StandardPair, pool_values, read_files};
use std::alloc::Global;
use std::marker::Model;
use value_forms::{CompareKind, PassList};
use value_pool::{Pool, PoolFault};

/// Two files in standard values, with their texts in a pool. Contracts see the records of both files, how many of their dates
/// could not be read, the texts of the pool, what the rows are compared by, and the ids of the parts of their keys.
#[derive(Drop)]
pub struct Prepared {
    files: StandardPair,
    values: PooledValues,
}

impl Model for Prepared {
    ghost use Rattle.link_core.specs.Prepared.{PreparedView};

    ghost Value = { PreparedView };

    ghost view = { λ p. record { files = p.files; values = p.values } };
}

/// The ids of the records of two files, without their values.
#[derive(Drop)]
pub(crate) struct FileIds {
    pub(crate) a: StdFile,
    pub(crate) b: StdFile,
}

impl Prepared {
    // The ids of both files; their values, and all that is pooled of them, are given back.
    pub(crate) fn ids_alone(self, alloc: Global) -> Result<FileIds, NoMemory>
        ensures a { IfOk result (λ ids. ids.a ≡ ids_alone self.files.a.records) }
        ensures b { IfOk result (λ ids. ids.b ≡ ids_alone self.files.b.records) }
    {
        let Prepared { files, values } = self;
        drop(values);
        let StandardPair { a, b } = files;
        let a = a.file.ids_alone(alloc)?;
        let b = b.file.ids_alone(alloc)?;
        Ok(FileIds { a, b })
    }

    /// The file A.
    pub fn a(&self) -> &StdFile
        ensures { result.now ≡ self.now.files.a.records }
    {
        &self.files.a.file
    }

    /// The file B.
    pub fn b(&self) -> &StdFile
        ensures { result.now ≡ self.now.files.b.records }
    {
        &self.files.b.file
    }

    /// The distinct texts of both files.
    pub fn pool(&self) -> &Pool
        ensures texts { result.now.texts ≡ self.now.values.texts }
        ensures limit { result.now.limit ≡ self.now.values.limit }
    {
        &self.values.pool
    }

    /// What the rows of A or of B are compared by: the ids of canons, and days.
    pub fn sides(&self, role: FileRole) -> &IdTable
        requires { IsOneOfBoth role }
        ensures { result.now ≡ sides_in self.now role }
    {
        match role {
            FileRole::B => &self.values.b,
            _ => &self.values.a,
        }
    }

    /// How many dates of A or of B could not be read.
    pub fn unreadable(&self, role: FileRole) -> u32
        requires { IsOneOfBoth role }
        ensures { result ≡ unreadable_of self.now role }
    {
        match role {
            FileRole::B => self.files.b.unreadable,
            _ => self.files.a.unreadable,
        }
    }

    /// The blocks of the two files: for each record of A those of B that share a key with it in some blocking pass of their plan.
    pub fn blocks(&self, alloc: Global, plan: &Plan) -> Result<Blocks, NoMemory>
        requires { IsPreparedFor plan.now self.now }
        ensures { IfOk result (λ blocks. blocks ≡ all_rows self.now.files.a.records self.now.files.b.records plan.now.passes) }
    {
        let values = &self.values;
        Blocks::new_in(
            alloc,
            self.a(),
            self.b(),
            &plan.passes,
            &values.pool,
            &values.keys_a,
            &values.keys_b,
        )
    }
}

// The comparisons of the fields of a plan.
fn kinds_of_plan(alloc: Global, plan: &Plan) -> Result<Vec<CompareKind>, NoMemory>
    ensures kinds { IfOk result (λ kinds. kinds.items ≡ kinds_of plan.now) }
    ensures few { IfOk result (λ kinds. length kinds.items ≤ MOST_FIELDS) }
{
    let mut kinds = Vec::new(alloc);
    for field in plan.fields.fields() {
        kinds.push(field.compare)?;
    }
    Ok(kinds)
}

// The values of two standard files in a pool.
fn pool_by(
    alloc: Global,
    kinds: &[CompareKind],
    passes: &PassList,
    a: &StdFile,
    b: &StdFile,
    pool_limit: u64,
) -> Result<PooledValues, Fault>
    requires few { length kinds.now ≤ MOST_FIELDS }
    requires limit { pool_limit ≤ MOST_POOL_LIMIT }
    requires rows_a { All (IsRowFor kinds.now) a.now }
    requires rows_b { All (IsRowFor kinds.now) b.now }
    requires parts { AreInRange (length kinds.now) passes.now }
    ensures answer { IsAnswer (with_fault (pooled_values pool_limit kinds.now passes.now a.now b.now)) result }
    ensures pooled { IfOk result (ArePooled kinds.now passes.now a.now b.now) }
{
    match pool_values(alloc, kinds, passes, a, b, pool_limit) {
        Ok(values) => Ok(values),
        Err(PoolFault::Full { used, limit }) => Err(Fault::PoolFull { used, limit }),
        Err(PoolFault::NoMemory) => Err(Fault::NoMemory),
    }
}

// The values of the two standard files of a plan in a pool.
fn pool_files(
    alloc: Global,
    plan: &Plan,
    a: &StdFile,
    b: &StdFile,
    pool_limit: u64,
) -> Result<PooledValues, Fault>
    requires ranges { KeepsRanges plan.now }
    requires limit { pool_limit ≤ MOST_POOL_LIMIT }
    requires of_a { AreOfPlan plan.now a.now }
    requires of_b { AreOfPlan plan.now b.now }
    ensures answer { IsAnswer (with_fault (pooled_values pool_limit (kinds_of plan.now) plan.now.passes a.now b.now)) result }
    ensures pooled { IfOk result (ArePooled (kinds_of plan.now) plan.now.passes a.now b.now) }
{
    let kinds = kinds_of_plan(alloc, plan)?;
    pool_by(alloc, &kinds, &plan.passes, a, b, pool_limit)
}

// The records of a standard file.
fn records(file: &StandardFile) -> &StdFile
    ensures { result.now ≡ file.now.records }
{
    &file.file
}

// The two standard files of a plan, with their texts in a pool.
fn pool_pair(
    alloc: Global,
    plan: &Plan,
    files: StandardPair,
    pool_limit: u64,
) -> Result<Prepared, Fault>
    requires ranges { KeepsRanges plan.now }
    requires limit { pool_limit ≤ MOST_POOL_LIMIT }
    requires of_a { AreOfPlan plan.now files.a.records }
    requires of_b { AreOfPlan plan.now files.b.records }
    ensures answer { Gives files_of (with_room plan.now pool_limit files) result }
    ensures pooled { IfOk result (λ p. pooled plan.now pool_limit p.files ≡ Ok p.values) }
    ensures ready { IfOk result (IsPreparedFor plan.now) }
{
    match pool_files(
        alloc,
        plan,
        records(&files.a),
        records(&files.b),
        pool_limit,
    ) {
        Ok(values) => Ok(Prepared { files, values }),
        Err(fault) => {
            drop(files);
            Err(fault)
        }
    }
}

/// Prepares the two files of a plan: the table of A, the table of B, their standard values, and their texts in a pool of at
/// most `pool_limit` bytes, itself at most `MOST_POOL_LIMIT`. The records of each file are of the plan: at most `MOST_ROWS`,
/// with distinct ids and one value of its sort for each field.
pub fn prepare(
    alloc: Global,
    plan: &Plan,
    a: &[u8],
    b: &[u8],
    pool_limit: u64,
) -> Result<Prepared, Fault>
    requires ranges { KeepsRanges plan.now }
    requires limit { pool_limit ≤ MOST_POOL_LIMIT }
    ensures answer { Gives files_of (prepared plan.now pool_limit a.now b.now) result }
    ensures pooled { IfOk result (λ p. pooled plan.now pool_limit p.files ≡ Ok p.values) }
    ensures ready { IfOk result (IsPreparedFor plan.now) }
{
    match read_files(alloc, plan, a, b) {
        Ok(files) => pool_pair(alloc, plan, files, pool_limit),
        Err(fault) => Err(fault),
    }
}

/// The same of two files whose bytes it takes over.
pub fn prepare_texts(
    alloc: Global,
    plan: &Plan,
    a: Text,
    b: Text,
    pool_limit: u64,
) -> Result<Prepared, Fault>
    requires ranges { KeepsRanges plan.now }
    requires limit { pool_limit ≤ MOST_POOL_LIMIT }
    ensures answer { Gives files_of (prepared plan.now pool_limit a b) result }
    ensures pooled { IfOk result (λ p. pooled plan.now pool_limit p.files ≡ Ok p.values) }
    ensures ready { IfOk result (IsPreparedFor plan.now) }
{
    let files = read_files(alloc, plan, a.bytes(), b.bytes());
    drop(a);
    drop(b);
    match files {
        Ok(files) => pool_pair(alloc, plan, files, pool_limit),
        Err(fault) => Err(fault),
    }
}
