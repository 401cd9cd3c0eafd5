// The keys of the top table.
ghost use Rattle.std.specs.Prelude.{◌≡◌, ◌≢◌, [], ◌∷◌, Err, IfErr, IfOk, IfSome, IsUtf8, option_to_list, not};
ghost use Rattle.toml.specs.View.{table_view};
ghost use Rattle.link_texts.specs.Texts.{stands_among};
ghost use Rattle.link_base.specs.declared.fault.Fault.TheVariants as fault;
ghost use Rattle.link_base.specs.Fault as run_fault;
ghost use Rattle.settings_readers.specs.KeyFaults.{IsAnswer};
ghost use Rattle.settings.specs.Settings.{document, file_keys, is_free, IsSettingsFault, journal_of, link_keys, of_keys, other_sources, plan_from, plan_of, settings, standard_tables, tables_over};
ghost use Rattle.link_plan.specs.Ranges.{KeepsRanges, NamesFiles};

use crate::fields::Fields;
use crate::passes::Passes;
use crate::terms::TermKeys;
use crate::texts::{File, FileName, TextRule, label};
use crate::word_tables::{Texts, WordTable};
use crate::words::Delimiters;
use link_base::{Fault, NoMemory, Tables, Text};
use link_plan::{FieldList, MOST_LISTED_WORDS, MOST_MARKS, Plan, TERM_KEYS, Terms};
use settings_readers::{Choice, KeyFault, Keys, Place};
use std::alloc::Global;
use toml::Table;
use value_forms::PassList;

// The keys of the file but its terms.
const TOP_KEYS: [&str; 15] = [
    "file_a",
    "file_b",
    "id_a",
    "id_b",
    "delimiter_a",
    "delimiter_b",
    "sample",
    "journal",
    "missing",
    "titles",
    "suffixes",
    "names",
    "places",
    "field",
    "pass",
];

/// The keys on the two files and their ids.
#[derive(Drop)]
pub(crate) struct FileKeys {
    file_a: FileName,
    file_b: FileName,
    id_a: Text,
    id_b: Text,
}

/// The keys on all files but the two and their ids.
#[derive(Drop)]
pub(crate) struct OtherSources {
    delimiter_a: u8,
    delimiter_b: u8,
    sample: Option<FileName>,
    journal: Option<FileName>,
}

/// The keys after the sources: on how the records are linked.
#[derive(Drop)]
pub(crate) struct LinkKeys {
    terms: Terms,
    tables: Tables,
    fields: FieldList,
    passes: PassList,
}

fn differs(name: &FileName, sample: &Option<FileName>) -> bool
    ensures { result ≡ not (stands_among (option_to_list sample.now) name.now) }
{
    match sample {
        None => true,
        Some(sample) => sample.bytes() != name.bytes(),
    }
}

/// Whether the journal is none of the files that are read.
fn is_free(files: &FileKeys, sample: &Option<FileName>, journal: &Option<FileName>) -> bool
    ensures { result ≡ is_free (files.now.file_a ∷ files.now.file_b ∷ option_to_list sample.now) journal.now }
{
    match journal {
        None => true,
        Some(name) => {
            files.file_a.bytes() != name.bytes()
                && files.file_b.bytes() != name.bytes()
                && differs(name, sample)
        }
    }
}

#[tactic(auto, unfolding(crate::specs::Settings::journal_of))]
fn journal_of(
    alloc: Global,
    files: &FileKeys,
    sample: &Option<FileName>,
    keys: &Keys,
) -> Result<Option<FileName>, KeyFault>
    ensures { IsAnswer (journal_of (files.now.file_a ∷ files.now.file_b ∷ option_to_list sample.now) (table_view keys.now.table.now) keys.now.above.now) result }
{
    let journal = keys.optional(alloc, &File, "journal")?;
    if !is_free(files, sample, &journal) {
        return Place::new(keys.above, b"journal").out_of_range(alloc);
    }
    Ok(journal)
}

#[tactic(auto, unfolding(crate::specs::Settings::file_keys))]
fn file_keys(alloc: Global, keys: &Keys) -> Result<FileKeys, KeyFault>
    ensures { IsAnswer (file_keys (table_view keys.now.table.now) keys.now.above.now) result }
{
    let file_a = keys.needed(alloc, &File, "file_a")?;
    let file_b = keys.needed(alloc, &File, "file_b")?;
    let id_a = label(alloc, b"id", keys, "id_a")?;
    let id_b = label(alloc, b"id", keys, "id_b")?;
    Ok(FileKeys {
        file_a,
        file_b,
        id_a,
        id_b,
    })
}

#[tactic(auto, unfolding(crate::specs::Settings::other_sources))]
fn other_sources(alloc: Global, files: &FileKeys, keys: &Keys) -> Result<OtherSources, KeyFault>
    ensures { IsAnswer (other_sources files.now (table_view keys.now.table.now) keys.now.above.now) result }
{
    let delimiter = Choice(Delimiters);
    let delimiter_a = keys.defaulted(alloc, &delimiter, b',', "delimiter_a")?;
    let delimiter_b = keys.defaulted(alloc, &delimiter, b',', "delimiter_b")?;
    let sample = keys.optional(alloc, &File, "sample")?;
    let journal = journal_of(alloc, files, &sample, keys)?;
    Ok(OtherSources {
        delimiter_a,
        delimiter_b,
        sample,
        journal,
    })
}

#[tactic(auto, unfolding(crate::specs::Settings::tables_over))]
fn tables_over(alloc: Global, tables: Tables, keys: &Keys) -> Result<Tables, KeyFault>
    ensures { IsAnswer (tables_over tables (table_view keys.now.table.now) keys.now.above.now) result }
{
    let marks = Texts {
        most: MOST_MARKS,
        rule: TextRule::Mark,
    };
    let words = Texts {
        most: MOST_LISTED_WORDS,
        rule: TextRule::Word,
    };
    let missing = keys.defaulted(alloc, &marks, tables.missing, "missing")?;
    let titles = keys.defaulted(alloc, &words, tables.titles, "titles")?;
    let suffixes = keys.defaulted(alloc, &words, tables.suffixes, "suffixes")?;
    let names = keys.defaulted(alloc, &WordTable, tables.names, "names")?;
    let places = keys.defaulted(alloc, &WordTable, tables.places, "places")?;
    Ok(Tables {
        missing,
        titles,
        suffixes,
        names,
        places,
    })
}

// The tables of a settings file that names none.
fn standard_tables(alloc: Global) -> Result<Tables, NoMemory>
    ensures { IfOk result (λ tables. tables ≡ standard_tables) }
{
    Tables::standard(alloc)
}

fn tables(alloc: Global, keys: &Keys) -> Result<Tables, KeyFault>
    ensures { IsAnswer (tables_over standard_tables (table_view keys.now.table.now) keys.now.above.now) result }
{
    let standard = standard_tables(alloc)?;
    tables_over(alloc, standard, keys)
}

fn optional_text(name: Option<FileName>) -> Option<Text>
    ensures same { result ≡ name }
    ensures utf8 { IfSome result IsUtf8 }
{
    match name {
        None => None,
        Some(name) => Some(name.into_text()),
    }
}

// The plan of the parts of the top table.
fn plan_from(files: FileKeys, others: OtherSources, links: LinkKeys) -> Plan
    ensures gives { result ≡ plan_from files others links }
    ensures files { NamesFiles result }
{
    Plan {
        file_a: files.file_a.into_text(),
        file_b: files.file_b.into_text(),
        id_a: files.id_a,
        id_b: files.id_b,
        delimiter_a: others.delimiter_a,
        delimiter_b: others.delimiter_b,
        sample: optional_text(others.sample),
        journal: optional_text(others.journal),
        terms: links.terms,
        tables: links.tables,
        fields: links.fields,
        passes: links.passes,
    }
}

#[tactic(auto, unfolding(crate::specs::Settings::link_keys, crate::specs::Settings::terms))]
fn link_keys(alloc: Global, sampled: bool, keys: &Keys) -> Result<LinkKeys, KeyFault>
    ensures { IsAnswer (link_keys sampled (table_view keys.now.table.now) keys.now.above.now) result }
{
    let terms = Terms::read(alloc, &TermKeys(*keys))?;
    let tables = tables(alloc, keys)?;
    let fields = keys.needed(alloc, &Fields { sampled }, "field")?;
    let passes = keys.needed(alloc, &Passes { fields: &fields }, "pass")?;
    Ok(LinkKeys {
        terms,
        tables,
        fields,
        passes,
    })
}

#[tactic(auto, unfolding(crate::specs::Settings::plan_of))]
fn plan_of(alloc: Global, keys: &Keys) -> Result<Plan, KeyFault>
    ensures gives { IsAnswer (plan_of (table_view keys.now.table.now) keys.now.above.now) result }
    ensures files { IfOk result NamesFiles }
{
    keys.known(alloc, &TOP_KEYS, &TERM_KEYS)?;
    let files = file_keys(alloc, keys)?;
    let others = other_sources(alloc, &files, keys)?;
    let links = link_keys(alloc, others.sample.is_some(), keys)?;
    Ok(plan_from(files, others, links))
}

// The plan of the top table; its fault is that of the file.
fn plan_of_table(alloc: Global, table: &Table) -> Result<Plan, Fault>
    ensures gives { run_fault.IsAnswer (of_keys (plan_of (table_view table.now) [])) result }
    ensures kind { IfErr result IsSettingsFault }
    ensures no_other { result ≢ Err fault.NotToml }
    ensures ranges { IfOk result KeepsRanges }
    ensures files { IfOk result NamesFiles }
{
    let keys = Keys { table, above: b"" };
    match plan_of(alloc, &keys) {
        Ok(plan) => {
            // That pairs of words rise is a fact of their type.
            let _ = plan.tables.names.pairs();
            let _ = plan.tables.places.pairs();
            Ok(plan)
        }
        Err(fault) => Err(fault.into_fault()),
    }
}

/// The plan of a settings file, or its first key at fault. Bytes that are not UTF-8 are not TOML.
pub fn read_settings(alloc: Global, bytes: &[u8]) -> Result<Plan, Fault>
    ensures gives { run_fault.IsAnswer (settings bytes.now) result }
    ensures not_toml { result ≡ Err fault.NotToml → document bytes.now ≡ None }
    ensures kind { IfErr result IsSettingsFault }
    ensures ranges { IfOk result KeepsRanges }
    ensures files { IfOk result NamesFiles }
{
    match toml::table_from_slice(alloc, bytes) {
        Ok(table) => plan_of_table(alloc, &table),
        Err(e) => {
            if e.is_memory() {
                Err(Fault::NoMemory)
            } else {
                Err(Fault::NotToml)
            }
        }
    }
}
