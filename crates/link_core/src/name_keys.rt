// The standard texts of words as names, and their keys.
ghost use Rattle.std.specs.Prelude.{◌≡◌, ◌++◌, [], IfOk, map, OnOk, string_bytes, unwrap_or};
ghost use Rattle.phonetic_keys.specs.Nysiis.{nysiis_of};
ghost use Rattle.phonetic_keys.specs.Soundex.{soundex_of};
ghost use Rattle.link_core.specs.NameKeys.{keys_line, keys_text, line_of_text, standard_names, text_or_nothing};

use link_base::{NoMemory, Tables, Text, Value};
use phonetic_keys::{nysiis, soundex};
use standardise::{TextTables, std_text};
use std::alloc::Global;

// The tables of a settings file that names none.
fn standard_tables(alloc: Global) -> Result<TextTables, NoMemory>
    ensures { IfOk result (λ tables. tables ≡ standard_names) }
{
    let plan = Tables::standard(alloc)?;
    TextTables::of_names(alloc, &plan)
}

fn text_of(value: &Value) -> &[u8]
    ensures { result.now ≡ text_or_nothing value.now }
{
    match value {
        Value::Absent => b"",
        Value::Word(text) => text.bytes(),
        Value::Day(_) => b"",
    }
}

fn push_soundex(line: &mut Vec<u8>, text: &[u8]) -> Result<(), NoMemory>
    ensures { OnOk result (line.new.items ≡ line.old.items ++ unwrap_or (soundex_of text.now) []) }
{
    match soundex(text) {
        Some(key) => line.extend_from_slice(&key)?,
        None => {}
    }
    Ok(())
}

fn push_nysiis(line: &mut Vec<u8>, text: &[u8]) -> Result<(), NoMemory>
    ensures { OnOk result (line.new.items ≡ line.old.items ++ unwrap_or (nysiis_of text.now) []) }
{
    match nysiis(text) {
        Some(key) => line.extend_from_slice(key.bytes())?,
        None => {}
    }
    Ok(())
}

fn push_line(line: &mut Vec<u8>, text: &[u8]) -> Result<(), NoMemory>
    ensures { OnOk result (line.new.items ≡ line.old.items ++ line_of_text text.now) }
{
    line.extend_from_slice(text)?;
    line.extend_from_slice(b",")?;
    push_soundex(line, text)?;
    line.extend_from_slice(b",")?;
    push_nysiis(line, text)?;
    line.extend_from_slice(b"\n")?;
    Ok(())
}

fn push_word(
    alloc: Global,
    lines: &mut Vec<u8>,
    word: &str,
    tables: &TextTables,
) -> Result<(), NoMemory>
    requires { tables.now ≡ standard_names }
    ensures { OnOk result (lines.new.items ≡ lines.old.items ++ keys_line word.now) }
{
    let value = std_text(alloc, word, tables)?;
    push_line(lines, text_of(&value))
}

// A line for each word.
fn lines_of(alloc: Global, words: &[String], tables: &TextTables) -> Result<Vec<u8>, NoMemory>
    requires { tables.now ≡ standard_names }
    ensures { IfOk result (λ lines. lines.items ≡ keys_text (map string_bytes words.now)) }
{
    let mut lines = Vec::new(alloc);
    for word in words {
        push_word(alloc, &mut lines, word.as_str(), tables)?;
    }
    Ok(lines)
}

/// A line for each word: its standard text as a name by the default tables, its Soundex key and its NYSIIS key, each empty
/// where there is none.
pub fn key_lines(alloc: Global, words: &[String]) -> Result<Text, NoMemory>
    ensures { IfOk result (λ text. text ≡ keys_text (map string_bytes words.now)) }
{
    let tables = standard_tables(alloc)?;
    let lines = lines_of(alloc, words, &tables);
    drop(tables);
    Ok(Text::of(lines?))
}
