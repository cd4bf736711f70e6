//! The second netlist's text with the first netlist's names.
ghost use Rattle.std.specs.Prelude.{◌≡◌, ◌≢◌, ◌<◌, ◌≤◌, ◌⊎◌, ◌++◌, ◌==◌, not, slice_index_or, List, IfOk, IfErr, length};
ghost use Rattle.net_bench.specs.Circuit.{Circuit, circuit};
ghost use Rattle.std.specs.List.{prefix_len};
ghost use Rattle.net_bench.specs.Pieces.{tokens_at};
ghost use Rattle.net_bench.specs.Text.{is_mark, is_name_byte};
ghost use Rattle.net_rename.specs.Renaming.{AreBadPairs, ArePairsOf, ArePorts, IsPairFault, firsts, is_free, is_open_first};
ghost use Rattle.net_rename.specs.Renaming.{renamed_text, seconds};
ghost use Rattle.net_rename.specs.declared.pair.NamePair.{NamePair as NamePairValue};

use crate::fault::PairsFault;
use crate::pair::NamePair;
use crate::ports::ports_of;
use crate::tables::{PairTables, renamed, tables_of};
use net_bench::name_table::NameTable;
use net_bench::netlist::Netlist;
use net_bench::reader::MAX_TEXT;
use net_bench::scan::{Scanner, Token};
use std::alloc::{AllocError, Global};

// ---- which pairs there may be

/// The names of the inputs, outputs and registers of both netlists.
#[derive(Drop)]
struct Ports {
    first: NameTable,
    second: NameTable,
}

/// Whether the first name of a pair is free in the second netlist.
fn is_free(second: &Netlist, ports: &NameTable, tables: &PairTables, pair: &NamePair) -> bool
    requires { ArePorts (circuit second.now) ports.now }
    ensures { (pairs : List NamePairValue) → tables.now.firsts ≡ firsts pairs → tables.now.seconds ≡ seconds pairs
        → result ≡ is_free (circuit second.now) pairs pair.now }
{
    let name = pair.first.as_slice();
    second.find(name).is_none()
        || tables.seconds.has(name)
        || (!ports.has(name) && !tables.firsts.has(pair.second.as_slice()))
}

/// The first that is wrong with a pair, if anything is.
fn fault_of(
    second: &Netlist,
    ports: &Ports,
    tables: &PairTables,
    pair: &NamePair,
) -> Option<PairsFault>
    requires { ArePorts (circuit second.now) ports.now.second }
    ensures { (a : Circuit) (pairs : List NamePairValue) → ArePorts a ports.now.first → tables.now.firsts ≡ firsts pairs
        → tables.now.seconds ≡ seconds pairs → IsPairFault a (circuit second.now) pairs pair.now result }
{
    let line = pair.line;
    if !ports.first.has(pair.first.as_slice()) {
        Some(PairsFault::UnknownFirst { line })
    } else if !ports.second.has(pair.second.as_slice()) {
        Some(PairsFault::UnknownSecond { line })
    } else if !is_free(second, &ports.second, tables, pair) {
        Some(PairsFault::Taken { line })
    } else {
        None
    }
}

/// The columns of pairs that are of these netlists.
fn checked_tables(
    alloc: Global,
    first: &Netlist,
    second: &Netlist,
    pairs: &[NamePair],
) -> Result<PairTables, PairsFault>
    ensures firsts { IfOk result (λ t. t.firsts ≡ firsts pairs.now) }
    ensures seconds { IfOk result (λ t. t.seconds ≡ seconds pairs.now) }
    ensures checked { IfOk result (λ _. ArePairsOf (circuit first.now) (circuit second.now) pairs.now) }
    ensures refused { IfErr result (λ fault. (fault ≡ PairsFault.OutOfMemory)
        ⊎ AreBadPairs (circuit first.now) (circuit second.now) pairs.now fault) }
{
    let ports = Ports {
        first: ports_of(alloc, first)?,
        second: ports_of(alloc, second)?,
    };
    let tables = tables_of(alloc, pairs)?;
    for pair in pairs {
        if let Some(fault) = fault_of(second, &ports, &tables, pair) {
            return Err(fault);
        }
    }
    Ok(tables)
}

// ---- the text

/// Whether the first token of a text is an opening parenthesis.
fn is_open_first(text: &[u8]) -> bool
    requires { length text.now ≤ MAX_TEXT }
    ensures { result ≡ is_open_first (tokens_at 1 text.now) }
{
    let mut scanner = Scanner::new(text);
    matches!(scanner.next(), (_, Token::Open))
}

/// A parenthesis, a comma or an equals sign.
fn is_mark(b: u8) -> bool
    ensures { result ≡ is_mark b }
{
    b == b'(' || b == b')' || b == b',' || b == b'='
}

/// A byte that names are made of.
fn is_name_byte(b: u8) -> bool
    ensures { result ≡ is_name_byte b }
{
    33 <= b && b <= 126 && !is_mark(b) && b != b'#'
}

/// How many name bytes the text begins with.
fn name_len(text: &[u8]) -> usize
    ensures count { result ≡ prefix_len is_name_byte text.now }
    ensures bound { result ≤ length text.now }
{
    text.iter().take_while(|b| is_name_byte(**b)).count()
}

/// How many bytes come before the end of the first line.
fn line_len(text: &[u8]) -> usize
    ensures count { result ≡ prefix_len (λ b. not (b == 10)) text.now }
    ensures bound { result ≤ length text.now }
{
    text.iter().take_while(|b| **b != b'\n').count()
}

/// How many bytes are no name at the front of a text that begins with none: a comment up to the end of its line, or one byte.
fn gap_len(text: &[u8]) -> usize
    requires { 0 < length text.now }
    ensures comment { slice_index_or text.now 0 0 ≡ 35 → result ≡ prefix_len (λ b. not (b == 10)) text.now }
    ensures other { slice_index_or text.now 0 0 ≢ 35 → result ≡ 1 }
    ensures some { 0 < result }
    ensures bound { result ≤ length text.now }
{
    if text[0] == b'#' { line_len(text) } else { 1 }
}

/// Writes the front of a text, and answers what is left of it. A name is written as the new one, unless a parenthesis follows.
fn write_front<'a>(
    tables: &PairTables,
    text: &'a [u8],
    out: &mut Vec<u8>,
) -> Result<&'a [u8], AllocError>
    requires some { 0 < length text.now }
    requires short { length text.now ≤ MAX_TEXT }
    requires tables { length tables.now.firsts ≡ length tables.now.seconds }
    ensures renamed { (pairs : List NamePairValue) → tables.now.firsts ≡ firsts pairs → tables.now.seconds ≡ seconds pairs
        → IfOk result (λ rest. out.new.items ++ renamed_text pairs rest.now ≡ out.old.items ++ renamed_text pairs text.now) }
    ensures shorter { IfOk result (λ rest. length rest.now < length text.now) }
{
    let name_bytes = name_len(text);
    if name_bytes == 0 {
        let (gap, rest) = text.split_at(gap_len(text));
        out.extend_from_slice(gap)?;
        return Ok(rest);
    }
    let (name, rest) = text.split_at(name_bytes);
    if is_open_first(rest) {
        out.extend_from_slice(name)?;
    } else {
        out.extend_from_slice(renamed(tables, name))?;
    }
    Ok(rest)
}

/// The text with the new names.
fn renamed_text(alloc: Global, tables: &PairTables, text: &[u8]) -> Result<Vec<u8>, AllocError>
    requires short { length text.now ≤ MAX_TEXT }
    requires tables { length tables.now.firsts ≡ length tables.now.seconds }
    ensures { (pairs : List NamePairValue) → tables.now.firsts ≡ firsts pairs → tables.now.seconds ≡ seconds pairs
        → IfOk result (λ v. v.items ≡ renamed_text pairs text.now) }
{
    let mut out = Vec::new(alloc);
    let mut rest = text;
    'pieces: while !rest.is_empty() {
        rest = write_front(tables, rest, &mut out)?;
    }
    Ok(out)
}

// ---- both

/// The text of the second netlist, in which what is paired has the first netlist's names, if the pairs are of these two netlists.
pub fn rename_text(
    alloc: Global,
    first: &Netlist,
    second: &Netlist,
    text: &[u8],
    pairs: &[NamePair],
) -> Result<Vec<u8>, PairsFault>
    requires { length text.now ≤ MAX_TEXT }
    // Each name of the text is the new one, and all else is as it is.
    ensures renamed { IfOk result (λ v. v.items ≡ renamed_text pairs.now text.now) }
    // Each name is that of an input, an output or a register of its side, and once in its column; each first name is free.
    ensures checked { IfOk result (λ _. ArePairsOf (circuit first.now) (circuit second.now) pairs.now) }
    // What is refused has on the line that is reported the first name that is in its column twice, or if there is none, the first pair that
    // is none, unless memory ran out.
    ensures refused { IfErr result (λ fault. (fault ≡ PairsFault.OutOfMemory)
        ⊎ AreBadPairs (circuit first.now) (circuit second.now) pairs.now fault) }
{
    let tables = checked_tables(alloc, first, second, pairs)?;
    let renamed = renamed_text(alloc, &tables, text)?;
    Ok(renamed)
}
