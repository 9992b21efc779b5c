//! Values of terms over constants, by their definitions, and numbers of different subterms.

use crate::rows::{table_of, terms_of};
use no_memory::NoMemory;
use ratio128::Ratio;
use std::alloc::Global;
use std::test::Fail;
use term_core::{TermId, TermTable};
use term_walks::{Interp, Value, ValueStop, fit_in, value};

/// Terms, each with the numbers of its arguments and its value.
const TERMS: &str = "true\t\ttrue
false\t\tfalse
not\t0\tfalse
not\t1\ttrue
and\t0 3\ttrue
and\t0 1 3\tfalse
or\t1 2\tfalse
or\t1 2 0\ttrue
xor\t0 1\ttrue
xor\t0 3\tfalse
=>\t0 1\tfalse
=>\t1 1\ttrue
=\t0 1\tfalse
=\t1 2\ttrue
1\t\t1
2\t\t2
0\t\t0
ite\t0 14 15\t1
ite\t1 14 15\t2
+\t14 15 15\t5
-\t14\t-1
-\t14 15\t-1
*\t15 19\t10
/\t14 15\t1/2
/\t14 16\t0
/\t20 15\t-1/2
<\t14 15\ttrue
<\t15 15\tfalse
<=\t15 15\ttrue
<=\t15 14\tfalse
=\t20 21\ttrue
4294967295\t\t4294967295
*\t31 31\t18446744065119617025
*\t32 32\twide
<\t33 14\twide";

/// Numbers of terms of that table, and after a tab how many different subterms they have.
const COUNTS: &str = "\t0
0\t1
0 0\t1
5\t4
5 4\t5
19\t3
25\t4
25 30\t6
34\t5
7 9 13\t7";

/// Tells whether a number is written so, with its denominator where that is not 1.
fn is_number(number: Ratio, wanted: &str) -> bool {
    let (num, den) = wanted.split_once('/').unwrap_or((wanted, "1"));
    num.parse::<i128>() == Ok(number.num()) && den.parse::<i128>() == Ok(number.den())
}

/// Tells whether this value was found.
fn is_value(found: Result<Value, ValueStop>, wanted: &str) -> bool {
    match found {
        Ok(Value::Bool(true)) => wanted == "true",
        Ok(Value::Bool(false)) => wanted == "false",
        Ok(Value::Number(number)) => is_number(number, wanted),
        Ok(Value::Element(_, _)) => false,
        Err(ValueStop::Wide(_)) => wanted == "wide",
        Err(ValueStop::Memory) => false,
    }
}

/// Tells whether a term of a table without symbols has a value.
fn has_value(alloc: Global, table: &TermTable, id: TermId, wanted: &str) -> bool {
    let interp = Interp {
        tables: Vec::new(alloc),
    };
    if id.0 >= table.len() || table.symbols().len() > 0 {
        return false;
    }
    is_value(value(alloc, table, &interp, id), wanted)
}

/// Gives the first row whose term has another value, if there is one.
fn first_other_value<'a>(alloc: Global, table: &TermTable, rows: &'a str) -> Option<&'a str> {
    let mut number = 0u64;
    for row in rows.lines() {
        if !has_value(
            alloc,
            table,
            TermId(number),
            row.split('\t').last().unwrap_or(""),
        ) {
            return Some(row);
        }
        number = number.saturating_add(1);
    }
    None
}

/// Tells whether terms of the table have at most so many different subterms; not, where they are not all of it.
fn fit(alloc: Global, table: &TermTable, ids: &[TermId], room: u64) -> Result<bool, NoMemory> {
    if !table.has_terms(ids) {
        return Ok(false);
    }
    fit_in(alloc, table, ids, room)
}

/// Tells whether the terms of a row have so many different subterms.
fn has_count(alloc: Global, table: &TermTable, row: &str) -> Result<bool, NoMemory> {
    let (words, digits) = row.split_once('\t').unwrap_or(("", ""));
    let ids = terms_of(alloc, words)?;
    let count = digits.parse::<u64>().unwrap_or(0);
    if !fit(alloc, table, &ids, count)? {
        return Ok(false);
    }
    Ok(count == 0 || !fit(alloc, table, &ids, count.saturating_sub(1))?)
}

/// Gives the first row whose terms have another number of different subterms, if there is one.
fn first_other_count<'a>(
    alloc: Global,
    table: &TermTable,
    rows: &'a str,
) -> Result<Option<&'a str>, NoMemory> {
    for row in rows.lines() {
        if !has_count(alloc, table, row)? {
            return Ok(Some(row));
        }
    }
    Ok(None)
}

/// Gives how many terms the table of `TERMS` has, and the first row that is not so.
fn other(alloc: Global) -> Result<(u64, Option<&'static str>), NoMemory> {
    let table = table_of(alloc, TERMS)?;
    let count = first_other_count(alloc, &table, COUNTS)?;
    Ok((
        table.len(),
        first_other_value(alloc, &table, TERMS).or(count),
    ))
}

#[test]
fn terms_have_values_and_counts(rt: HostRuntime) -> Result<(), Fail> {
    assert!(rt; other(rt.alloc())? == (35, None));
    Ok(())
}
