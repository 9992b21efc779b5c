//! What a table answers to rows of nodes, and the names of theories.
//!
//! A row of a node has its head, the numbers of its arguments, the number that it gets, its sort, and three marks: `c` where it is
//! constant, `d` where it may be a divisor, `z` where it is zero as a divisor.

use crate::rows::terms_of;
use no_memory::NoMemory;
use ratio128::Ratio;
use std::alloc::Global;
use std::test::Fail;
use term_core::{Head, Node, Sort, TermId, TermTable, TheoryHead};

/// Names, the sorts of their arguments, and their own.
const SYMBOLS: &str = "p\t\tBool
x\t\tReal
a\t\tU
b\t\tV
f\tReal U\tReal";

/// Nodes; `-` is the number of those that the table does not take.
const NODES: &str = "p\t\t0\tBool\t---
x\t\t1\tReal\t---
a\t\t2\tU\t---
b\t\t3\tV\t---
1\t\t4\tReal\tcd-
0\t\t5\tReal\tcdz
f\t1 2\t6\tReal\t---
+\t1 4\t7\tReal\t---
+\t4 4\t8\tReal\tc--
-\t4\t9\tReal\tcd-
-\t5\t10\tReal\tcdz
-\t5 4\t11\tReal\tc-z
/\t5 4\t12\tReal\tcdz
/\t4 5\t13\tReal\tcd-
/\t1 4\t14\tReal\t---
*\t8 13\t15\tReal\tc--
ite\t0 2 2\t16\tU\t---
ite\t0 4 5\t17\tReal\t---
=\t2 16\t18\tBool\t---
=\t1 4\t19\tBool\t---
<\t1 4\t20\tBool\t---
<=\t4 1\t21\tBool\t---
and\t0 18 20\t22\tBool\t---
not\t22\t23\tBool\t---
xor\t0 23\t24\tBool\t---
=>\t0 0\t25\tBool\t---
true\t\t26\tBool\t---
@Real\t\t27\tReal\t---
@U\t\t28\tU\t---
+\t27\t29\tReal\t---
2\t\t30\tReal\tcd-
1\t\t4\tReal\tcd-
=\t2 3\t-\t\t
=\t0 1\t-\t\t
f\t2 1\t-\t\t
f\t1\t-\t\t
a\t1\t-\t\t
1\t1\t-\t\t
@Real\t1\t-\t\t
+\t\t-\t\t
+\t0\t-\t\t
-\t1 1 1\t-\t\t
/\t4\t-\t\t
<\t1 0\t-\t\t
and\t1\t-\t\t
not\t0 0\t-\t\t
ite\t0 1 2\t-\t\t
ite\t1 4 4\t-\t\t
not\t99\t-\t\t";

/// Names of the theories, and whether each takes 0, 1, 2, 3 and 4 arguments.
const NAMES: &str = "true\tynnnn
false\tynnnn
not\tnynnn
and\tnyyyy
or\tnyyyy
xor\tnnyyy
=>\tnnyyy
=\tnnyyy
distinct\tnnyyy
ite\tnnnyn
-\tnyyyy
+\tnyyyy
*\tnyyyy
/\tnnyyy
<\tnnyyy
<=\tnnyyy
>\tnnyyy
>=\tnnyyy";

/// Finds a sort by its word.
fn sort_of(table: &TermTable, word: &str) -> Option<Sort> {
    match word {
        "Bool" => Some(Sort::Bool),
        "Real" => Some(Sort::Real),
        _ => Some(Sort::Declared(table.symbols().find_sort(word.as_bytes())?)),
    }
}

/// Finds the sorts of words with a space between them; the empty text has none, and what is no sort is left out.
fn sorts_of(alloc: Global, table: &TermTable, words: &str) -> Result<Vec<Sort>, NoMemory> {
    let mut sorts = Vec::new(alloc);
    for word in words.split(' ') {
        if let Some(sort) = sort_of(table, word) {
            sorts.push(sort)?;
        }
    }
    Ok(sorts)
}

/// Gives the head of terms that a head of the theories is, if it is one.
fn theory_head(head: TheoryHead) -> Option<Head> {
    match head {
        TheoryHead::True => Some(Head::True),
        TheoryHead::False => Some(Head::False),
        TheoryHead::Not => Some(Head::Not),
        TheoryHead::And => Some(Head::And),
        TheoryHead::Or => Some(Head::Or),
        TheoryHead::Xor => Some(Head::Xor),
        TheoryHead::Implies => Some(Head::Implies),
        TheoryHead::Equal => Some(Head::Equal),
        TheoryHead::Ite => Some(Head::Ite),
        TheoryHead::Minus => Some(Head::Minus),
        TheoryHead::Plus => Some(Head::Plus),
        TheoryHead::Times => Some(Head::Times),
        TheoryHead::Divide => Some(Head::Divide),
        TheoryHead::Less => Some(Head::Less),
        TheoryHead::AtMost => Some(Head::AtMost),
        _ => None,
    }
}

/// Finds a head by its word: a number, a sort after `@` for the first parameter, a symbol, or a theory's name.
fn head_of(table: &TermTable, word: &str) -> Option<Head> {
    if let Ok(number) = word.parse::<u32>() {
        return Some(Head::Literal(Ratio::of(number as i128, 1)));
    }
    if let Some(sort) = word.strip_prefix("@") {
        return Some(Head::Parameter(0, sort_of(table, sort)?));
    }
    if let Some(symbol) = table.symbols().find(word.as_bytes()) {
        return Some(Head::Apply(symbol));
    }
    theory_head(TheoryHead::named(word.as_bytes())?)
}

/// Declares the symbol of a row, and tells whether its name was new and its sorts were there.
fn is_declared(alloc: Global, table: &mut TermTable, row: &str) -> Result<bool, NoMemory> {
    let mut parts = row.split('\t');
    let name = parts.next().unwrap_or("").as_bytes();
    let parameters = sorts_of(alloc, table, parts.next().unwrap_or(""))?;
    let Some(gives) = sort_of(table, parts.next().unwrap_or("")) else {
        return Ok(false);
    };
    if table.symbols().find(name) != None
        || !table.symbols().has_sorts(&parameters)
        || !table.symbols().has_sort(gives)
    {
        return Ok(false);
    }
    table.declare(name, &parameters, gives)?;
    Ok(true)
}

/// Makes a table with two sorts and the symbols of rows.
fn table_of(alloc: Global, rows: &str) -> Result<TermTable, NoMemory> {
    let mut table = TermTable::new(alloc);
    for name in "U V".split(' ') {
        if table.symbols().find_sort(name.as_bytes()) == None {
            table.declare_sort(name.as_bytes())?;
        }
    }
    for row in rows.lines() {
        is_declared(alloc, &mut table, row)?;
    }
    Ok(table)
}

/// Puts a term; `None` where the table does not take it.
fn put(
    alloc: Global,
    table: &mut TermTable,
    head: Head,
    arguments: &[TermId],
) -> Result<Option<TermId>, NoMemory> {
    let node = Node::new(alloc, head, arguments)?;
    if table.takes(&node) {
        Ok(Some(table.put(node)?))
    } else {
        Ok(None)
    }
}

/// Tells whether a term of the table has a sort and marks.
fn has_facts(table: &TermTable, id: TermId, sort: Option<Sort>, marks: &str) -> bool {
    if id.0 >= table.len() {
        return false;
    }
    let [constant, divisor, zero] = marks.as_bytes() else {
        return false;
    };
    Some(table.sort(id)) == sort
        && table.is_constant(id) == (*constant == b'c')
        && table.is_divisor(id) == (*divisor == b'd')
        && table.is_zero_divisor(id) == (*zero == b'z')
}

/// Tells whether the node of a row gets the row's number, sort and marks.
fn is_put_so(alloc: Global, table: &mut TermTable, row: &str) -> Result<bool, NoMemory> {
    let mut parts = row.split('\t');
    let Some(head) = head_of(table, parts.next().unwrap_or("")) else {
        return Ok(false);
    };
    let arguments = terms_of(alloc, parts.next().unwrap_or(""))?;
    let number = parts.next().unwrap_or("").parse::<u64>().ok();
    let sort = sort_of(table, parts.next().unwrap_or(""));
    let marks = parts.next().unwrap_or("");
    match put(alloc, table, head, &arguments)? {
        None => Ok(number == None),
        Some(id) => Ok(number == Some(id.0) && has_facts(table, id, sort, marks)),
    }
}

/// Gives the first row whose node gets another answer, if there is one.
fn first_other<'a>(
    alloc: Global,
    table: &mut TermTable,
    rows: &'a str,
) -> Result<Option<&'a str>, NoMemory> {
    for row in rows.lines() {
        if !is_put_so(alloc, table, row)? {
            return Ok(Some(row));
        }
    }
    Ok(None)
}

/// Puts the rows, cuts the table to some terms, and puts them again. Gives the first row that then gets another answer, if there is
/// one, and how many terms there are.
fn put_again(alloc: Global, rows: &str, len: u64) -> Result<(Option<&str>, u64), NoMemory> {
    let mut table = table_of(alloc, SYMBOLS)?;
    let first = first_other(alloc, &mut table, rows)?;
    table.cut(len);
    let second = first_other(alloc, &mut table, rows)?;
    Ok((first.or(second), table.len()))
}

#[test]
fn nodes_are_put_as_their_rows_say(rt: HostRuntime) -> Result<(), Fail> {
    let alloc = rt.alloc();
    assert!(rt; put_again(alloc, NODES, 99)? == (None, 31));
    assert!(rt; put_again(alloc, NODES, 7)? == (None, 31));
    Ok(())
}

/// Tells whether a row has a theory's name, and the numbers of arguments that its head takes.
fn is_name_so(row: &str) -> Option<bool> {
    let (name, counts) = row.split_once('\t')?;
    let head = TheoryHead::named(name.as_bytes())?;
    let mut is_so = head.name() == name.as_bytes();
    for (count, mark) in counts.as_bytes().iter().enumerate() {
        is_so = is_so && head.takes_count(count) == (*mark == b'y');
    }
    Some(is_so)
}

#[test]
fn theories_have_their_names(rt: HostRuntime) -> Result<(), Fail> {
    for row in NAMES.lines() {
        assert_eq!(rt; is_name_so(row), Some(true));
    }
    assert_eq!(rt; TheoryHead::named(b"let"), None);
    Ok(())
}
