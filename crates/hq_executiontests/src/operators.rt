//! The operators over rows.

use crate::exprs::{copied, place, places, popped, push_parts, row_of};
use crate::show::show_rows;
use hq_algebra::{Aggregate, Aggregates, Expr, Keys16, SortKey, SortKeys, copy_exprs};
use hq_cases as cases;
use hq_ops::{
    OpEnd, distinct_rows, filter_rows, final_rows, join_rows, partial_rows, project_rows, sort_rows,
};
use hq_value::Row;
use std::alloc::Global;
use std::test::Fail;

// Rows, those of a left side, expressions, aggregates, and columns to sort by.
#[derive(Drop)]
struct Case {
    alloc: Global,
    rows: Vec<Row>,
    left: Vec<Row>,
    stack: Vec<Expr>,
    aggregates: Aggregates,
    order: SortKeys,
    limit: Option<u64>,
}

fn show(rt: HostRuntime, end: OpEnd) -> Result<(), Fail> {
    match end {
        OpEnd::Rows(rows) => {
            println!(rt; "  {} rows", rows.len())?;
            show_rows(rt, &rows)
        }
        OpEnd::Numeric => Ok(println!(rt; "  numeric")?),
        OpEnd::NoMemory => Ok(println!(rt; "  no memory")?),
    }
}

fn one_key(alloc: Global, key: u16) -> Result<Keys16, Fail> {
    let mut keys = Keys16::new(alloc);
    keys.push(key)?;
    Ok(keys)
}

impl Case {
    fn new(alloc: Global) -> Case {
        Case {
            alloc,
            rows: Vec::new(alloc),
            left: Vec::new(alloc),
            stack: Vec::new(alloc),
            aggregates: Aggregates::new(alloc),
            order: SortKeys::new(alloc),
            limit: None,
        }
    }

    // Joins the left side by one column and one, or by none.
    fn join(&self, text: &str) -> Result<OpEnd, Fail> {
        let (left, right) = (self.left.as_slice(), self.rows.as_slice());
        if text.is_empty() {
            let none = Keys16::new(self.alloc);
            return Ok(join_rows(self.alloc, left, right, &none, &none));
        }
        let (left_key, rest) = cases::counted(text);
        let left_keys = one_key(self.alloc, left_key.min(65_535) as u16)?;
        let right_keys = one_key(self.alloc, place(rest))?;
        Ok(join_rows(self.alloc, left, right, &left_keys, &right_keys))
    }

    // What an operator gives, or none where the word is of no operator.
    fn end(&mut self, word: &str, rest: &str) -> Result<Option<OpEnd>, Fail> {
        let alloc = self.alloc;
        let end = match word {
            "filter" => {
                let cond = popped(&mut self.stack);
                filter_rows(alloc, &cond, copied(alloc, &self.rows)?)
            }
            "project" => project_rows(alloc, &copy_exprs(alloc, &self.stack)?, &self.rows),
            "join" => self.join(rest)?,
            "partial" => partial_rows(alloc, &places(alloc, rest)?, &self.aggregates, &self.rows),
            "final" => final_rows(alloc, place(rest), &self.aggregates, &self.rows),
            "distinct" => distinct_rows(alloc, copied(alloc, &self.rows)?),
            "sort" => sort_rows(&self.order, self.limit, copied(alloc, &self.rows)?),
            _ => return Ok(None),
        };
        Ok(Some(end))
    }

    // Takes an aggregate of the last expression, and says whether the word names one.
    fn aggregate(&mut self, word: &str) -> Result<bool, Fail> {
        let aggregate = match word {
            "count_all" => Aggregate::CountAll,
            "count" => Aggregate::Count(popped(&mut self.stack)),
            "sum" => Aggregate::Sum(popped(&mut self.stack)),
            "min" => Aggregate::Min(popped(&mut self.stack)),
            "max" => Aggregate::Max(popped(&mut self.stack)),
            _ => return Ok(false),
        };
        self.aggregates.push(aggregate)?;
        Ok(true)
    }

    // Takes a line that says what an operator is run on, and says whether it does.
    fn given(&mut self, word: &str, rest: &str) -> Result<bool, Fail> {
        match word {
            "row" => self.rows.push(row_of(self.alloc, rest)?)?,
            "left" => self.left.push(row_of(self.alloc, rest)?)?,
            "expr" => push_parts(self.alloc, &mut self.stack, rest)?,
            "up" => self.order.push(SortKey {
                column: place(rest),
                descending: false,
            })?,
            "down" => self.order.push(SortKey {
                column: place(rest),
                descending: true,
            })?,
            "limit" => self.limit = Some(cases::number(rest) as u64),
            _ => return self.aggregate(word),
        }
        Ok(true)
    }
}

/// Shows the cases of `operators.txt`.
pub fn run(rt: HostRuntime) -> Result<(), Fail> {
    let alloc = rt.alloc();
    let text = cases::text_of(rt, "operators.txt")?;
    let mut case = Case::new(alloc);
    for line in text.as_str().lines() {
        let Some((word, rest)) = cases::line_of(line) else {
            continue;
        };
        if case.given(word, rest)? {
            continue;
        }
        match case.end(word, rest)? {
            Some(end) => show(rt, end)?,
            None => {
                println!(rt; "{word} {rest}")?;
                case = Case::new(alloc);
            }
        }
    }
    Ok(())
}
