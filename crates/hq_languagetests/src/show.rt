//! Statements and their parts as they are shown.

use hq_sql::{
    AggregateKind, ArithKind, ColumnRef, CompareKind, CreateStatement, InsertInput,
    InsertStatement, Item, Literal, OrderBy, OrderKey, SelectStatement, SourceName, SqlExpr,
    Statement,
};
use hq_value::{Column, Kind, Name, Sequence};
use std::str;
use std::test::Fail;

/// Parts of a statement in a short form: a list stands in parentheses, and an operator before its operands.
pub trait Show {
    fn show(&self, out: &mut String) -> Result<(), Fail>;
}

pub fn show_bytes(out: &mut String, bytes: &[u8]) -> Result<(), Fail> {
    match str::from_utf8(bytes) {
        Ok(text) => out.push_str(text)?,
        Err(_) => out.push_str("?")?,
    }
    Ok(())
}

impl<T: Show> Show for Sequence<T> {
    fn show(&self, out: &mut String) -> Result<(), Fail> {
        let mut before = "(";
        if self.is_empty() {
            out.push_str(before)?;
        }
        for item in self.as_slice() {
            out.push_str(before)?;
            item.show(out)?;
            before = ", ";
        }
        out.push_str(")")?;
        Ok(())
    }
}

impl Show for Name {
    fn show(&self, out: &mut String) -> Result<(), Fail> {
        show_bytes(out, self.as_bytes())
    }
}

impl Show for Column {
    fn show(&self, out: &mut String) -> Result<(), Fail> {
        self.name.show(out)?;
        out.push_str(match self.kind {
            Kind::Bool => " bool",
            Kind::Int => " int",
            Kind::Text => " text",
        })?;
        if self.not_null {
            out.push_str(" not null")?;
        }
        Ok(())
    }
}

impl Show for Literal {
    fn show(&self, out: &mut String) -> Result<(), Fail> {
        match self {
            Literal::Null => out.push_str("null")?,
            Literal::Bool(true) => out.push_str("true")?,
            Literal::Bool(false) => out.push_str("false")?,
            Literal::Int(n) => write!(out, "{n}")?,
            Literal::Text(text) => {
                out.push_str("'")?;
                show_bytes(out, text.as_bytes())?;
                out.push_str("'")?;
            }
        }
        Ok(())
    }
}

impl Show for ColumnRef {
    fn show(&self, out: &mut String) -> Result<(), Fail> {
        if let Some(source) = &self.source {
            source.show(out)?;
            out.push_str(".")?;
        }
        self.column.show(out)
    }
}

impl Show for SqlExpr {
    fn show(&self, out: &mut String) -> Result<(), Fail> {
        show_expr(out, self)
    }
}

fn show_expr(out: &mut String, expr: &SqlExpr) -> Result<(), Fail> {
    match expr {
        SqlExpr::Literal(literal) => return literal.show(out),
        SqlExpr::Column(reference) => return reference.show(out),
        SqlExpr::CountAll => {
            out.push_str("count")?;
            return Ok(());
        }
        SqlExpr::Aggregate { kind, of } => {
            out.push_str(aggregate_word(*kind))?;
            show_expr(out, of.get())?;
        }
        SqlExpr::Arith { kind, left, right } => {
            out.push_str(arith_sign(*kind))?;
            show_expr(out, left.get())?;
            out.push_str(" ")?;
            show_expr(out, right.get())?;
        }
        SqlExpr::Compare { kind, left, right } => {
            out.push_str(compare_sign(*kind))?;
            show_expr(out, left.get())?;
            out.push_str(" ")?;
            show_expr(out, right.get())?;
        }
        SqlExpr::And { left, right } => {
            out.push_str("(and ")?;
            show_expr(out, left.get())?;
            out.push_str(" ")?;
            show_expr(out, right.get())?;
        }
        SqlExpr::Or { left, right } => {
            out.push_str("(or ")?;
            show_expr(out, left.get())?;
            out.push_str(" ")?;
            show_expr(out, right.get())?;
        }
        SqlExpr::Not(of) => {
            out.push_str("(not ")?;
            show_expr(out, of.get())?;
        }
        SqlExpr::IsNull(of) => {
            out.push_str("(null ")?;
            show_expr(out, of.get())?;
        }
    }
    out.push_str(")")?;
    Ok(())
}

fn aggregate_word(kind: AggregateKind) -> &'static str {
    match kind {
        AggregateKind::Count => "(count ",
        AggregateKind::Sum => "(sum ",
        AggregateKind::Min => "(min ",
        AggregateKind::Max => "(max ",
    }
}

pub fn arith_sign(kind: ArithKind) -> &'static str {
    match kind {
        ArithKind::Plus => "(+ ",
        ArithKind::Minus => "(- ",
        ArithKind::Times => "(* ",
    }
}

pub fn compare_sign(kind: CompareKind) -> &'static str {
    match kind {
        CompareKind::Equal => "(= ",
        CompareKind::NotEqual => "(<> ",
        CompareKind::Less => "(< ",
        CompareKind::AtMost => "(<= ",
        CompareKind::Greater => "(> ",
        CompareKind::AtLeast => "(>= ",
    }
}

fn show_alias(out: &mut String, alias: &Option<Name>) -> Result<(), Fail> {
    if let Some(name) = alias {
        out.push_str(" as ")?;
        name.show(out)?;
    }
    Ok(())
}

impl Show for Item {
    fn show(&self, out: &mut String) -> Result<(), Fail> {
        self.expr.show(out)?;
        show_alias(out, &self.alias)
    }
}

impl Show for SourceName {
    fn show(&self, out: &mut String) -> Result<(), Fail> {
        self.table.show(out)?;
        show_alias(out, &self.alias)
    }
}

impl Show for OrderKey {
    fn show(&self, out: &mut String) -> Result<(), Fail> {
        match &self.by {
            OrderBy::Column(name) => name.show(out)?,
            OrderBy::Place(place) => write!(out, "{place}")?,
        }
        if self.descending {
            out.push_str(" desc")?;
        }
        Ok(())
    }
}

// A clause that is missing where its list is empty.
fn show_clause<T: Show>(out: &mut String, word: &str, list: &Sequence<T>) -> Result<(), Fail> {
    if list.is_empty() {
        return Ok(());
    }
    out.push_str(word)?;
    list.show(out)
}

impl Show for SelectStatement {
    fn show(&self, out: &mut String) -> Result<(), Fail> {
        out.push_str("select ")?;
        if self.distinct {
            out.push_str("distinct ")?;
        }
        self.items.show(out)?;
        show_clause(out, " from ", &self.sources)?;
        show_clause(out, " where ", &self.conds)?;
        show_clause(out, " group ", &self.groups)?;
        if let Some(having) = &self.having {
            out.push_str(" having ")?;
            having.show(out)?;
        }
        show_clause(out, " order ", &self.keys)?;
        if let Some(limit) = self.limit {
            write!(out, " limit {limit}")?;
        }
        Ok(())
    }
}

impl Show for CreateStatement {
    fn show(&self, out: &mut String) -> Result<(), Fail> {
        out.push_str("create ")?;
        self.name.show(out)?;
        show_clause(out, " ", &self.columns)?;
        show_clause(out, " by ", &self.keys)
    }
}

impl Show for InsertStatement {
    fn show(&self, out: &mut String) -> Result<(), Fail> {
        out.push_str("insert ")?;
        self.name.show(out)?;
        show_clause(out, " ", &self.columns)?;
        match &self.input {
            InsertInput::Tuples(tuples) => show_clause(out, " values ", tuples),
            InsertInput::Select(select) => {
                out.push_str(" ")?;
                select.show(out)
            }
        }
    }
}

impl Show for Statement {
    fn show(&self, out: &mut String) -> Result<(), Fail> {
        match self {
            Statement::Create(create) => create.show(out),
            Statement::Insert(insert) => insert.show(out),
            Statement::Alter { table, column } => {
                out.push_str("alter ")?;
                table.show(out)?;
                out.push_str(" add ")?;
                column.show(out)
            }
            Statement::Select(select) => select.show(out),
            Statement::Begin { snapshot: true } => Ok(out.push_str("begin snapshot")?),
            Statement::Begin { snapshot: false } => Ok(out.push_str("begin")?),
            Statement::Commit => Ok(out.push_str("commit")?),
            Statement::Rollback => Ok(out.push_str("rollback")?),
        }
    }
}
