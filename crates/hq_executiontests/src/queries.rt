//! The worked queries.
ghost use Rattle.std.specs.Prelude.{◌≡◌, ◌∷◌, [], ℕ, List, IfOk, IsTrue};
ghost use Rattle.hq_value.specs.declared.kind.Kind.{Kind};
ghost use Rattle.hq_algebra.specs.Bound.{is_bound};
ghost use Rattle.hq_executiontests.specs.Worked as spec;
ghost use Rattle.hq_executiontests.specs.Rules.{KeepsRules, fits};

use hq_algebra::{
    Aggregate, Aggregates, CompareKind, Expr, Exprs, Keys16, Query, SortKey, SortKeys, Tables32,
};
use hq_value::{Chars, NoMemory, Sequence, Value};
use sqlite_items::Boxed;
use std::alloc::Global;

/// The parts of a query that is not DISTINCT.
#[derive(Debug, Drop)]
pub struct Parts {
    pub sources: Tables32,
    pub conds: Exprs,
    pub grouped: bool,
    pub groups: Keys16,
    pub aggregates: Aggregates,
    pub having: Exprs,
    pub items: Exprs,
    pub order: SortKeys,
    pub limit: Option<u64>,
}

/// The query of these parts.
pub fn query_of(parts: Parts) -> Query
    requires { KeepsRules parts }
    ensures { (kinds : ℕ → List Kind) → IsTrue (fits kinds parts) → IsTrue (is_bound kinds result) }
{
    let Parts {
        sources,
        conds,
        grouped,
        groups,
        aggregates,
        having,
        items,
        order,
        limit,
    } = parts;
    Query {
        sources,
        conds,
        grouped,
        groups,
        aggregates,
        having,
        items,
        distinct: false,
        order,
        limit,
    }
}

fn compare(alloc: Global, kind: CompareKind, left: u16, right: Expr) -> Result<Expr, NoMemory>
    ensures { IfOk result (λ e. e ≡ Expr.Compare kind (Expr.Column left) right) }
{
    Ok(Expr::Compare {
        kind,
        left: Boxed::new(alloc, Expr::Column(left))?,
        right: Boxed::new(alloc, right)?,
    })
}

fn equal(alloc: Global, left: u16, right: u16) -> Result<Expr, NoMemory>
    ensures { IfOk result (λ e. e ≡ spec.equal left right) }
{
    compare(alloc, CompareKind::Equal, left, Expr::Column(right))
}

fn one(alloc: Global, e: Expr) -> Result<Exprs, NoMemory>
    ensures { IfOk result (λ es. es ≡ e ∷ []) }
{
    let mut exprs = Exprs::new(alloc);
    exprs.push(e)?;
    Ok(exprs)
}

fn two(alloc: Global, first: Expr, second: Expr) -> Result<Exprs, NoMemory>
    ensures { IfOk result (λ es. es ≡ first ∷ second ∷ []) }
{
    let mut exprs = Exprs::new(alloc);
    exprs.push(first)?;
    exprs.push(second)?;
    Ok(exprs)
}

fn sources(alloc: Global, tables: &[u32]) -> Result<Tables32, NoMemory>
    ensures { IfOk result (λ sources. sources ≡ tables.now) }
{
    let sources = tables.to_vec(alloc)?;
    Ok(Sequence::from_vec(sources))
}

fn ungrouped(alloc: Global, sources: Tables32, conds: Exprs, items: Exprs) -> Parts
    ensures { result ≡ spec.ungrouped sources conds items }
{
    Parts {
        sources,
        conds,
        grouped: false,
        groups: Keys16::new(alloc),
        aggregates: Aggregates::new(alloc),
        having: Exprs::new(alloc),
        items,
        order: SortKeys::new(alloc),
        limit: None,
    }
}

/// `SELECT u.id, v.k FROM u JOIN v ON u.g = v.g`
pub fn met(alloc: Global) -> Result<Parts, NoMemory>
    ensures { IfOk result (λ parts. parts ≡ spec.met) }
{
    let sources = sources(alloc, &[0, 1])?;
    let link = equal(alloc, 1, 3)?;
    let conds = one(alloc, link)?;
    let items = two(alloc, Expr::Column(0), Expr::Column(2))?;
    Ok(ungrouped(alloc, sources, conds, items))
}

/// `SELECT u.g, v.g FROM u JOIN v ON u.id = v.k`
pub fn met_by_keys(alloc: Global) -> Result<Parts, NoMemory>
    ensures { IfOk result (λ parts. parts ≡ spec.met_by_keys) }
{
    let sources = sources(alloc, &[0, 1])?;
    let link = equal(alloc, 0, 2)?;
    let conds = one(alloc, link)?;
    let items = two(alloc, Expr::Column(1), Expr::Column(3))?;
    Ok(ungrouped(alloc, sources, conds, items))
}

/// `SELECT u.id, v.k FROM u JOIN v ON u.g = v.g WHERE v.k < 5`
pub fn few_met(alloc: Global) -> Result<Parts, NoMemory>
    ensures { IfOk result (λ parts. parts ≡ spec.few_met) }
{
    let sources = sources(alloc, &[0, 1])?;
    let link = equal(alloc, 1, 3)?;
    let test = compare(alloc, CompareKind::Less, 2, Expr::Literal(Value::Int(5)))?;
    let conds = two(alloc, link, test)?;
    let items = two(alloc, Expr::Column(0), Expr::Column(2))?;
    Ok(ungrouped(alloc, sources, conds, items))
}

/// `SELECT x.amount FROM sale x JOIN shop s ON x.shop = s.id WHERE s.city = city`
pub fn in_city(alloc: Global, city: Chars) -> Result<Parts, NoMemory>
    ensures { IfOk result (λ parts. parts ≡ spec.in_city city) }
{
    let sources = sources(alloc, &[3, 2])?;
    let link = equal(alloc, 0, 3)?;
    let test = compare(
        alloc,
        CompareKind::Equal,
        4,
        Expr::Literal(Value::Text(city)),
    )?;
    let conds = two(alloc, link, test)?;
    let items = one(alloc, Expr::Column(2))?;
    Ok(ungrouped(alloc, sources, conds, items))
}

/// `SELECT u.id, x.amount FROM u, sale x, v WHERE u.g = v.k AND v.g = x.shop`
pub fn chained(alloc: Global) -> Result<Parts, NoMemory>
    ensures { IfOk result (λ parts. parts ≡ spec.chained) }
{
    let sources = sources(alloc, &[0, 3, 1])?;
    let link = equal(alloc, 1, 5)?;
    let other = equal(alloc, 6, 2)?;
    let conds = two(alloc, link, other)?;
    let items = two(alloc, Expr::Column(0), Expr::Column(4))?;
    Ok(ungrouped(alloc, sources, conds, items))
}

fn sum_of(alloc: Global, place: u16) -> Result<Aggregates, NoMemory>
    ensures { IfOk result (λ aggregates. aggregates ≡ Aggregate.Sum (Expr.Column place) ∷ []) }
{
    let mut aggregates = Aggregates::new(alloc);
    aggregates.push(Aggregate::Sum(Expr::Column(place)))?;
    Ok(aggregates)
}

fn group_by(alloc: Global, place: u16) -> Result<Keys16, NoMemory>
    ensures { IfOk result (λ groups. groups ≡ place ∷ []) }
{
    let mut groups = Keys16::new(alloc);
    groups.push(place)?;
    Ok(groups)
}

fn down(alloc: Global, column: u16) -> Result<SortKeys, NoMemory>
    ensures { IfOk result (λ order. order ≡ spec.down column ∷ []) }
{
    let mut order = SortKeys::new(alloc);
    order.push(SortKey {
        column,
        descending: true,
    })?;
    Ok(order)
}

fn grouped_by_city(
    sources: Tables32,
    conds: Exprs,
    groups: Keys16,
    aggregates: Aggregates,
    having: Exprs,
    items: Exprs,
    order: SortKeys,
) -> Parts
    ensures { result ≡ spec.grouped sources conds groups aggregates having items order }
{
    Parts {
        sources,
        conds,
        grouped: true,
        groups,
        aggregates,
        having,
        items,
        order,
        limit: Some(10),
    }
}

/// `SELECT s.city, SUM(x.amount) AS total FROM sale x JOIN shop s ON x.shop = s.id WHERE x.day >= 20240102
/// GROUP BY s.city HAVING SUM(x.amount) > 10 ORDER BY total DESC LIMIT 10`
pub fn sold(alloc: Global) -> Result<Parts, NoMemory>
    ensures { IfOk result (λ parts. parts ≡ spec.sold) }
{
    let sources = sources(alloc, &[3, 2])?;
    let link = equal(alloc, 0, 3)?;
    let test = compare(
        alloc,
        CompareKind::AtLeast,
        1,
        Expr::Literal(Value::Int(20240102)),
    )?;
    let conds = two(alloc, link, test)?;
    let groups = group_by(alloc, 4)?;
    let aggregates = sum_of(alloc, 2)?;
    let much = compare(
        alloc,
        CompareKind::Greater,
        1,
        Expr::Literal(Value::Int(10)),
    )?;
    let having = one(alloc, much)?;
    let items = two(alloc, Expr::Column(0), Expr::Column(1))?;
    let order = down(alloc, 1)?;
    Ok(grouped_by_city(sources, conds, groups, aggregates, having, items, order))
}
