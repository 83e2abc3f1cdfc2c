//! The cases of the language layer: `hq_lex`, `hq_expr`, `hq_sql`, `hq_bind` and `hq_forms`.
//!
//! Each line of `data/` has a call and a text, and is printed with what the call gives. `stdout` has what must come.
#![tactic(auto)]

mod binds;
mod forms;
mod show;
mod texts;

use std::test::Fail;

fn main(rt: HostRuntime) -> Result<(), Fail> {
    texts::run(rt, "tokens.txt")?;
    texts::run(rt, "expressions.txt")?;
    texts::run(rt, "statements.txt")?;
    texts::run(rt, "forms.txt")?;
    binds::run(rt, "binds.txt")
}
